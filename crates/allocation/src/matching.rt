// Which agreed matches are validated.
ghost use Rattle.std.specs.Prelude.{◌≡◌, ℕ, ◌^◌, ◌<◌, ◌≤◌, ◌⊎◌, false, ◌&&◌, if◌then◌else◌, nat_le, slice_index_or};
ghost use Rattle.energy.specs.Grids.{sum_to};
ghost use Rattle.energy.specs.Totals.{sum_kwh};
ghost use Rattle.allocation.specs.Told.{grid_at};

use crate::square::{Square, square_of, sum_of};
use energy::Kwh;
use std::array;

/// Whose agreed matches fit: those that total at most the party's trade with the first n of the others.
#[tactic(auto, using(crate::proofs::Summing::sum_front))]
pub fn fitting(agreed: &Square, trade: &Square, n: usize) -> [bool; 16]
    requires few { n ≤ 16 }
    requires matches { (i j : ℕ) → grid_at agreed.now i j ≤ 9999999 }
    requires trades { (i j : ℕ) → grid_at trade.now i j ≤ 9999999 }
    ensures { (k : ℕ) → k < 16 → slice_index_or result k false ≡ nat_le (sum_to n (grid_at agreed.now k)) (sum_to n (grid_at trade.now k)) }
{
    array::from_fn(|i| fits(&agreed[i][..n], &trade[i][..n]))
}

/// Whether one party's agreed matches fit.
fn fits(agreed: &[Kwh], trade: &[Kwh]) -> bool
    requires matches { sum_kwh agreed.now < 2 ^ 64 }
    requires trades { sum_kwh trade.now < 2 ^ 64 }
    ensures { result ≡ nat_le (sum_kwh agreed.now) (sum_kwh trade.now) }
{
    sum_of(agreed) <= sum_of(trade)
}

/// The agreed matches whose two parties' matches fit.
pub fn match_grid(agreed: &Square, own: &[bool; 16], facing: &[bool; 16]) -> Square
    ensures inside { (i j : ℕ) → i < 16 → j < 16 → grid_at result i j ≡ (if slice_index_or own.now i false && slice_index_or facing.now j false then grid_at agreed.now i j else 0) }
    ensures outside { (i j : ℕ) → (16 ≤ i) ⊎ (16 ≤ j) → grid_at result i j ≡ 0 }
{
    square_of(|i, j| {
        let fit = own[i] && facing[j];
        if fit { agreed[i][j] } else { Kwh(0) }
    })
}
