// Figures by sender and receiver, 16 by 16.
ghost use Rattle.std.specs.Prelude.{◌≡◌, ℕ, ◌^◌, ◌<◌, ◌≤◌, ◌⊎◌};
ghost use Rattle.energy.specs.Grids.{figure_at};
ghost use Rattle.energy.specs.Totals.{sum_kwh};
ghost use Rattle.energy.specs.Units.{kwh};
ghost use Rattle.allocation.specs.Told.{grid_at, Within16};

use energy::{Kwh, total};
use std::array;

/// Figures by sender and receiver.
pub type Square = [[Kwh; 16]; 16];

/// The square of what a function gives for each place.
pub fn square_of<F: Fn(usize, usize) -> Kwh>(figure: F) -> Square
    requires { (i j : ℕ) → i < 16 → j < 16 → F.pre figure i j }
    ensures inside { (i j : ℕ) → i < 16 → j < 16 → F.post figure i j (kwh (grid_at result i j)) }
    ensures outside { (i j : ℕ) → (16 ≤ i) ⊎ (16 ≤ j) → grid_at result i j ≡ 0 }
{
    // A loop over the rows, since `from_fn` copies all of them once more.
    let mut grid = [[Kwh(0); 16]; 16];
    for i in 0..16 {
        grid[i] = array::from_fn(
            |j|
                requires { F.pre figure i j }
                ensures { F.post figure i j result }
            { figure(i, j) },
        );
    }
    grid
}

/// The figures with senders and receivers exchanged.
pub fn transposed(grid: &Square) -> Square
    requires outside { Within16 (grid_at grid.now) }
    ensures { grid_at result ≡ (λ (i j : ℕ). grid_at grid.now j i) }
{
    square_of(|i, j| grid[j][i])
}

/// The sum of figures that are few and small.
pub fn sum_of(row: &[Kwh]) -> Kwh
    requires { sum_kwh row.now < 2 ^ 64 }
    ensures { result.0 ≡ sum_kwh row.now }
{
    total(row).unwrap()
}
