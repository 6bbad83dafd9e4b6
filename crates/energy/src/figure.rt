// Whatever tells a kWh figure, and the one routine that adds such figures up.
ghost use Rattle.std.specs.Prelude.{◌≡◌, ℕ};
ghost use Rattle.energy.specs.Totals.{within64, sum_of};

use crate::unit::Kwh;

/// What tells a kWh figure.
pub trait EnergyFigure {
    ghost figure: { Self → ℕ };

    /// The figure.
    fn kwh(&self) -> Kwh
        ensures { result.0 ≡ figure self.now };
}

impl EnergyFigure for Kwh {
    ghost figure = { λ x. x.0 };

    fn kwh(&self) -> Kwh {
        *self
    }
}

/// The sum of the figures, or none where it passes 64 bits.
pub fn total<T: EnergyFigure>(items: &[T]) -> Option<Kwh>
    ensures { result ≡ within64 (sum_of T.figure items.now) }
{
    let mut sum: u64 = 0;
    for item in items {
        sum = sum.checked_add(item.kwh().0)?;
    }
    Some(Kwh(sum))
}
