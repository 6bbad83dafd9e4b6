// What a row with a key of its own is.
ghost use Rattle.std.specs.Prelude.{◌≡◌};

use crate::row::Row;

/// A plain row that has a key of its own, and is under the keys that equal it.
// Apart from `Row`, since another kind of row can be under its keys in another way.
pub trait Keyed: Row<Key: PartialEq> {
    /// The key of a row.
    ghost key_of: { Self → Self.Key };

    /// The key of the row.
    fn key(&self) -> Self::Key
        ensures { result ≡ key_of self.now };

    /// A row is under the keys that equal its own.
    ghost keyed: { (x : Self) (k : Self.Key) → Self.Key.eq (key_of x) k ≡ Self.under x k };
}
