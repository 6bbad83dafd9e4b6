// An entry of a book. The struct stands alone: what is said of it elsewhere names it.
ghost use Rattle.std.specs.Prelude.{◌≡◌, ⊤, true};

use crate::row::Row;
use std::alloc::AllocError;

mod calls;

/// What a row that passes its kind's check stands for. No entry exists whose row fails the check.
#[derive(Copy)]
pub struct Entry<R: Row> {
    pub(crate) row: R,
    pub ghost sound: { R.fit row ≡ true },
}

// By hand, since a derive is refused here over the ghost field.
impl<R: Row> Clone for Entry<R> {
    ghost is_clone = { λ x y. y ≡ x };

    ghost is_infallible = { λ _. ⊤ };

    fn clone(&self) -> Result<Entry<R>, AllocError> {
        Ok(*self)
    }
}
