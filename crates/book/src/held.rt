// The book over a lent slice. The struct stands alone: what is said of it elsewhere names it.
ghost use Rattle.std.specs.Prelude.{◌≤◌, length};

mod calls;
mod size;

/// Rows that a caller lends, the first of them in use.
// Over a lent slice, and no Vec: the caller keeps the rows, and a book needs no heap.
#[derive(Drop)]
pub struct Book<'a, R> {
    rows: &'a mut [R],
    used: usize,
    ghost within: { used ≤ length rows.now },
}
