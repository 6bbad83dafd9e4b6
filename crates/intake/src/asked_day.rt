// What a file is asked against besides the book.
use crate::terms::FileTerms;
use register::Register;

/// A day's register and terms.
#[derive(Clone, Copy)]
pub(crate) struct AskedDay<'a> {
    pub(crate) register: &'a Register,
    pub(crate) terms: FileTerms,
}
