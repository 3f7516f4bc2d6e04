use crate::set::Places;

/// What may come next, as a set of places, and whether what was read is in the language.
#[derive(Clone, Copy, Debug, PartialEq, Eq)]
pub struct Reading {
    pub(crate) ahead: Places,
    pub(crate) ended: bool,
}
