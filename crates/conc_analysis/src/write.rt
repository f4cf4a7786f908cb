//! What an edge writes.
use interval_form::Interval;

/// An interval that an edge of a thread writes to a variable of main.
#[derive(Clone, Copy, Debug, Drop, PartialEq, Eq)]
pub(crate) struct Write {
    pub(crate) variable: u32,
    pub(crate) range: Interval,
}
