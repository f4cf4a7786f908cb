//! The text of choices.

ghost use Rattle.std.specs.Prelude.{◌≡◌, MatchResult};
ghost use Rattle.spl_runs.specs.Choices.{given_of};
ghost use Rattle.spl_runs.specs.ChoicesText.{IsChoices, FaultAt};
ghost use Rattle.spl_runs.specs.Read.{Answers};

use crate::choices::Choices;
use crate::reader::{ByteFault, Reader};
use std::alloc::Global;
use thiserror::Error;

/// Why a text has no choices.
#[derive(Clone, Copy, Debug, PartialEq, Eq, Drop, Error)]
pub enum ChoiceFault {
    /// The text isn't one of choices, and this is the offset of its first fault: of a byte that can't stand where it stands
    /// (the text's length, where its end can't), or of a number past 128 bits.
    #[error("the choices are bad at byte {0}")]
    BadChoices(usize),
    #[error("out of memory")]
    NoMemory,
}

/// The choices that a text spells: lines of numbers that are separated by one or more spaces, where a number is an
/// optional minus and decimal digits, within 128 bits. The first line has main's values at its entry, and may be empty;
/// each later line is a step, which begins with the number of the edge. A last LF is allowed.
pub fn read_choices(alloc: Global, bytes: &[u8]) -> Result<Choices, ChoiceFault>
    ensures { Answers bytes.now result }
{
    let mut reader = Reader::new(alloc);
    let mut start = 0;
    for (at, b) in bytes.iter().enumerate() {
        if !reader.in_number() {
            start = at;
        }
        match reader.take(alloc, *b) {
            Ok(()) => {}
            Err(ByteFault::Bad) => return Err(ChoiceFault::BadChoices(at)),
            Err(ByteFault::Wide) => return Err(ChoiceFault::BadChoices(start)),
            Err(ByteFault::NoMemory) => return Err(ChoiceFault::NoMemory),
        }
    }
    match reader.finish(alloc) {
        Ok(Some(choices)) => Ok(choices),
        Ok(None) => Err(ChoiceFault::BadChoices(bytes.len())),
        Err(_) => Err(ChoiceFault::NoMemory),
    }
}
