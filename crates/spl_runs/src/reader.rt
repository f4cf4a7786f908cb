//! A reader of choices that takes a text byte by byte.

ghost use Rattle.std.specs.Prelude.{◌≡◌, ◌≤◌, ◌<◌, ◌+◌, ◌-◌, ◌++◌, ◌∷◌, [], length, IfOk, IsTrue, true, ◌⊎◌, pos, Some};
ghost use Rattle.spl_runs.specs.Choices.{given_of};
ghost use Rattle.spl_runs.specs.ChoicesText.{is_digit};
ghost use Rattle.spl_runs.specs.Word.{fits};
ghost use Rattle.spl_runs.specs.Reading.{Reading, Takes, Gives, Agrees, NextNumber, reading_of, begun_reading, number_ended, line_ended, with_digit, with_line_feed, with_minus, with_space, next, ended, is_in_number};

use crate::choices::{Choices, Step};
use std::alloc::{AllocError, Global};
use std::mem;

/// Where in a line a reader is.
#[derive(Clone, Copy, Debug, Drop, PartialEq, Eq)]
pub(crate) enum Mode {
    /// Before the first byte of a line.
    LineStart,
    /// After a space.
    Gap,
    /// After a minus.
    Sign,
    /// After a digit.
    Digits,
}

/// Why a byte isn't taken.
#[derive(Clone, Copy, Debug, Drop, PartialEq, Eq)]
pub(crate) enum ByteFault {
    /// The byte can't stand where it stands.
    Bad,
    /// The number that it belongs to passes 128 bits.
    Wide,
    NoMemory,
}

/// The lines that ended, the numbers of the line that is being read, and the number that is being read.
#[derive(Drop)]
pub(crate) struct Reader {
    choices: Choices,
    first_line: bool,
    line: Vec<i128>,
    mode: Mode,
    minus: bool,
    number: i128,
}

/// A line that isn't the first one, as a step.
fn step_of(alloc: Global, line: &[i128]) -> Result<Step, AllocError>
    requires { 0 < length line.now }
    ensures { IfOk result (λ s. line.now ≡ s.edge ∷ s.values.items) }
{
    let mut values = Vec::new(alloc);
    values.extend_from_slice(&line[1..])?;
    let edge = line[0];
    Ok(Step { edge, values })
}

/// A number with a digit more; none if it passes 128 bits.
fn with_more(number: i128, minus: bool, digit: u8) -> Option<i128>
    requires { Agrees minus number }
    ensures { NextNumber minus number digit result }
{
    let shifted = number.checked_mul(10)?;
    if minus {
        shifted.checked_sub(i128::from(digit))
    } else {
        shifted.checked_add(i128::from(digit))
    }
}

impl Reader {
    /// A reader that has taken nothing.
    pub(crate) fn new(alloc: Global) -> Reader
        ensures { reading_of result ≡ begun_reading }
    {
        let choices = Choices {
            start: Vec::new(alloc),
            steps: Vec::new(alloc),
        };
        Reader {
            choices,
            first_line: true,
            line: Vec::new(alloc),
            mode: Mode::LineStart,
            minus: false,
            number: 0,
        }
    }

    fn take_digit(&mut self, b: u8) -> Result<(), ByteFault>
        requires digit { IsTrue (is_digit b) }
        requires agrees { Agrees self.old.minus self.old.number }
        ensures { Takes (Some (with_digit (reading_of self.old) b)) result (reading_of self.new) }
    {
        match with_more(self.number, self.minus, b - b'0') {
            Some(number) => {
                self.number = number;
                self.mode = Mode::Digits;
                Ok(())
            }
            None => Err(ByteFault::Wide),
        }
    }

    fn take_minus(&mut self) -> Result<(), ByteFault>
        ensures { Takes (with_minus self.old.mode (reading_of self.old)) result (reading_of self.new) }
    {
        match self.mode {
            Mode::LineStart | Mode::Gap => {
                self.minus = true;
                self.mode = Mode::Sign;
                Ok(())
            }
            Mode::Sign | Mode::Digits => Err(ByteFault::Bad),
        }
    }

    /// The number ends; what follows is a space, or the line ends too.
    fn end_number(&mut self, mode: Mode) -> Result<(), AllocError>
        ensures { IfOk result (λ _. reading_of self.new ≡ number_ended mode (reading_of self.old)) }
    {
        self.line.push(self.number)?;
        self.mode = mode;
        self.minus = false;
        self.number = 0;
        Ok(())
    }

    fn end_line(&mut self, alloc: Global) -> Result<(), AllocError>
        requires { IsTrue self.old.first_line ⊎ (0 < length self.old.line.items) }
        ensures { IfOk result (λ _. reading_of self.new ≡ line_ended (reading_of self.old)) }
    {
        let line = mem::replace(&mut self.line, Vec::new(alloc));
        if self.first_line {
            self.choices.start = line;
            self.first_line = false;
        } else {
            let step = step_of(alloc, &line)?;
            self.choices.steps.push(step)?;
        }
        self.mode = Mode::LineStart;
        Ok(())
    }

    fn take_space(&mut self) -> Result<(), ByteFault>
        ensures { Takes (with_space self.old.mode (reading_of self.old)) result (reading_of self.new) }
    {
        match self.mode {
            Mode::Gap => Ok(()),
            Mode::Digits => self.end_number(Mode::Gap).map_err(|_| ByteFault::NoMemory),
            Mode::LineStart | Mode::Sign => Err(ByteFault::Bad),
        }
    }

    fn take_line_feed(&mut self, alloc: Global) -> Result<(), ByteFault>
        ensures { Takes (with_line_feed self.old.mode (reading_of self.old)) result (reading_of self.new) }
    {
        match self.mode {
            Mode::LineStart if self.first_line => {}
            Mode::Digits => self
                .end_number(Mode::Digits)
                .map_err(|_| ByteFault::NoMemory)?,
            _ => return Err(ByteFault::Bad),
        }
        self.end_line(alloc).map_err(|_| ByteFault::NoMemory)
    }

    /// Takes one byte more. After a fault nothing is said of the reader.
    #[tactic(auto, using(crate::proofs::Fitting::fits_of))]
    pub(crate) fn take(&mut self, alloc: Global, b: u8) -> Result<(), ByteFault>
        requires { Agrees self.old.minus self.old.number }
        ensures takes { Takes (next (reading_of self.old) b) result (reading_of self.new) }
        ensures known { fits self.old.number ≡ true }
    {
        // What is read is known to be within 128 bits.
        let _number = self.number;
        match b {
            b'0'..=b'9' => self.take_digit(b),
            b'-' => self.take_minus(),
            b' ' => self.take_space(),
            b'\n' => self.take_line_feed(alloc),
            _ => Err(ByteFault::Bad),
        }
    }

    /// The choices, if the text may end here.
    #[tactic(auto, using(crate::proofs::Fitting::fits_of))]
    pub(crate) fn finish(mut self, alloc: Global) -> Result<Option<Choices>, AllocError>
        ensures gives { Gives (ended (reading_of self)) result }
        ensures known { fits self.number ≡ true }
    {
        match self.mode {
            Mode::LineStart => Ok(Some(self.choices)),
            Mode::Digits => {
                self.end_number(Mode::Digits)?;
                self.end_line(alloc)?;
                Ok(Some(self.choices))
            }
            Mode::Gap | Mode::Sign => Ok(None),
        }
    }

    /// Whether a number is being read.
    pub(crate) fn in_number(&self) -> bool
        ensures { result ≡ is_in_number self.now.mode }
    {
        matches!(self.mode, Mode::Sign | Mode::Digits)
    }
}
