// A stream to write to: the trait, and the writing of a whole text.
ghost use Rattle.std.specs.Prelude.{◌≡◌, ◌<◌, ◌≤◌, List, ℕ, Option, length, IfOk, IfErr, OnOk, OnErr};
ghost use Rattle.std.specs.Io.{WritesAtMost};
ghost use Rattle.std.specs.Io.KnownBytes.{Appends, WriteAppends};
ghost use Rattle.spl_io.specs.Counts.{Rose};
ghost use Rattle.spl_io.specs.Sink.{GrewByFront};

use crate::Failed;
use thiserror::Error;

/// A stream that takes bytes, a piece at a time. It may tell the bytes so far.
pub trait Sink {
    /// The bytes so far, where the object tells them.
    ghost written: { Self → Option (List ℕ) };

    /// How often a write has failed.
    ghost faults: { Self → ℕ };

    /// Takes the front of a piece, at least one byte, and answers how many. A device that takes nothing has failed.
    fn write(&mut self, piece: &[u8]) -> Result<usize, Failed>
        requires { 0 < length piece.now }
        ensures some { IfOk result (λ count. 1 ≤ count) }
        ensures bound { WritesAtMost result piece.now }
        ensures bytes { WriteAppends (written self.old) (written self.new) result piece.now }
        ensures failed { OnErr result (Rose (faults self.old) (faults self.new)) }
        ensures faults_never_fall { faults self.old ≤ faults self.new };
}

/// A text wasn't written whole: only its first `gone` bytes went out.
#[derive(Clone, Copy, Debug, PartialEq, Eq, Error)]
#[error("writing failed after {gone} bytes")]
pub struct WriteFault {
    /// How many bytes of the text went out.
    pub gone: usize,
}

/// Writes the whole text. Each write is given all that is left of it. Takes no memory.
pub fn write_all<S: Sink>(sink: &mut S, text: &[u8]) -> Result<(), WriteFault>
    ensures whole { OnOk result (Appends (S.written sink.old) (S.written sink.new) text.now) }
    ensures fault { OnErr result (Rose (S.faults sink.old) (S.faults sink.new)) }
    ensures some_left { IfErr result (λ fault. fault.gone < length text.now) }
    ensures front { IfErr result (λ fault. GrewByFront (S.written sink.old) (S.written sink.new) text.now fault.gone) }
    ensures faults_never_fall { S.faults sink.old ≤ S.faults sink.new }
{
    let mut gone = 0;
    while gone < text.len() {
        match sink.write(&text[gone..]) {
            Ok(count) => gone += count,
            Err(Failed) => return Err(WriteFault { gone }),
        }
    }
    Ok(())
}
