//! The top call.
ghost use Rattle.std.specs.Prelude.{◌≡◌, Err};
ghost use Rattle.interproc_top.specs.Call.{Completes, End, Ends, Says, Tells, status_at};
ghost use Rattle.interproc_top.specs.Cause.{line_of};

use crate::cause::{Cause, Status};
use crate::command::{Output, output_of};
use command_words::{WordsFault, law_limits, read_words};
use spl_io::{Files, Sink, Words, write_all};
use spl_parser::law_one_tree;
use spl_runs::law_choices;
use spl_text::law_one_cut_or_fault;
use std::alloc::Global;

/// Does all that the program does: what the words ask for, with its output to `out`.
///
/// The output is made whole before the first write to `out`. Where the call ends early, one line goes to `err`.
pub fn run<F: Files, O: Sink, E: Sink>(
    alloc: Global,
    words: &Words,
    files: &mut F,
    out: &mut O,
    err: &mut E,
) -> Status
    // How the call ended has its cause, its status and its line.
    ensures answer { (end : End) × (result ≡ status_at end)
        × Ends end (record {
          words = words.now;
          reading = record {
            files = F.files files.old;
            open_before = F.open_faults files.old;
            open_now = F.open_faults files.new;
            read_before = F.read_faults files.old;
            read_now = F.read_faults files.new;
          };
          write_before = O.faults out.old;
          write_now = O.faults out.new;
          out_before = O.written out.old;
          out_now = O.written out.new;
        })
        × Says end (E.faults err.old) (E.faults err.new) (E.written err.old) (E.written err.new) }
    // Where the outside is fair, the answer is the one that the words and the files call for.
    ensures complete { Completes result (record {
      words = words.now;
      reading = record {
        files = F.files files.old;
        open_before = F.open_faults files.old;
        open_now = F.open_faults files.new;
        read_before = F.read_faults files.old;
        read_now = F.read_faults files.new;
      };
      write_before = O.faults out.old;
      write_now = O.faults out.new;
      out_before = O.written out.old;
      out_now = O.written out.new;
    }) }
    ensures opens_nothing { result ≡ Status.Usage → files.new ≡ files.old }
    ensures same_files { F.files files.new ≡ F.files files.old }
{
    law_one_cut_or_fault();
    law_one_tree();
    law_choices();
    match work(alloc, words, files, out) {
        Ok(status) => status,
        Err(cause) => {
            tell(err, cause);
            cause.status()
        }
    }
}

/// Writes the output of what the words ask for, or says what ended that first.
fn work<F: Files, O: Sink>(
    alloc: Global,
    words: &Words,
    files: &mut F,
    out: &mut O,
) -> Result<Status, Cause>
    ensures ends { Ends result (record {
      words = words.now;
      reading = record {
        files = F.files files.old;
        open_before = F.open_faults files.old;
        open_now = F.open_faults files.new;
        read_before = F.read_faults files.old;
        read_now = F.read_faults files.new;
      };
      write_before = O.faults out.old;
      write_now = O.faults out.new;
      out_before = O.written out.old;
      out_now = O.written out.new;
    }) }
    ensures opens_nothing { result ≡ Err Cause.Usage → files.new ≡ files.old }
    ensures same_files { F.files files.new ≡ F.files files.old }
{
    law_limits();
    let command = match read_words(alloc, words.as_slice()) {
        Ok(command) => command,
        Err(WordsFault::Usage) => return Err(Cause::Usage),
        Err(WordsFault::NoMemory) => return Err(Cause::NoMemory),
    };
    let Output { text, status } = match output_of(alloc, &command, files) {
        Ok(output) => output,
        Err(cause) => return Err(cause),
    };
    match write_all(out, &text) {
        Ok(()) => Ok(status),
        Err(_) => Err(Cause::WriteFault),
    }
}

/// Writes the line of a cause. That it can't be written changes nothing else.
fn tell<E: Sink>(err: &mut E, cause: Cause)
    ensures { Tells (E.faults err.old) (E.faults err.new) (E.written err.old) (E.written err.new) (line_of cause) }
{
    let line = cause.line();
    let _ = write_all(err, line.as_str().as_bytes());
}
