//! What the command line asks for, done up to its output.
ghost use Rattle.std.specs.Prelude.{◌≡◌, ◌≤◌, IfOk, IfErr};
ghost use Rattle.std.specs.String.{string_bytes};
ghost use Rattle.command_words.specs.View.{asked_by};
ghost use Rattle.command_words.specs.Laws.{IsWithinLimits};
ghost use Rattle.interproc_top.specs.Bench.{IsBenchOf};
ghost use Rattle.interproc_top.specs.Command.{IsOutput, IsReported, Stops, StopsProgram, options};

use crate::analysis::{Options, Report};
use crate::bench::bench_text;
use crate::cause::{Cause, Status};
use crate::reading::file_bytes;
use crate::replay::replay_text;
use crate::stages::report_of;
use command_words::{Command, DomainName};
use dec_domain::DecDomain;
use spl_io::Files;
use std::alloc::Global;

/// What goes to the output, and the status once all of it stands there.
#[derive(Drop)]
pub struct Output {
    pub text: Vec<u8>,
    pub status: Status,
}

/// The output of a command, or what ended it first.
pub fn output_of<F: Files>(alloc: Global, command: &Command, files: &mut F) -> Result<Output, Cause>
    requires limits { IsWithinLimits (asked_by command.now) }
    ensures output { IfOk result (λ output. IsOutput (F.files files.old) (asked_by command.now) output.text.items output.status) }
    ensures stopped { IfErr result (λ cause. Stops (record {
      files = F.files files.old;
      open_before = F.open_faults files.old;
      open_now = F.open_faults files.new;
      read_before = F.read_faults files.old;
      read_now = F.read_faults files.new;
    }) (asked_by command.now) cause) }
    ensures same_files { F.files files.new ≡ F.files files.old }
{
    match command {
        Command::Analyse {
            delay,
            descend,
            full,
            domain,
            file,
        } => {
            let options = Options {
                delay: *delay,
                descend: *descend,
                full: *full,
            };
            reported(alloc, *domain, file.as_str(), options, files)
        }
        Command::Bench { number } => benched(alloc, *number),
        Command::Replay { file, choices } => {
            replay_text(alloc, file.as_str(), choices.as_str(), files)
        }
    }
}

/// The report on the program in a file.
fn reported<F: Files>(
    alloc: Global,
    domain: DomainName,
    file: &str,
    options: Options,
    files: &mut F,
) -> Result<Output, Cause>
    requires delay { options.delay ≤ 1000 }
    requires descend { options.descend ≤ 1000 }
    ensures output { IfOk result (λ output. IsReported (F.files files.old) options file.now output.text.items output.status) }
    ensures stopped { IfErr result (λ cause. StopsProgram (record {
      files = F.files files.old;
      open_before = F.open_faults files.old;
      open_now = F.open_faults files.new;
      read_before = F.read_faults files.old;
      read_now = F.read_faults files.new;
    }) file.now cause) }
    ensures same_files { F.files files.new ≡ F.files files.old }
{
    let bytes = match file_bytes(alloc, files, file) {
        Ok(bytes) => bytes,
        Err(cause) => return Err(cause),
    };
    match report_of(alloc, domain, &bytes, options) {
        Ok(Report { text, verdict }) => Ok(Output {
            text,
            status: verdict.status(),
        }),
        Err(cause) => Err(cause),
    }
}

/// The figures of a generated program.
fn benched(alloc: Global, number: u32) -> Result<Output, Cause>
    requires least { 1 ≤ number }
    requires greatest { number ≤ 42 }
    ensures output { IfOk result (λ output. IsBenchOf number output.text.items × (output.status ≡ Status.Proved)) }
    ensures stopped { IfErr result (λ cause. cause ≡ Cause.NoMemory) }
{
    let mut dom = DecDomain::new();
    match bench_text(alloc, number, &mut dom) {
        Ok(text) => Ok(Output {
            text,
            status: Status::Proved,
        }),
        Err(_) => Err(Cause::NoMemory),
    }
}
