//! One run of a program by its choices.
ghost use Rattle.std.specs.Prelude.{◌≡◌, ◌==◌, ◌<◌, ◌≤◌, ◌^◌, ◌-◌, ◌⊎◌, length, IfOk, IfErr};
ghost use Rattle.std.specs.List.{list_any};
ghost use Rattle.spl_tree.specs.Meaning.{program_of};
ghost use Rattle.spl_tree.specs.Program.{Program};
ghost use Rattle.spl_runs.specs.Choices.{given_of};
ghost use Rattle.spl_runs.specs.ChoicesText.{IsChoices};
ghost use Rattle.interproc_top.specs.Command.{IsReplayed, StopsProgram, StopsRun};
ghost use Rattle.interproc_top.specs.Replay.{IsRunText, Spoils, last_point};

use crate::cause::{Cause, Status};
use crate::command::Output;
use crate::reading::file_bytes;
use crate::stages::{checked_of, tokens_of, tree_of};
use control_points::{Fail, core_of};
use run_text::run_text;
use spl_io::Files;
use spl_runs::{ChoiceFault, Choices, ReplayFault, Run, read_choices, replay};
use spl_text::place_of;
use spl_types::Checked;
use std::alloc::Global;

/// The lines of the run of one file's program with another file's choices, which is opened once the program is accepted.
pub fn replay_text<F: Files>(
    alloc: Global,
    file: &str,
    choices: &str,
    files: &mut F,
) -> Result<Output, Cause>
    ensures output { IfOk result (λ output. IsReplayed (F.files files.old) file.now choices.now output.text.items output.status) }
    ensures stopped { IfErr result (λ cause. StopsProgram (record {
      files = F.files files.old;
      open_before = F.open_faults files.old;
      open_now = F.open_faults files.new;
      read_before = F.read_faults files.old;
      read_now = F.read_faults files.new;
    }) file.now cause ⊎ StopsRun (record {
      files = F.files files.old;
      open_before = F.open_faults files.old;
      open_now = F.open_faults files.new;
      read_before = F.read_faults files.old;
      read_now = F.read_faults files.new;
    }) file.now choices.now cause) }
    ensures same_files { F.files files.new ≡ F.files files.old }
{
    let bytes = file_bytes(alloc, files, file)?;
    let tokens = tokens_of(alloc, &bytes)?;
    let tree = tree_of(alloc, &bytes, &tokens)?;
    let checked = checked_of(alloc, &bytes, &tree)?;
    let text = file_bytes(alloc, files, choices)?;
    run_of(alloc, &checked, &text)
}

/// The lines of the run of an accepted program with the choices that a text spells.
fn run_of(alloc: Global, checked: &Checked, text: &[u8]) -> Result<Output, Cause>
    requires short { length text.now ≤ 2 ^ 20 }
    ensures output { IfOk result (λ output. IsRunText (program_of checked.now) text.now output.text.items output.status) }
    ensures stopped { IfErr result (λ cause. Spoils (program_of checked.now) text.now cause) }
{
    let choices = choices_of(alloc, text)?;
    let built = core_of(alloc, checked)?;
    let run = match replay(alloc, &built.core, &choices) {
        Ok(run) => run,
        Err(ReplayFault::NotARun(step)) => return Err(Cause::NotARun(step)),
        Err(ReplayFault::Wide(step)) => return Err(Cause::Wide(step)),
        Err(ReplayFault::NoMemory) => return Err(Cause::NoMemory),
    };
    let status = if is_fail(&built.fails, last_point(&run)) {
        Status::Open
    } else {
        Status::Proved
    };
    let text = run_text(alloc, &run)?;
    Ok(Output { text, status })
}

/// The choices that a text spells.
fn choices_of(alloc: Global, text: &[u8]) -> Result<Choices, Cause>
    requires short { length text.now ≤ 2 ^ 20 }
    ensures spelled { IfOk result (λ choices. IsChoices text.now (given_of choices)) }
    ensures few { IfOk result (λ choices. length choices.steps.items < 2 ^ 32 - 1) }
    ensures stopped { (p : Program) → IfErr result (λ cause. Spoils p text.now cause) }
{
    match read_choices(alloc, text) {
        Ok(choices) => Ok(choices),
        Err(ChoiceFault::BadChoices(offset)) => Err(Cause::BadChoices(place_of(
            text,
            offset.min(text.len()),
        ))),
        Err(ChoiceFault::NoMemory) => Err(Cause::NoMemory),
    }
}

/// The point of the last top frame of a run.
fn last_point(run: &Run) -> u32
    requires { 0 < length run.now }
    ensures { result ≡ last_point run.now }
{
    run.at(run.len() - 1).point
}

/// Whether a point is that of a `fail`.
fn is_fail(fails: &[Fail], point: u32) -> bool
    ensures { result ≡ list_any (λ fail. fail.point == point) fails.now }
{
    for fail in fails {
        if fail.point == point {
            return true;
        }
    }
    false
}
