//! The report on a solution: its values as they are read, each once.
ghost use Rattle.std.specs.Prelude.{◌≡◌, ℕ, ◌≤◌, ◌^◌, length, map, IfOk};
ghost use Rattle.std.specs.List.{range_with_len};
ghost use Rattle.spl_tree.specs.Meaning.{program_of};
ghost use Rattle.control_points.specs.CoreOf.{core_of};
ghost use Rattle.read_back.specs.ReadsBack.{ReadsAs};
ghost use Rattle.iteration.specs.Solved.{read_of, rounds_of};
ghost use Rattle.iteration.specs.Solution.{read_in, IsSolution};
ghost use Rattle.report.specs.Report.{report, all_unreachable};
ghost use Rattle.report.specs.ReadsBack.{IsSourceOf};
ghost use Rattle.report.specs.Solved.{IsSolvedFor};
ghost use Rattle.report.specs.Values.{IsBuiltOf};

use crate::report::{are_unreachable, report_by_values};
use control_points::Built;
use domain::Domain;
use iteration::{Solution, law_sizes};
use memory::NoMemory;
use spl_types::Checked;
use std::alloc::Global;

/// The report on a program that was read from these bytes: its canonical text with what holds at each point, with or
/// without implied constraints, the line of each `fail`, and the number of rounds. A cut point is closed before it is printed.
pub fn report_text<D: Domain>(
    alloc: Global,
    bytes: &[u8],
    checked: &Checked,
    built: &Built,
    dom: &mut D,
    solution: &Solution<D>,
    full: bool,
) -> Result<Vec<u8>, NoMemory>
    requires short { length bytes.now ≤ 2 ^ 20 }
    requires source { IsSourceOf bytes.now (program_of checked.now) }
    requires built { IsBuiltOf (program_of checked.now) built.now.core built.now.fails.items }
    requires solved { IsSolvedFor (core_of (program_of checked.now)) solution.now }
    ensures text { (delay descend : ℕ) → IsSolution (core_of (program_of checked.now)) delay descend solution.now
        → IfOk result (λ text. text.items ≡ report bytes.now full (read_of (core_of (program_of checked.now)) delay descend) (rounds_of (core_of (program_of checked.now)) delay) (program_of checked.now)) }
    ensures reads_back { IfOk result (λ text. ReadsAs text.items (program_of checked.now)) }
    ensures work { D.work dom.old ≤ D.work dom.new }
{
    law_sizes();
    let values = read_values(alloc, dom, solution, built.core.points())?;
    let text = report_by_values(
        alloc,
        bytes,
        checked,
        built,
        dom,
        &values,
        solution.rounds(),
        full,
    )?;
    Ok(text)
}

/// Whether each `fail` of a program is unreachable.
pub fn all_unreachable<D: Domain>(
    alloc: Global,
    checked: &Checked,
    built: &Built,
    dom: &mut D,
    solution: &Solution<D>,
) -> Result<bool, NoMemory>
    requires built { IsBuiltOf (program_of checked.now) built.now.core built.now.fails.items }
    requires solved { IsSolvedFor (core_of (program_of checked.now)) solution.now }
    ensures all { (delay descend : ℕ) → IsSolution (core_of (program_of checked.now)) delay descend solution.now
        → IfOk result (λ b. b ≡ all_unreachable (read_of (core_of (program_of checked.now)) delay descend) (program_of checked.now)) }
    ensures work { D.work dom.old ≤ D.work dom.new }
{
    let values = read_values(alloc, dom, solution, built.core.points())?;
    Ok(are_unreachable(dom, &built.fails, &values))
}

/// The value that is read at each of the first points.
fn read_values<D: Domain>(
    alloc: Global,
    dom: &mut D,
    solution: &Solution<D>,
    points: u32,
) -> Result<Vec<D::V>, NoMemory>
    requires { points ≤ length solution.now.values }
    ensures values { IfOk result (λ values. map D.meaning values.items ≡ map (read_in solution.now) (range_with_len 0 points)) }
    ensures work { D.work dom.old ≤ D.work dom.new }
{
    let mut values = Vec::new(alloc);
    for point in 0..points {
        let value = solution.read(alloc, dom, point)?;
        values.push(value)?;
    }
    Ok(values)
}
