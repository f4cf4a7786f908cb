//! The report on a program: what holds at each point and at each `fail`, noted for the printer.
ghost use Rattle.std.specs.Prelude.{◌≡◌, ◌<◌, ◌≤◌, ◌+◌, ◌^◌, ◌++◌, ◌∷◌, [], length, map, IfOk, OnOk};
ghost use Rattle.std.specs.List.{All, range_with_len, list_all};
ghost use Rattle.spl_tree.specs.Meaning.{program_of};
ghost use Rattle.spl_core.specs.Graph.{graph_of};
ghost use Rattle.spl_types.specs.Dimensions.{dimensions};
ghost use Rattle.control_points.specs.CoreOf.{core_of, fails_of};
ghost use Rattle.read_back.specs.ReadsBack.{ReadsAs};
ghost use Rattle.report.specs.Points.{for_line, for_lines};
ghost use Rattle.report.specs.Report.{is_bottom, point_text, fail_text, report, all_unreachable};
ghost use Rattle.report.specs.ReadsBack.{IsSourceOf};
ghost use Rattle.report.specs.Values.{value_in, AreSized, IsBuiltOf};

use crate::fails::{fail_text, rounds_text};
use crate::laws::{law_points, law_reads_back};
use crate::names::AllNames;
use crate::text::constraints_text;
use control_points::{Built, Fail};
use domain::Domain;
use memory::NoMemory;
use spl_core::Core;
use spl_print::{Notes, print};
use spl_types::Checked;
use std::alloc::Global;

/// The report on a program that was read from these bytes, by the value that is read at each point and the number of rounds:
/// its canonical text with what holds at each point, with or without implied constraints, and the line of each `fail`.
pub fn report_by_values<D: Domain>(
    alloc: Global,
    bytes: &[u8],
    checked: &Checked,
    built: &Built,
    dom: &D,
    values: &[D::V],
    rounds: u64,
    full: bool,
) -> Result<Vec<u8>, NoMemory>
    requires short { length bytes.now ≤ 2 ^ 20 }
    requires source { IsSourceOf bytes.now (program_of checked.now) }
    requires built { IsBuiltOf (program_of checked.now) built.now.core built.now.fails.items }
    requires sized { AreSized (core_of (program_of checked.now)) (map D.meaning values.now) }
    ensures text { IfOk result (λ text. text.items ≡ report bytes.now full (value_in (map D.meaning values.now)) rounds (program_of checked.now)) }
    ensures reads_back { IfOk result (λ text. ReadsAs text.items (program_of checked.now)) }
{
    law_points();
    law_reads_back();
    let mut notes = Notes::new(alloc);
    note_points(alloc, &mut notes, checked, &built.core, dom, values, full)?;
    note_fails(alloc, &mut notes, bytes, &built.fails, dom, values)?;
    let last = rounds_text(alloc, rounds)?;
    match notes.closing(&last) {
        Ok(()) => {}
        Err(_) => return Err(NoMemory),
    }
    match print(alloc, bytes, checked, &notes) {
        Ok(text) => Ok(text),
        Err(_) => Err(NoMemory),
    }
}

/// Notes what holds at each point that has a line.
fn note_points<D: Domain>(
    alloc: Global,
    notes: &mut Notes,
    checked: &Checked,
    core: &Core,
    dom: &D,
    values: &[D::V],
    full: bool,
) -> Result<(), NoMemory>
    requires core { graph_of core.now ≡ core_of (program_of checked.now) }
    requires sized { AreSized (core_of (program_of checked.now)) (map D.meaning values.now) }
    ensures points { OnOk result (notes.new.points ≡ notes.old.points ++ for_lines (core_of (program_of checked.now)) (point_text full (value_in (map D.meaning values.now)) (program_of checked.now))) }
    ensures closing { OnOk result (notes.new.closing ≡ notes.old.closing) }
{
    let names = AllNames::of(alloc, checked)?;
    for point in 0..core.points() {
        note_point(
            alloc, notes, checked, core, &names, dom, values, point, full,
        )?;
    }
    Ok(())
}

/// Notes what holds at a point, unless it is an entry.
fn note_point<D: Domain>(
    alloc: Global,
    notes: &mut Notes,
    checked: &Checked,
    core: &Core,
    names: &AllNames,
    dom: &D,
    values: &[D::V],
    point: u32,
    full: bool,
) -> Result<(), NoMemory>
    requires core { graph_of core.now ≡ core_of (program_of checked.now) }
    requires names { names.now ≡ map (dimensions (program_of checked.now)) (range_with_len 0 (length (program_of checked.now).procs + 1)) }
    requires sized { AreSized (core_of (program_of checked.now)) (map D.meaning values.now) }
    requires point { point < length core.now.owners }
    ensures points { OnOk result (notes.new.points ≡ notes.old.points ++ for_line (core_of (program_of checked.now)) (point_text full (value_in (map D.meaning values.now)) (program_of checked.now)) point) }
    ensures closing { OnOk result (notes.new.closing ≡ notes.old.closing) }
{
    law_points();
    let owner = core.owner(point);
    if core.proc_at(owner).entry == point {
        return Ok(());
    }
    let text = constraints_text(
        alloc,
        dom,
        &values[point as usize],
        names.of_procedure(owner),
        full,
    )?;
    match notes.point(&text) {
        Ok(()) => Ok(()),
        Err(_) => Err(NoMemory),
    }
}

/// Notes the line of each `fail`, in the order of the text.
fn note_fails<D: Domain>(
    alloc: Global,
    notes: &mut Notes,
    bytes: &[u8],
    fails: &[Fail],
    dom: &D,
    values: &[D::V],
) -> Result<(), NoMemory>
    requires short { length bytes.now ≤ 2 ^ 20 }
    requires points { All (λ f. f.point < length values.now) fails.now }
    ensures closing { OnOk result (notes.new.closing ≡ notes.old.closing ++ map (fail_text bytes.now (value_in (map D.meaning values.now))) fails.now) }
    ensures points { OnOk result (notes.new.points ≡ notes.old.points) }
{
    for fail in fails {
        let unreachable = dom.is_bottom(&values[fail.point as usize]);
        let text = fail_text(alloc, bytes, fail.offset, unreachable)?;
        match notes.closing(&text) {
            Ok(()) => {}
            Err(_) => return Err(NoMemory),
        }
    }
    Ok(())
}

/// Whether each `fail` of a program is unreachable, by the values that are read at the points.
pub fn are_unreachable<D: Domain>(dom: &D, fails: &[Fail], values: &[D::V]) -> bool
    requires points { All (λ f. f.point < length values.now) fails.now }
    ensures all { result ≡ list_all (λ f. is_bottom (value_in (map D.meaning values.now) f.point)) fails.now }
{
    for fail in fails {
        if !dom.is_bottom(&values[fail.point as usize]) {
            return false;
        }
    }
    true
}
