//! Which points read a point.
ghost use Rattle.std.specs.Prelude.{◌≡◌, ◌≢◌, ◌+◌, ◌<◌, ◌||◌, ◌++◌, [], ◌∷◌, ℕ, Bool, nat_eq, List, length, map, if◌then◌else◌, IfOk};
ghost use Rattle.std.specs.List.{All, filter, range_with_len};
ghost use Rattle.spl_core.specs.Parts.{edge_at};
ghost use Rattle.spl_core.specs.Graph.{graph_of, move_of};
ghost use Rattle.equations.specs.Sources.{SourceFits, exit_of, is_read_by, is_reader, readers, sources};

use crate::rows::empty_rows;
use crate::source::Source;
use memory::NoMemory;
use spl_core::{Action, Core};
use std::alloc::Global;

// The points that read each point, by the sources of all points. It looks at each source once.
pub(crate) fn reader_lists(
    alloc: Global,
    core: &Core,
    lists: &[Vec<Source>],
) -> Result<Vec<Vec<u32>>, NoMemory>
    requires { map (λ v. v.items) lists.now ≡ map (sources (graph_of core.now)) (range_with_len 0 (length core.now.owners)) }
    ensures { IfOk result (λ r. map (λ v. v.items) r.items ≡ map (readers (graph_of core.now)) (range_with_len 0 (length core.now.owners))) }
{
    let mut rows = empty_rows(alloc, core.points())?;
    for q in 0..core.points() {
        add_reader(core, &lists[q as usize], q, &mut rows)?;
    }
    Ok(rows)
}

// Point q joins the rows of the points that its sources read, where the points before it have joined theirs.
fn add_reader(core: &Core, found: &[Source], q: u32, rows: &mut [Vec<u32>]) -> Result<(), NoMemory>
    requires sources { found.now ≡ sources (graph_of core.now) q }
    requires before { map (λ v. v.items) rows.old ≡ map (λ p. filter (is_reader (graph_of core.now) p) (range_with_len 0 q)) (range_with_len 0 (length core.now.owners)) }
    ensures { IfOk result (λ _. map (λ v. v.items) rows.new ≡ map (λ p. filter (is_reader (graph_of core.now) p) (range_with_len 0 (q + 1))) (range_with_len 0 (length core.now.owners))) }
{
    for source in found {
        add_reader_by(core, *source, q, rows)?;
    }
    Ok(())
}

// Point q joins the rows of the points that one of its sources reads. A row holds points before q, and q itself where a
// test of the row's point says so, by the sources that came earlier.
fn add_reader_by(core: &Core, source: Source, q: u32, rows: &mut [Vec<u32>]) -> Result<(), NoMemory>
    requires fits { SourceFits core.now q source }
    requires rows { length rows.old ≡ length core.now.owners }
    ensures { (base : ℕ → List ℕ) (test : ℕ → Bool) → ((p : ℕ) → All (λ k. k < q) (base p)) → map (λ v. v.items) rows.old ≡ map (λ p. base p ++ (if test p then q ∷ [] else [])) (range_with_len 0 (length core.now.owners))
        → IfOk result (λ _. map (λ v. v.items) rows.new ≡ map (λ p. base p ++ (if test p || is_read_by (graph_of core.now) p source then q ∷ [] else [])) (range_with_len 0 (length core.now.owners))) }
{
    match source {
        Source::Always => {}
        Source::Flow { edge } => add_to_row(rows, core.edge_at(edge).source, q)?,
        Source::Enter { edge } => add_to_row(rows, core.edge_at(edge).source, q)?,
        Source::Back { edge } => {
            add_to_row(rows, core.edge_at(edge).source, q)?;
            add_to_row(rows, exit_behind(core, edge), q)?;
        }
    }
    Ok(())
}

// Point q joins the row of point p, unless it's there; the rows are as `add_reader_by` has them.
fn add_to_row(rows: &mut [Vec<u32>], p: u32, q: u32) -> Result<(), NoMemory>
    requires { p < length rows.old }
    ensures { (base : ℕ → List ℕ) (test : ℕ → Bool) (n : ℕ) → ((i : ℕ) → All (λ k. k < q) (base i)) → map (λ v. v.items) rows.old ≡ map (λ i. base i ++ (if test i then q ∷ [] else [])) (range_with_len 0 n)
        → IfOk result (λ _. map (λ v. v.items) rows.new ≡ map (λ i. base i ++ (if test i || nat_eq i p then q ∷ [] else [])) (range_with_len 0 n)) }
{
    add_once(&mut rows[p as usize], q)?;
    Ok(())
}

// A number joins a row unless it's the last one there.
fn add_once(row: &mut Vec<u32>, q: u32) -> Result<(), NoMemory>
    ensures there { (xs : List ℕ) → row.old.items ≡ xs ++ q ∷ [] → IfOk result (λ _. row.new.items ≡ row.old.items) }
    ensures fresh { All (λ k. k ≢ q) row.old.items → IfOk result (λ _. row.new.items ≡ row.old.items ++ q ∷ []) }
{
    if row.last().copied() != Some(q) {
        row.push(q)?;
    }
    Ok(())
}

// The exit of the procedure that an edge calls; its own source where it calls none.
fn exit_behind(core: &Core, e: u32) -> u32
    requires { e < length core.now.edges }
    ensures { result ≡ exit_of (graph_of core.now) (move_of core.now (edge_at core.now e).action) (edge_at core.now e).source }
{
    let edge = core.edge_at(e);
    match edge.action {
        Action::Call { callee, .. } => core.proc_at(callee).exit,
        _ => edge.source,
    }
}
