//! Straight programs through the calls of a domain.
ghost use Rattle.std.specs.Prelude.{◌≡◌, ◌-◌, ◌<◌, length, IfOk};
ghost use Rattle.spl_core.specs.Parts.{proc_at};
ghost use Rattle.spl_core.specs.Facts.{ActionFits};

use crate::cores::{core_in, edge_of, main_dims};
use dec_domain::DecDomain;
use domain::Domain;
use oct_def::NoMemory;
use spl_core::{Action, Core, Proc};
use std::alloc::Global;
use std::test::Fail;

/// A straight program, and the rows that each of its edges relaxes.
struct Line {
    text: &'static str,
    rows: &'static str,
}

/// A block of k variables that is closed relaxes 2k^2 rows for its closure, and as many for its mark where several blocks
/// were merged into it: what the closure of a block with small entries gives is known to be closed.
const LINES: [Line; 4] = [
    Line {
        text: "var x:int, y:int, z:int; begin y = x; z = x; x = random; end",
        rows: "0 8 18 0 ",
    },
    Line {
        text: "var x:int, y:int; begin x = 3; y = x + 4; end",
        rows: "0 2 8 ",
    },
    Line {
        text: "var x:int, y:int; begin x = y; y = y + 1; end",
        rows: "0 8 18 ",
    },
    Line {
        text: "var x:int, y:int; begin assume x >= 0; assume y <= 5; x = random; end",
        rows: "0 2 10 0 ",
    },
];

/// The value of a procedure after an edge's action. A start and a call leave it as it is.
pub(crate) fn after<D: Domain>(
    alloc: Global,
    dom: &mut D,
    core: &Core,
    p: Proc,
    action: Action,
    v: &D::V,
) -> Result<D::V, NoMemory>
    requires fits { ActionFits core.now p action }
    requires dims { (D.meaning v.now).dims ≡ p.dims }
    ensures dims { IfOk result (λ r. (D.meaning r).dims ≡ p.dims) }
{
    match action {
        Action::Assign { target, expr } => {
            let w = dom.assign(alloc, v, core, target, expr)?;
            Ok(w)
        }
        Action::Havoc { target } => {
            let w = dom.havoc(alloc, v, target)?;
            Ok(w)
        }
        Action::Test { cond, wanted } => {
            let w = dom.test(alloc, v, core, cond, wanted)?;
            Ok(w)
        }
        Action::Skip | Action::Call { .. } | Action::Start { .. } => {
            let w = dom.share(v)?;
            Ok(w)
        }
    }
}

/// The value at the end of a straight body, from the one at its start.
pub(crate) fn at_end<D: Domain>(
    alloc: Global,
    dom: &mut D,
    core: &Core,
    p: u32,
    start: D::V,
) -> Result<D::V, NoMemory>
    requires p { p < length core.now.procs }
    requires dims { (D.meaning start).dims ≡ (proc_at core.now p).dims }
    ensures dims { IfOk result (λ r. (D.meaning r).dims ≡ (proc_at core.now p).dims) }
{
    let proc = core.proc_at(p);
    let mut v = start;
    for k in 0..core.edge_count() {
        let edge = edge_of(core, k);
        if core.owner(edge.source) == p {
            v = after(alloc, dom, core, proc, edge.action, &v)?;
        }
    }
    Ok(v)
}

/// The value at the end of main's body, which is straight.
pub(crate) fn at_main_end<D: Domain>(
    alloc: Global,
    dom: &mut D,
    core: &Core,
) -> Result<D::V, NoMemory>
    ensures dims { IfOk result (λ r. (D.meaning r).dims ≡ (proc_at core.now (length core.now.procs - 1)).dims) }
{
    let start = dom.top(alloc, main_dims(core))?;
    let end = at_end(alloc, dom, core, core.procs() - 1, start)?;
    Ok(end)
}

/// The value at the end of a straight program, and how many variables it is over.
pub(crate) fn end_of<D: Domain>(alloc: Global, dom: &mut D, text: &str) -> Result<(D::V, u32), Fail>
    ensures dims { IfOk result (λ r. (D.meaning r.0).dims ≡ r.1) }
{
    let core = core_in(alloc, text.as_bytes())?;
    let end = at_main_end(alloc, dom, &core)?;
    Ok((end, main_dims(&core)))
}

/// The value at the end of a straight program over so many variables.
pub(crate) fn end_over<D: Domain>(
    alloc: Global,
    dom: &mut D,
    text: &str,
    dims: u32,
) -> Result<D::V, Fail>
    ensures dims { IfOk result (λ r. (D.meaning r).dims ≡ dims) }
{
    let core = core_in(alloc, text.as_bytes())?;
    if main_dims(&core) != dims {
        return Err("the program has other variables".into());
    }
    let end = at_main_end(alloc, dom, &core)?;
    Ok(end)
}

/// The rows that each edge of main's body relaxes.
fn line_rows(alloc: Global, core: &Core) -> Result<String, Fail> {
    let mut dom = DecDomain::new();
    let main = core.procs() - 1;
    let proc = core.proc_at(main);
    let mut rows = String::new(alloc);
    let mut v = dom.top(alloc, main_dims(core))?;
    for k in 0..core.edge_count() {
        let edge = edge_of(core, k);
        if core.owner(edge.source) == main {
            let before = dom.rows();
            v = after(alloc, &mut dom, core, proc, edge.action, &v)?;
            let more = dom.rows().saturating_sub(before);
            rows.push_str(format!(in alloc; "{more} ")?.as_str())?;
        }
    }
    Ok(rows)
}

#[test]
fn straight_programs_relax_the_rows_of_what_they_touch(rt: HostRuntime) -> Result<(), Fail> {
    for line in &LINES {
        let core = core_in(rt.alloc(), line.text.as_bytes())?;
        let rows = line_rows(rt.alloc(), &core)?;
        assert_eq!(&rt; rows.as_str(), line.rows, "{}", line.text);
    }
    Ok(())
}
