//! Cores of texts that were worked out by hand.

ghost use Rattle.std.specs.Prelude.{◌≡◌, ◌+◌, ◌<◌, ◌≤◌, length};
ghost use Rattle.spl_tree.specs.Meaning.{program_of};
ghost use Rattle.spl_core.specs.Facts.{CondFits, EdgeFits, ExprFits};
ghost use Rattle.spl_core.specs.Graph.{graph_of};
ghost use Rattle.control_points.specs.CoreOf.{core_of as core_from};

use crate::texts::{core_in, edge_of, long_text, tree_in};
use control_points::{Built, core_of, law_places, offset_of};
use spl_core::{Action, Core, CoreCond, CoreExpr, Edge, Span};
use spl_types::{Checked, check};
use std::alloc::{AllocError, Global};
use std::fmt::Write;
use std::process::Abort;
use std::test::Fail;

/// A text; its procedures (inputs, outputs, dimensions, entry, exit), the owner of each point and the edges; the point and
/// the offset of each `fail`; the offset of each point.
struct Row {
    text: &'static str,
    core: &'static str,
    fails: &'static str,
    places: &'static str,
}

/// Texts and their cores. A dimension is `v` and its number; `if` and `unless` are tests; a call has its arguments, then its
/// targets.
const ROWS: [Row; 13] = [
    Row {
        text: "begin end",
        core: "0 0 0 0 1; | 0 0 | 0>1 start() ",
        fails: "",
        places: "0 5 ",
    },
    Row {
        text: "proc f() returns () begin end begin if true then skip; endif end",
        core: "0 0 0 0 1; 0 0 0 2 6; | 0 0 1 1 1 1 1 | 0>1 start() 2>3 start() 3>4 if true 3>6 unless true 5>6 skip 4>5 skip ",
        fails: "",
        places: "20 25 30 35 48 54 60 ",
    },
    Row {
        text: "begin if true then else endif; while false do done halt; end",
        core: "0 0 0 0 7; | 0 0 0 0 0 0 0 0 | 0>1 start() 1>2 if true 1>3 unless true 2>4 skip 3>4 skip 4>5 if false 4>6 unless false 5>4 skip ",
        fails: "",
        places: "0 5 18 23 30 45 50 56 ",
    },
    Row {
        text: "begin assume not random ; /* ; */ skip /* */;end",
        core: "0 0 0 0 3; | 0 0 0 0 | 0>1 start() 1>2 if not random 2>3 skip ",
        fails: "",
        places: "0 5 25 45 ",
    },
    Row {
        text: "var x:int, y:int; begin assume x == -y and x != 2 or not x >= y; end",
        core: "0 0 2 0 2; | 0 0 0 | 0>1 start() 1>2 if (((v0 Eq -v1) and (v0 Ne 2)) or not (v0 Ge v1)) ",
        fails: "",
        places: "18 23 64 ",
    },
    Row {
        text: "var x:int; begin x = x * x; end",
        core: "0 0 1 0 2; | 0 0 0 | 0>1 start() 1>2 v0=(v0*v0) ",
        fails: "",
        places: "11 16 27 ",
    },
    Row {
        text: "var x:int, y:int; begin x = x / 2 % -y; end",
        core: "0 0 2 0 2; | 0 0 0 | 0>1 start() 1>2 v0=((v0/2)%-v1) ",
        fails: "",
        places: "18 23 39 ",
    },
    Row {
        text: "var x:int; begin while x < 1 do if x < 1 then fail; else x = random; endif; done; end",
        core: "0 0 1 0 8; | 0 0 0 0 0 0 0 0 0 | 0>1 start() 1>2 if (v0 Lt 1) 1>8 unless (v0 Lt 1) 7>1 skip 2>3 if (v0 Lt 1) 2>5 unless (v0 Lt 1) 4>7 skip 6>7 skip 5>6 v0=? ",
        fails: "3@46 ",
        places: "11 16 31 45 51 56 68 75 81 ",
    },
    Row {
        text: "var i:int;\nbegin\ni = 0;\nwhile i < 10 do\ni = i + 1;\ndone;\nend\n",
        core: "0 0 1 0 5; | 0 0 0 0 0 0 | 0>1 start() 1>2 v0=0 2>3 if (v0 Lt 10) 2>5 unless (v0 Lt 10) 4>2 skip 3>4 v0=(v0+1) ",
        fails: "",
        places: "11 16 23 39 50 56 ",
    },
    Row {
        text: "proc MC(n:int) returns (r:int)\nvar t1:int, t2:int;\nbegin\n  if (n>100) then\n    r = n-10;\n  else\n    t1 = n+11;\n    t2 = MC(t1);\n    r = MC(t2);\n  endif;\nend\nvar a:int, b:int;\nbegin\n  b = MC(a);\nend\n",
        core: "1 1 4 0 8; 0 0 2 9 11; | 0 0 0 0 0 0 0 0 0 1 1 1 | 0>1 start() 1>2 if (v0 Gt 100) 1>4 unless (v0 Gt 100) 3>8 skip 7>8 skip 2>3 v1=(v0-10) 4>5 v2=(v0+11) 5>6 call0(2)(3) 6>7 call0(3)(1) 9>10 start() 10>11 call0(0)(1) ",
        fails: "",
        places: "51 56 74 88 95 110 127 143 152 175 180 193 ",
    },
    Row {
        text: "var x:int;\nbegin\nif x > 0 then\nassume false;\nfail;\nendif;\nfail;\nend\n",
        core: "0 0 1 0 6; | 0 0 0 0 0 0 0 | 0>1 start() 1>2 if (v0 Gt 0) 1>5 unless (v0 Gt 0) 4>5 skip 2>3 if false ",
        fails: "3@45 5@58 ",
        places: "11 16 30 44 50 57 63 ",
    },
    Row {
        text: "proc p(n:int) returns (r:int)\nbegin\nif random then\nr = 0;\nelse\nr = q(n);\nr = r + 1;\nendif;\nend\nproc q(n:int) returns (r:int)\nbegin\nr = p(n);\nr = r + 1;\nend\nvar x:int;\nbegin\nx = p(x);\nend\n",
        core: "1 1 2 0 7; 1 1 2 8 11; 0 0 1 12 14; | 0 0 0 0 0 0 0 0 1 1 1 1 2 2 2 | 0>1 start() 1>2 if random 1>4 unless random 3>7 skip 6>7 skip 2>3 v1=0 4>5 call1(0)(1) 5>6 v1=(v1+1) 8>9 start() 9>10 call0(0)(1) 10>11 v1=(v1+1) 12>13 start() 13>14 call0(0)(0) ",
        fails: "",
        places: "30 35 50 57 62 72 83 90 125 130 140 151 167 172 182 ",
    },
    Row {
        text: "proc inc(n:int) returns (r:int)\nbegin\nn = n + 1;\nr = n;\nend\nvar a:int, b:int;\nbegin\nb = inc(a);\nend\n",
        core: "1 1 3 0 3; 0 0 2 4 6; | 0 0 0 0 1 1 1 | 0>1 start(2 0) 1>2 v2=(v2+1) 2>3 v1=v2 4>5 start() 5>6 call0(0)(1) ",
        fails: "",
        places: "32 37 48 55 78 83 95 ",
    },
];

/// An expression of a core.
fn expr_of(core: &Core, e: u32) -> CoreExpr
    requires { e < length core.now.exprs }
    ensures { ExprFits e result }
{
    core.expr_at(e)
}

/// An expression as a text.
fn expr_text(alloc: Global, core: &Core, e: u32) -> Result<String, AllocError>
    requires { e < length core.now.exprs }
{
    match expr_of(core, e) {
        CoreExpr::Number(n) => format!(in alloc; "{n}"),
        CoreExpr::Variable(v) => format!(in alloc; "v{v}"),
        CoreExpr::Neg(a) => {
            let a = expr_text(alloc, core, a)?;
            format!(in alloc; "-{a}")
        }
        CoreExpr::Add(a, b) => {
            let (a, b) = (expr_text(alloc, core, a)?, expr_text(alloc, core, b)?);
            format!(in alloc; "({a}+{b})")
        }
        CoreExpr::Sub(a, b) => {
            let (a, b) = (expr_text(alloc, core, a)?, expr_text(alloc, core, b)?);
            format!(in alloc; "({a}-{b})")
        }
        CoreExpr::Mul(a, b) => {
            let (a, b) = (expr_text(alloc, core, a)?, expr_text(alloc, core, b)?);
            format!(in alloc; "({a}*{b})")
        }
        CoreExpr::Div(a, b) => {
            let (a, b) = (expr_text(alloc, core, a)?, expr_text(alloc, core, b)?);
            format!(in alloc; "({a}/{b})")
        }
        CoreExpr::Rem(a, b) => {
            let (a, b) = (expr_text(alloc, core, a)?, expr_text(alloc, core, b)?);
            format!(in alloc; "({a}%{b})")
        }
    }
}

/// A condition of a core.
fn cond_of(core: &Core, c: u32) -> CoreCond
    requires { c < length core.now.conds }
    ensures { CondFits core.now c result }
{
    core.cond_at(c)
}

/// A condition as a text.
fn cond_text(alloc: Global, core: &Core, c: u32) -> Result<String, AllocError>
    requires { c < length core.now.conds }
{
    match cond_of(core, c) {
        CoreCond::True => format!(in alloc; "true"),
        CoreCond::False => format!(in alloc; "false"),
        CoreCond::Random => format!(in alloc; "random"),
        CoreCond::Not(a) => {
            let a = cond_text(alloc, core, a)?;
            format!(in alloc; "not {a}")
        }
        CoreCond::And(a, b) => {
            let (a, b) = (cond_text(alloc, core, a)?, cond_text(alloc, core, b)?);
            format!(in alloc; "({a} and {b})")
        }
        CoreCond::Or(a, b) => {
            let (a, b) = (cond_text(alloc, core, a)?, cond_text(alloc, core, b)?);
            format!(in alloc; "({a} or {b})")
        }
        CoreCond::Compare(cmp, a, b) => {
            let (a, b) = (expr_text(alloc, core, a)?, expr_text(alloc, core, b)?);
            format!(in alloc; "({a} {cmp:?} {b})")
        }
    }
}

/// Appends the dimensions of a span in parentheses.
fn put_span(line: &mut String, core: &Core, span: Span) -> Result<(), Fail>
    requires { span.first + span.count ≤ length core.now.dims }
{
    line.push_str("(")?;
    for k in 0..span.count {
        let gap = if k == 0 { "" } else { " " };
        write!(line, "{gap}{}", core.span_item(span, k))?;
    }
    line.push_str(")")?;
    Ok(())
}

/// Appends what an edge does.
fn put_action(line: &mut String, alloc: Global, core: &Core, edge: Edge) -> Result<(), Fail>
    requires { EdgeFits core.now edge }
{
    match edge.action {
        Action::Skip => line.push_str("skip")?,
        Action::Assign { target, expr } => {
            let expr = expr_text(alloc, core, expr)?;
            write!(line, "v{target}={expr}")?;
        }
        Action::Havoc { target } => write!(line, "v{target}=?")?,
        Action::Test { cond, wanted } => {
            let word = if wanted { "if" } else { "unless" };
            let cond = cond_text(alloc, core, cond)?;
            write!(line, "{word} {cond}")?;
        }
        Action::Call {
            callee,
            args,
            targets,
        } => {
            write!(line, "call{callee}")?;
            put_span(line, core, args)?;
            put_span(line, core, targets)?;
        }
        Action::Start { pairs } => {
            line.push_str("start")?;
            put_span(line, core, pairs)?;
        }
    }
    Ok(())
}

/// Appends the edges of a core.
fn put_edges(line: &mut String, alloc: Global, core: &Core) -> Result<(), Fail> {
    for k in 0..core.edge_count() {
        let edge = edge_of(core, k);
        write!(line, "{}>{} ", edge.source, edge.target)?;
        put_action(line, alloc, core, edge)?;
        line.push_str(" ")?;
    }
    Ok(())
}

/// The procedures, owners and edges of a core.
fn core_text(alloc: Global, core: &Core) -> Result<String, Fail> {
    let mut line = String::new(alloc);
    for p in 0..core.procs() {
        let q = core.proc_at(p);
        write!(line, "{} {} {} ", q.inputs, q.outputs, q.dims)?;
        write!(line, "{} {}; ", q.entry, q.exit)?;
    }
    line.push_str("| ")?;
    for point in 0..core.points() {
        write!(line, "{} ", core.owner(point))?;
    }
    line.push_str("| ")?;
    put_edges(&mut line, alloc, core)?;
    Ok(line)
}

/// The point and the offset of each `fail`.
fn fails_text(alloc: Global, built: &Built) -> Result<String, Fail> {
    let mut line = String::new(alloc);
    for fail in &built.fails {
        write!(line, "{}@{} ", fail.point, fail.offset)?;
    }
    Ok(line)
}

/// The offset of each point.
fn places(alloc: Global, checked: &Checked, built: &Built) -> Result<String, Fail>
    requires { graph_of built.now.core ≡ core_from (program_of checked.now) }
{
    law_places();
    let mut line = String::new(alloc);
    for point in 0..built.core.points() {
        let offset = offset_of(checked, point);
        write!(line, "{offset} ")?;
    }
    Ok(line)
}

/// Ends the test where the core of a text, its `fail`s or the offsets of its points are others.
fn expect_row(
    rt: &impl Abort,
    alloc: Global,
    row: &Row,
    checked: &Checked,
    built: &Built,
) -> Result<(), Fail>
    requires { graph_of built.now.core ≡ core_from (program_of checked.now) }
{
    let given = core_text(alloc, &built.core)?;
    assert_eq!(rt; given.as_str(), row.core);
    let given = fails_text(alloc, built)?;
    assert_eq!(rt; given.as_str(), row.fails);
    let given = places(alloc, checked, built)?;
    assert_eq!(rt; given.as_str(), row.places);
    Ok(())
}

#[test]
fn programs_have_cores(rt: HostRuntime) -> Result<(), Fail> {
    for row in &ROWS {
        let tree = tree_in(rt.alloc(), row.text.as_bytes())?;
        let checked = check(rt.alloc(), &tree)?;
        let built = core_of(rt.alloc(), &checked)?;
        expect_row(&rt, rt.alloc(), row, &checked, &built)?;
    }
    Ok(())
}

/// The core of a text with as many points as a program may have, which skips all the time.
fn points_core(alloc: Global) -> Result<String, Fail> {
    let mut core = String::from_str(alloc, "0 0 0 0 4095; | 0 0 ")?;
    for _ in 0..4094 {
        core.push_str("0 ")?;
    }
    core.push_str("| 0>1 start() ")?;
    for k in 1..4095 {
        write!(core, "{k}>{} skip ", k + 1)?;
    }
    Ok(core)
}

/// A text with as many procedures as a program may have, of which main calls the last one.
fn procs_text(alloc: Global) -> Result<String, Fail> {
    let mut text = String::new(alloc);
    for p in 0..256 {
        write!(text, "proc p{p}() returns () begin end ")?;
    }
    text.push_str("begin () = p255(); end")?;
    Ok(text)
}

/// The core of that text.
fn procs_core(alloc: Global) -> Result<String, Fail> {
    let mut core = String::new(alloc);
    for p in 0..256_u32 {
        write!(core, "0 0 0 {} {}; ", 2 * p, 2 * p + 1)?;
    }
    core.push_str("0 0 0 512 514; | ")?;
    for p in 0..256_u32 {
        write!(core, "{p} {p} ")?;
    }
    core.push_str("256 256 256 | ")?;
    for p in 0..256_u32 {
        write!(core, "{}>{} start() ", 2 * p, 2 * p + 1)?;
    }
    core.push_str("512>513 start() 513>514 call255()() ")?;
    Ok(core)
}

/// A text with a procedure of as many dimensions as one may have, 60 of them copies of its inputs.
fn dims_text(alloc: Global) -> Result<String, Fail> {
    let mut text = String::from_str(alloc, "proc f(a0:int")?;
    for k in 1..60 {
        write!(text, ", a{k}:int")?;
    }
    text.push_str(") returns (r:int, s:int) var t:int, u:int, v:int, w:int, x:int, y:int; begin ")?;
    for k in 0..60 {
        write!(text, "a{k} = {k}; ")?;
    }
    text.push_str("end begin end")?;
    Ok(text)
}

/// The core of that text.
fn dims_core(alloc: Global) -> Result<String, Fail> {
    let mut core = String::from_str(alloc, "60 2 128 0 61; 0 0 0 62 63; | 0 0 ")?;
    for _ in 0..60 {
        core.push_str("0 ")?;
    }
    core.push_str("1 1 | 0>1 start(68 0")?;
    for k in 1..60 {
        write!(core, " {} {k}", k + 68)?;
    }
    core.push_str(") ")?;
    for k in 0..60 {
        write!(core, "{}>{} v{}={k} ", k + 1, k + 2, k + 68)?;
    }
    core.push_str("62>63 start() ")?;
    Ok(core)
}

/// Ends the test where the core of a text is another one.
fn expect_core(rt: &impl Abort, alloc: Global, text: &[u8], want: &str) -> Result<(), Fail> {
    let core = core_in(alloc, text)?;
    let given = core_text(alloc, &core)?;
    assert_eq!(rt; given.as_str(), want);
    Ok(())
}

#[test]
fn many_points(rt: HostRuntime) -> Result<(), Fail> {
    let text = long_text(rt.alloc(), ("begin", " skip;"), 4094, " end", ("", ""))?;
    let core = points_core(rt.alloc())?;
    expect_core(&rt, rt.alloc(), &text, core.as_str())?;
    Ok(())
}

#[test]
fn many_procedures(rt: HostRuntime) -> Result<(), Fail> {
    let (text, core) = (procs_text(rt.alloc())?, procs_core(rt.alloc())?);
    expect_core(&rt, rt.alloc(), text.as_bytes(), core.as_str())?;
    Ok(())
}

#[test]
fn many_dimensions(rt: HostRuntime) -> Result<(), Fail> {
    let (text, core) = (dims_text(rt.alloc())?, dims_core(rt.alloc())?);
    expect_core(&rt, rt.alloc(), text.as_bytes(), core.as_str())?;
    Ok(())
}
