//! The same programs, analysed in both domains.
ghost use Rattle.std.specs.Prelude.{◌<◌, ◌≤◌, length};
ghost use Rattle.spl_core.specs.Graph.{graph_of};
ghost use Rattle.iteration.specs.Solution.{IsSolution};

use crate::cores::{core_in, generated_core};
use crate::programs::Writer;
use crate::views::{expect_same, view};
use dec_domain::DecDomain;
use domain::Domain;
use full_oct::FullDomain;
use iteration::{Solution, analyse, law_sizes};
use spl_core::Core;
use std::alloc::Global;
use std::process::Abort;
use std::test::Fail;

/// Recursion, calls with repeated arguments, loops, branches and products.
const TEXTS: [&str; 9] = [
    "var i:int; begin i = 0; while i < 10 do i = i + 1; done; end",
    "proc MC(n:int) returns (r:int) var t1:int, t2:int; begin if (n>100) then r = n-10; else t1 = n+11; t2 = MC(t1); r = MC(t2); endif; end var a:int, b:int; begin b = MC(a); end",
    "var x:int, y:int; begin if random then x = 0; y = 0; else x = 1; y = 1; endif; end",
    "var a:int, b:int, c:int, d:int; begin assume a >= 0 and a <= 1; b = a + 1; assume c >= 0 and c <= 1; d = c * b; end",
    "var x:int, y:int, z:int; begin x = 2305843009213693951; y = x + 1; z = y - x; if z > 2305843009213693952 then x = -y; endif; end",
    "proc f(n:int) returns (r:int) begin r = n; end var a:int, b:int; begin a = 1; b = f(a); a = 2; b = f(a); end",
    "proc p(n:int) returns (r:int) begin if random then r = 0; else r = q(n); r = r + 1; endif; end proc q(n:int) returns (r:int) begin r = p(n); r = r + 1; end var x:int; begin x = p(x); end",
    "proc P(a:int, b:int) returns (s:int, d:int) begin s = a + b; d = a - b; end var x:int, y:int; begin assume x >= 0 and x <= 3; (x, y) = P(x, x); end",
    "proc inc(n:int) returns (r:int) begin n = n + 1; r = n; end var a:int, b:int; begin b = inc(a); end",
];

/// The views of a point: of the value that is stored, and of the one that is read.
fn point_views<D: Domain>(
    alloc: Global,
    dom: &mut D,
    core: &Core,
    solution: &Solution<D>,
    delay: u32,
    point: u32,
) -> Result<(String, String), Fail>
    requires point { point < length core.now.owners }
    requires solved { IsSolution (graph_of core.now) delay 2 solution.now }
{
    law_sizes();
    let dims = core.proc_at(core.owner(point)).dims;
    let stored = view(alloc, dom, solution.value(point), dims)?;
    let value = solution.read(alloc, dom, point)?;
    let read = view(alloc, dom, &value, dims)?;
    Ok((stored, read))
}

/// The rounds of a solution, and the views of each point.
fn views_of<D: Domain>(
    alloc: Global,
    dom: &mut D,
    core: &Core,
    solution: &Solution<D>,
    delay: u32,
) -> Result<Vec<String>, Fail>
    requires solved { IsSolution (graph_of core.now) delay 2 solution.now }
{
    let mut views = Vec::new(alloc);
    views.push(format!(in alloc; "{} rounds", solution.rounds())?)?;
    for point in 0..core.points() {
        let (stored, read) = point_views(alloc, dom, core, solution, delay, point)?;
        views.push(stored)?;
        views.push(read)?;
    }
    Ok(views)
}

/// The views of an analysis.
fn solution_views<D: Domain>(
    alloc: Global,
    dom: &mut D,
    core: &Core,
    delay: u32,
) -> Result<Vec<String>, Fail>
    requires { delay ≤ 1000 }
{
    let solution = analyse(alloc, dom, core, delay, 2)?;
    let views = views_of(alloc, dom, core, &solution, delay)?;
    Ok(views)
}

/// Analyses a core in both domains, which have the same views. The result is how many aren't Bottom.
fn analyse_both(
    rt: &impl Abort,
    alloc: Global,
    core: &Core,
    delay: u32,
    name: &str,
) -> Result<u64, Fail>
    requires { delay ≤ 1000 }
{
    let plain = solution_views(alloc, &mut FullDomain::new(), core, delay)?;
    let blocks = solution_views(alloc, &mut DecDomain::new(), core, delay)?;
    Ok(expect_same(rt, &plain, &blocks, name))
}

#[test]
fn seeded_programs_have_one_solution(rt: HostRuntime) -> Result<(), Fail> {
    let alloc = rt.alloc();
    let mut values = 0_u64;
    for seed in 0..24_u64 {
        let text = Writer::new(alloc, seed).program()?;
        let core = core_in(alloc, text.as_bytes())?;
        let met = analyse_both(&rt, alloc, &core, (seed % 3) as u32, text.as_str())?;
        values = values.saturating_add(met);
    }
    assert!(&rt; values > 400, "only {values} values aren't Bottom");
    Ok(())
}

#[test]
fn worked_programs_have_one_solution(rt: HostRuntime) -> Result<(), Fail> {
    let alloc = rt.alloc();
    for text in &TEXTS {
        let core = core_in(alloc, text.as_bytes())?;
        let values = analyse_both(&rt, alloc, &core, 1, text)?;
        assert!(&rt; values > 3, "{text}");
    }
    Ok(())
}

#[test]
fn generated_programs_have_one_solution(rt: HostRuntime) -> Result<(), Fail> {
    let alloc = rt.alloc();
    for groups in 1..4_u32 {
        let core = generated_core(alloc, groups)?;
        let values = analyse_both(&rt, alloc, &core, 1, "a generated program")?;
        assert!(&rt; values > 10, "{groups} groups");
    }
    Ok(())
}
