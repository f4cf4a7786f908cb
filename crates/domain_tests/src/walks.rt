//! Values from a seed, each made by a call of a domain from values before it, with their views in both domains.
ghost use Rattle.std.specs.Prelude.{◌≡◌, ◌-◌, ◌<◌, length, IfOk};
ghost use Rattle.spl_core.specs.Parts.{proc_at};

use crate::calls::{closed, copied, entered, joined, narrowed, returned, widened};
use crate::cores::{core_in, edge_of};
use crate::programs::Writer;
use crate::straight::after;
use crate::views::{expect_same, view};
use dec_domain::DecDomain;
use domain::Domain;
use full_oct::FullDomain;
use oct_def::NoMemory;
use seeded_numbers::Random;
use spl_core::Core;
use std::alloc::Global;
use std::test::Fail;

/// Programs over six variables: one of assignments alone, and one of assumptions.
#[derive(Drop)]
struct Programs {
    assignments: Core,
    assumptions: Core,
}

impl Programs {
    fn from_seed(alloc: Global, seed: u64) -> Result<Programs, Fail> {
        let assignments = Writer::new(alloc, seed).assignments(50)?;
        let assumptions = Writer::new(alloc, seed).assumptions(50)?;
        Ok(Programs {
            assignments: core_in(alloc, assignments.as_bytes())?,
            assumptions: core_in(alloc, assumptions.as_bytes())?,
        })
    }
}

/// The tight closure, the join, the widening or the narrowing, by the number.
fn combined<D: Domain>(
    alloc: Global,
    dom: &mut D,
    call: u32,
    a: &D::V,
    b: &D::V,
) -> Result<D::V, NoMemory>
    requires a { (D.meaning a.now).dims ≡ 6 }
    requires b { (D.meaning b.now).dims ≡ 6 }
    ensures dims { IfOk result (λ r. (D.meaning r).dims ≡ 6) }
{
    match call {
        0 => closed(alloc, dom, a),
        1 => joined(alloc, dom, a, b),
        2 => widened(alloc, dom, a, b),
        _ => narrowed(alloc, dom, a, b),
    }
}

/// The value after a random variable became a copy of another one or any integer, by the number.
fn changed<D: Domain>(
    alloc: Global,
    dom: &mut D,
    random: &mut Random,
    call: u32,
    v: &D::V,
) -> Result<D::V, NoMemory>
    requires dims { (D.meaning v.now).dims ≡ 6 }
    ensures dims { IfOk result (λ r. (D.meaning r).dims ≡ 6) }
{
    let target = random.below(6);
    if call == 4 {
        let origin = random.below(6);
        copied(alloc, dom, v, target, origin)
    } else {
        let havoc = dom.havoc(alloc, v, target)?;
        Ok(havoc)
    }
}

/// The value after a random edge of a program's main.
fn moved<D: Domain>(
    alloc: Global,
    dom: &mut D,
    random: &mut Random,
    core: &Core,
    v: &D::V,
) -> Result<D::V, NoMemory>
    requires dims { (D.meaning v.now).dims ≡ 6 }
    ensures dims { IfOk result (λ r. (D.meaning r).dims ≡ 6) }
{
    let count = core.edge_count();
    if count == 0 {
        let w = dom.share(v)?;
        return Ok(w);
    }
    let edge = edge_of(core, random.below(count));
    let proc = core.proc_at(core.owner(edge.source));
    if proc.dims != 6 {
        let w = dom.share(v)?;
        return Ok(w);
    }
    let w = after(alloc, dom, core, proc, edge.action, v)?;
    Ok(w)
}

/// The arguments of a call: two random variables, which may be the same.
fn arguments(random: &mut Random) -> (u32, u32)
    ensures first { result.0 < 6 }
    ensures second { result.1 < 6 }
{
    let first = random.below(6);
    let second = random.below(6);
    (first, second)
}

/// The value without bounds after four random assumptions.
fn start<D: Domain>(
    alloc: Global,
    dom: &mut D,
    random: &mut Random,
    core: &Core,
) -> Result<D::V, NoMemory>
    ensures dims { IfOk result (λ r. (D.meaning r).dims ≡ 6) }
{
    let mut v = dom.top(alloc, 6)?;
    for _ in 0..4_u32 {
        v = moved(alloc, dom, random, core, &v)?;
    }
    Ok(v)
}

/// The value that one of the ten calls of a domain makes of two values. A value is combined with one that was assigned to.
fn made<D: Domain>(
    alloc: Global,
    dom: &mut D,
    random: &mut Random,
    programs: &Programs,
    call: u32,
    a: &D::V,
    b: &D::V,
) -> Result<D::V, NoMemory>
    requires a { (D.meaning a.now).dims ≡ 6 }
    requires b { (D.meaning b.now).dims ≡ 6 }
    ensures dims { IfOk result (λ r. (D.meaning r).dims ≡ 6) }
{
    match call {
        4 | 5 => changed(alloc, dom, random, call, a),
        6 => moved(alloc, dom, random, &programs.assignments, a),
        7 => moved(alloc, dom, random, &programs.assumptions, a),
        8 => entered(alloc, dom, a, arguments(random), 6),
        9 => returned(alloc, dom, a, b, arguments(random), random.below(5)),
        _ => {
            let next = moved(alloc, dom, random, &programs.assignments, b)?;
            combined(alloc, dom, call, a, &next)
        }
    }
}

/// The place of one of so many values: the later one of two random places.
fn place_below(random: &mut Random, count: u32) -> u32
    requires { 0 < count }
    ensures { result < count }
{
    let first = random.below(count);
    let second = random.below(count);
    if first < second { second } else { first }
}

/// The views of 200 values over six variables. Each of the ten calls of a domain makes twenty of them.
fn walk<D: Domain>(alloc: Global, dom: &mut D, seed: u64) -> Result<Vec<String>, Fail> {
    let programs = Programs::from_seed(alloc, seed)?;
    let mut random = Random::new(seed);
    let mut values = Vec::new(alloc);
    values.push(start(alloc, dom, &mut random, &programs.assumptions)?)?;
    let mut views = Vec::new(alloc);
    for step in 0..200_u32 {
        let a = place_below(&mut random, step + 1) as usize;
        let b = if random.below(2) == 0 {
            a
        } else {
            place_below(&mut random, step + 1) as usize
        };
        let value = made(
            alloc,
            dom,
            &mut random,
            &programs,
            step % 10,
            &values[a],
            &values[b],
        )?;
        views.push(view(alloc, dom, &value, 6)?)?;
        values.push(value)?;
    }
    Ok(views)
}

#[test]
fn each_call_makes_the_same_value(rt: HostRuntime) -> Result<(), Fail> {
    let plain = walk(rt.alloc(), &mut FullDomain::new(), 3)?;
    let blocks = walk(rt.alloc(), &mut DecDomain::new(), 3)?;
    let values = expect_same(&rt, &plain, &blocks, "the walk");
    assert!(&rt; values > 150, "only {values} values aren't Bottom");
    Ok(())
}
