//! Rounds of the ascent, which replace points and interference, and of the descent, which keep the interference.
ghost use Rattle.std.specs.Prelude.{◌≡◌, ◌<◌, not, OnOk, IfOk, length, slice_set};
ghost use Rattle.std.specs.List.{All};
ghost use Rattle.conc_analysis.specs.Equations.{point_at};
ghost use Rattle.conc_analysis.specs.Plan.{graph_in, stage_in};
ghost use Rattle.conc_analysis.specs.Rounds.{same_environment, ascended, descended, visited, visits, changing, round as round_of, is_changed, ascended_in, ascent, lowered};

use crate::environment::{is_same, narrow, widen};
use crate::equation::equation;
use crate::system::System;
use crate::writing::{new_writes, same_writes};
use interval_form::{Interval, RangeTable};
use memory::NoMemory;
use std::alloc::Global;

/// The environment of a point after a visit of the ascent.
fn risen(
    alloc: Global,
    cut: bool,
    old: &Option<RangeTable>,
    source: Option<RangeTable>,
) -> Result<Option<RangeTable>, NoMemory>
    ensures { IfOk result (λ v. v ≡ ascended cut old.now source) }
{
    if !cut {
        return Ok(source);
    }
    let v = widen(alloc, old, &source)?;
    Ok(v)
}

/// The environment of a point after a visit of the descent.
fn fallen(
    alloc: Global,
    cut: bool,
    old: &Option<RangeTable>,
    source: Option<RangeTable>,
) -> Result<Option<RangeTable>, NoMemory>
    ensures { IfOk result (λ v. v ≡ descended cut old.now source) }
{
    if !cut {
        return Ok(source);
    }
    let v = narrow(alloc, old, &source)?;
    Ok(v)
}

/// Visits a point in the ascent. The answer is whether its environment changed.
fn rise_at(
    alloc: Global,
    system: &System,
    points: &mut Vec<Option<RangeTable>>,
    writes: &[Vec<Option<Interval>>],
    p: u32,
) -> Result<bool, NoMemory>
    requires point { p < length system.now.core.owners }
    requires long { length points.old.items ≡ length system.now.core.owners }
    ensures points { IfOk result (λ c. points.new.items ≡ slice_set points.old.items p (visited ascended (graph_in system.now) system.now.sharing p (stage_in points.old.items writes.now))) }
    ensures changed { IfOk result (λ c. c ≡ not (same_environment (visited ascended (graph_in system.now) system.now.sharing p (stage_in points.old.items writes.now)) (point_at points.old.items p))) }
{
    let source = equation(alloc, system, points, writes, p)?;
    let value = risen(alloc, system.is_cut(p), &points[p as usize], source)?;
    let same = is_same(&value, &points[p as usize]);
    points[p as usize] = value;
    Ok(!same)
}

/// Visits a point in the descent.
fn fall_at(
    alloc: Global,
    system: &System,
    points: &mut Vec<Option<RangeTable>>,
    writes: &[Vec<Option<Interval>>],
    p: u32,
) -> Result<(), NoMemory>
    requires point { p < length system.now.core.owners }
    requires long { length points.old.items ≡ length system.now.core.owners }
    ensures { OnOk result (points.new.items ≡ slice_set points.old.items p (visited descended (graph_in system.now) system.now.sharing p (stage_in points.old.items writes.now))) }
{
    let source = equation(alloc, system, points, writes, p)?;
    let value = fallen(alloc, system.is_cut(p), &points[p as usize], source)?;
    points[p as usize] = value;
    Ok(())
}

/// Visits points in order in the ascent. The answer is whether an environment changed.
fn rise(
    alloc: Global,
    system: &System,
    order: &[u32],
    points: &mut Vec<Option<RangeTable>>,
    writes: &[Vec<Option<Interval>>],
) -> Result<bool, NoMemory>
    requires order { All (λ p. p < length system.now.core.owners) order.now }
    requires long { length points.old.items ≡ length system.now.core.owners }
    ensures long { OnOk result (length points.new.items ≡ length system.now.core.owners) }
    ensures points { IfOk result (λ c. stage_in points.new.items writes.now ≡ visits ascended (graph_in system.now) system.now.sharing order.now (stage_in points.old.items writes.now)) }
    ensures changed { IfOk result (λ c. c ≡ changing (graph_in system.now) system.now.sharing order.now (stage_in points.old.items writes.now)) }
{
    let mut changed = false;
    for p in order {
        let here = rise_at(alloc, system, points, writes, *p)?;
        changed |= here;
    }
    Ok(changed)
}

/// Visits points in order in the descent.
fn fall(
    alloc: Global,
    system: &System,
    order: &[u32],
    points: &mut Vec<Option<RangeTable>>,
    writes: &[Vec<Option<Interval>>],
) -> Result<(), NoMemory>
    requires order { All (λ p. p < length system.now.core.owners) order.now }
    requires long { length points.old.items ≡ length system.now.core.owners }
    ensures long { OnOk result (length points.new.items ≡ length system.now.core.owners) }
    ensures points { OnOk result (stage_in points.new.items writes.now ≡ visits descended (graph_in system.now) system.now.sharing order.now (stage_in points.old.items writes.now)) }
{
    for p in order {
        fall_at(alloc, system, points, writes, *p)?;
    }
    Ok(())
}

/// One round of the ascent: the points in order, then the interference, all by that with which the round began. The answer is
/// whether something changed.
fn round(
    alloc: Global,
    system: &System,
    order: &[u32],
    points: &mut Vec<Option<RangeTable>>,
    writes: &mut Vec<Vec<Option<Interval>>>,
) -> Result<bool, NoMemory>
    requires order { All (λ p. p < length system.now.core.owners) order.now }
    requires long { length points.old.items ≡ length system.now.core.owners }
    ensures long { OnOk result (length points.new.items ≡ length system.now.core.owners) }
    ensures stage { IfOk result (λ c. stage_in points.new.items writes.new.items ≡ round_of (graph_in system.now) system.now.sharing order.now (stage_in points.old.items writes.old.items)) }
    ensures changed { IfOk result (λ c. c ≡ is_changed (graph_in system.now) system.now.sharing order.now (stage_in points.old.items writes.old.items)) }
{
    let changed = rise(alloc, system, order, points, writes)?;
    let new = new_writes(alloc, system, points, writes)?;
    let same = same_writes(&new, writes);
    *writes = new;
    Ok(changed | !same)
}

/// Rounds of the ascent until one changes nothing, at most so many. The answer is their number.
pub(crate) fn ascend(
    alloc: Global,
    system: &System,
    order: &[u32],
    points: &mut Vec<Option<RangeTable>>,
    writes: &mut Vec<Vec<Option<Interval>>>,
    most: u64,
) -> Result<u64, NoMemory>
    requires order { All (λ p. p < length system.now.core.owners) order.now }
    requires long { length points.old.items ≡ length system.now.core.owners }
    ensures long { OnOk result (length points.new.items ≡ length system.now.core.owners) }
    ensures stage { IfOk result (λ n. ascended_in (stage_in points.new.items writes.new.items) n ≡ ascent (graph_in system.now) system.now.sharing order.now most 0 (stage_in points.old.items writes.old.items)) }
{
    for done in 0..most {
        let changed = round(alloc, system, order, points, writes)?;
        if !changed {
            return Ok(done + 1);
        }
    }
    Ok(most)
}

/// Two rounds of the descent.
pub(crate) fn lower(
    alloc: Global,
    system: &System,
    order: &[u32],
    points: &mut Vec<Option<RangeTable>>,
    writes: &[Vec<Option<Interval>>],
) -> Result<(), NoMemory>
    requires order { All (λ p. p < length system.now.core.owners) order.now }
    requires long { length points.old.items ≡ length system.now.core.owners }
    ensures long { OnOk result (length points.new.items ≡ length system.now.core.owners) }
    ensures points { OnOk result (stage_in points.new.items writes.now ≡ lowered (graph_in system.now) system.now.sharing order.now (stage_in points.old.items writes.now)) }
{
    fall(alloc, system, order, points, writes)?;
    fall(alloc, system, order, points, writes)?;
    Ok(())
}
