//! The solver of a system of equations.
ghost use Rattle.std.specs.Prelude.{◌≡◌, ◌≤◌, map, IfOk};
ghost use Rattle.rounds.specs.Slots.{cells_of};
ghost use Rattle.rounds.specs.Solved.{start};
ghost use Rattle.rounds.specs.Outcome.{value_of, IsOutcome};
ghost use Rattle.rounds.specs.System.{most_delay};

use crate::equations::Equations;
use crate::marking::{cut_marks, first_marks};
use crate::outcome::Outcome;
use crate::passes::{self, ascend};
use crate::slot::Slot;
use domain::Domain;
use memory::NoMemory;
use std::alloc::Global;

/// The slots at the start: Bottom at every point, and all joins left.
fn start<D: Domain, S: Equations<D>>(
    alloc: Global,
    dom: &mut D,
    system: &S,
    delay: u32,
) -> Result<Vec<Slot<D::V>>, NoMemory>
    ensures cells { IfOk result (λ r. cells_of D.meaning r.items ≡ start (S.system system.now) delay) }
    ensures work { D.work dom.old ≤ D.work dom.new }
{
    let mut slots = Vec::new(alloc);
    for p in 0..system.points() {
        let value = dom.bottom(system.dims(p));
        slots.push(Slot { value, left: delay })?;
    }
    Ok(slots)
}

// No system's ascent takes more rounds.
const MOST_ROUNDS: u64 = u64::MAX;

/// The stored values of the slots, shared.
fn values_of<D: Domain>(
    alloc: Global,
    dom: &mut D,
    slots: &[Slot<D::V>],
) -> Result<Vec<D::V>, NoMemory>
    ensures values { IfOk result (λ r. map D.meaning r.items ≡ map value_of (cells_of D.meaning slots.now)) }
    ensures work { D.work dom.old ≤ D.work dom.new }
{
    let mut values = Vec::new(alloc);
    for k in 0..slots.len() {
        let value = dom.share(&slots[k].value)?;
        values.push(value)?;
    }
    Ok(values)
}

/// The solution of a system: the ascent from Bottom up to and including the first round that changes nothing, in which a cut
/// point is widened after `delay` changes, and `descend` rounds of narrowing. In a round a point is computed only where a value
/// that it reads changed since it was last computed, or since the start if it never was; the first round computes the points at
/// which the ascent begins too, and the first round of narrowing every cut point. Rounds are counted as if each computed every
/// point.
pub fn solve<D: Domain, S: Equations<D>>(
    alloc: Global,
    dom: &mut D,
    system: &S,
    delay: u32,
    descend: u32,
) -> Result<Outcome<D::V>, NoMemory>
    requires delay { delay ≤ most_delay }
    ensures outcome { IfOk result (λ r. IsOutcome (S.system system.now) delay descend (map D.meaning r.stored.items) (map D.meaning r.read.items) r.rounds) }
    ensures work { D.work dom.old ≤ D.work dom.new }
{
    let _points = system.points();
    let mut slots = start(alloc, dom, system, delay)?;
    let mut seens = values_of(alloc, dom, &slots)?;
    let mut marks = first_marks::<D, S>(alloc, system)?;
    let rounds = ascend(
        alloc,
        dom,
        system,
        &mut slots,
        &mut seens,
        &mut marks,
        MOST_ROUNDS,
    )?;
    let mut marks = cut_marks::<D, S>(alloc, system)?;
    passes::descend(
        alloc, dom, system, &mut slots, &mut seens, &mut marks, descend,
    )?;
    let stored = values_of(alloc, dom, &slots)?;
    Ok(Outcome {
        stored,
        read: seens,
        rounds,
    })
}
