//! One visit of a point.
ghost use Rattle.std.specs.Prelude.{◌≡◌, ◌-◌, ◌<◌, ◌≤◌, not, if◌then◌else◌, length, map, IfOk};
ghost use Rattle.rounds.specs.Marks.{IsKept};
ghost use Rattle.rounds.specs.Rounds.{same_value, cell_at, stepped, visit};
ghost use Rattle.rounds.specs.Slots.{cell_of, cells_of};
ghost use Rattle.rounds.specs.Solved.{moving};

use crate::equations::Equations;
use crate::marking::mark;
use crate::slot::Slot;
use crate::storing::store;
use domain::Domain;
use memory::NoMemory;
use std::alloc::Global;

/// The new value of a point, from the stored one and what F gives.
fn new_value<D: Domain, S: Equations<D>>(
    alloc: Global,
    dom: &mut D,
    system: &S,
    down: bool,
    cut: bool,
    slot: &Slot<D::V>,
    source: D::V,
) -> Result<D::V, NoMemory>
    requires dims { (D.meaning slot.now.value).dims ≡ (D.meaning source).dims }
    ensures value { IfOk result (λ v. D.meaning v ≡ (stepped (S.system system.now).widening down cut (cell_of D.meaning slot.now) (D.meaning source)).value) }
    ensures work { D.work dom.old ≤ D.work dom.new }
{
    if !cut {
        Ok(source)
    } else if down {
        let v = dom.narrow(alloc, &slot.value, &source)?;
        Ok(v)
    } else if slot.left == 0 {
        let v = system.widen(alloc, dom, &slot.value, &source)?;
        Ok(v)
    } else {
        let v = dom.join(alloc, &slot.value, &source)?;
        Ok(v)
    }
}

/// The joins that are left after a change.
fn left_after(down: bool, cut: bool, left: u32) -> u32
    ensures { result ≡ (if down then left else (if cut then left - 1 else left)) }
{
    if down {
        left
    } else if cut {
        left.saturating_sub(1)
    } else {
        left
    }
}

/// Visits a point that is marked. The answer is whether its value changed. Its mark goes, and where what is read there
/// changed, the points that read it are marked.
fn visit<D: Domain, S: Equations<D>>(
    alloc: Global,
    dom: &mut D,
    system: &S,
    down: bool,
    slots: &mut Vec<Slot<D::V>>,
    seens: &mut Vec<D::V>,
    marks: &mut Vec<bool>,
    p: u32,
) -> Result<bool, NoMemory>
    requires point { p < (S.system system.now).points }
    requires kept { IsKept (S.system system.now) down (cells_of D.meaning slots.old.items) (map D.meaning seens.old.items) marks.old.items }
    ensures cells { IfOk result (λ c. cells_of D.meaning slots.new.items ≡ visit (moving (S.system system.now) down) p (cells_of D.meaning slots.old.items)) }
    ensures kept { IfOk result (λ c. IsKept (S.system system.now) down (cells_of D.meaning slots.new.items) (map D.meaning seens.new.items) marks.new.items) }
    ensures changed { IfOk result (λ c. c ≡ not (same_value (moving (S.system system.now) down p (cells_of D.meaning slots.old.items)).value (cell_at (cells_of D.meaning slots.old.items) p).value)) }
    ensures work { D.work dom.old ≤ D.work dom.new }
{
    let from = system.equation(alloc, dom, seens, p)?;
    dom.known(&from);
    let cut = system.is_cut(p);
    let value = new_value(alloc, dom, system, down, cut, &slots[p as usize], from)?;
    marks[p as usize] = false;
    let same = dom.same(&value, &slots[p as usize].value);
    if same {
        Ok(false)
    } else {
        let left = left_after(down, cut, slots[p as usize].left);
        let seen_anew = store(alloc, dom, cut, slots, seens, p, value, left)?;
        if seen_anew {
            mark(marks, system.readers(p));
        }
        Ok(true)
    }
}

/// Visits a point where it is marked; where it isn't, a visit would change nothing. The answer is whether its value changed.
pub(crate) fn pass<D: Domain, S: Equations<D>>(
    alloc: Global,
    dom: &mut D,
    system: &S,
    down: bool,
    slots: &mut Vec<Slot<D::V>>,
    seens: &mut Vec<D::V>,
    marks: &mut Vec<bool>,
    p: u32,
) -> Result<bool, NoMemory>
    requires point { p < (S.system system.now).points }
    requires kept { IsKept (S.system system.now) down (cells_of D.meaning slots.old.items) (map D.meaning seens.old.items) marks.old.items }
    ensures cells { IfOk result (λ c. cells_of D.meaning slots.new.items ≡ visit (moving (S.system system.now) down) p (cells_of D.meaning slots.old.items)) }
    ensures kept { IfOk result (λ c. IsKept (S.system system.now) down (cells_of D.meaning slots.new.items) (map D.meaning seens.new.items) marks.new.items) }
    ensures changed { IfOk result (λ c. c ≡ not (same_value (moving (S.system system.now) down p (cells_of D.meaning slots.old.items)).value (cell_at (cells_of D.meaning slots.old.items) p).value)) }
    ensures work { D.work dom.old ≤ D.work dom.new }
{
    if marks[p as usize] {
        let changed = visit(alloc, dom, system, down, slots, seens, marks, p)?;
        Ok(changed)
    } else {
        Ok(false)
    }
}
