//! A system of equations for the solver, small enough to do its rounds by hand: which of five points are reached. Whoever adds
//! an analysis can begin with a copy of it.
#![tactic(auto)]

ghost use Rattle.std.specs.Prelude.{◌≡◌, ◌≤◌, map, IfOk};
ghost use Rattle.rounds.specs.Outcome.{IsOutcome};
ghost use Rattle.example_system.specs.Ways.{ways};

use domain::Domain;
use memory::NoMemory;
use rounds::{Equations, Outcome, solve};
use std::alloc::Global;

/// The equations of the five points.
#[derive(Clone, Copy, Debug, Drop)]
pub struct Ways;

impl<D: Domain> Equations<D> for Ways {
    ghost use Rattle.example_system.specs.Ways.{ways};

    ghost system = { λ w. ways };

    #[tactic(auto, using(crate::proofs::Known::is_system))]
    fn points(&self) -> u32 {
        5
    }

    fn dims(&self, _p: u32) -> u32 {
        1
    }

    fn is_cut(&self, p: u32) -> bool {
        p == 4
    }

    fn order(&self) -> &[u32] {
        &[0, 1, 2, 3, 4]
    }

    // All of them: nothing is lost, and no point is passed over that might change.
    fn readers(&self, _p: u32) -> &[u32] {
        &[0, 1, 2, 3, 4]
    }

    fn equation(
        &self,
        alloc: Global,
        dom: &mut D,
        values: &[D::V],
        p: u32,
    ) -> Result<D::V, NoMemory> {
        let v = match p {
            0 => dom.top(alloc, 1)?,
            1 => dom.share(&values[4])?,
            _ => dom.join(alloc, &values[0], &values[p as usize - 1])?,
        };
        Ok(v)
    }

    fn widen(&self, alloc: Global, dom: &mut D, a: &D::V, b: &D::V) -> Result<D::V, NoMemory> {
        let v = dom.widen(alloc, a, b)?;
        Ok(v)
    }
}

/// The solution: Bottom exactly where no way leads.
pub fn reached<D: Domain>(alloc: Global, dom: &mut D) -> Result<Outcome<D::V>, NoMemory>
    ensures outcome { IfOk result (λ r. IsOutcome ways 1 0 (map D.meaning r.stored.items) (map D.meaning r.read.items) r.rounds) }
    ensures work { D.work dom.old ≤ D.work dom.new }
{
    let r = solve(alloc, dom, &Ways, 1, 0)?;
    Ok(r)
}

#[cfg(test)]
mod tests {
    use super::reached;
    use domain::Domain;
    use full_oct::FullDomain;
    use std::test::Fail;

    /// The first round reaches 0, 2, 3 and 4, the second 1, behind the end of the cycle; the third changes nothing.
    #[test]
    fn every_point_is_reached_in_two_rounds(rt: HostRuntime) -> Result<(), Fail> {
        let mut dom = FullDomain::new();
        let r = reached(rt.alloc(), &mut dom)?;
        for k in 0..r.read.len() {
            assert!(&rt; !dom.is_bottom(&r.read[k]));
        }
        assert_eq!(&rt; r.read.len(), 5);
        assert_eq!(&rt; r.rounds, 3);
        Ok(())
    }
}
