//! The equations of a system.
ghost use Rattle.std.specs.Prelude.{◌≡◌, ◌<◌, ◌≤◌, false, map, IfOk};
ghost use Rattle.rounds.specs.System.{System, IsSystem, AreReaders, StaysBottom, AreRead, value_at};

use domain::Domain;
use memory::NoMemory;
use std::alloc::Global;

/// A system of equations, as the solver asks for it: the points in order, and F at a point by the values that are read.
pub trait Equations<D: Domain> {
    /// The system that the calls stand for.
    ghost system: { Self → System };

    /// The number of points. Law: what the calls stand for is a system that the rounds solve.
    fn points(&self) -> u32
        ensures points { result ≡ (system self.now).points }
        ensures known { IsSystem (system self.now) };

    /// The number of variables of a point.
    fn dims(&self, p: u32) -> u32
        requires point { p < (system self.now).points }
        ensures dims { result ≡ (system self.now).dims p };

    /// Whether a point is a cut point.
    fn is_cut(&self, p: u32) -> bool
        requires point { p < (system self.now).points }
        ensures cut { result ≡ (system self.now).cut p };

    /// The points in the order of a round.
    fn order(&self) -> &[u32]
        ensures order { result.now ≡ (system self.now).order };

    /// Points among which is each that reads a point. Others may be among them: that costs computations, and changes no value.
    fn readers(&self, p: u32) -> &[u32]
        requires point { p < (system self.now).points }
        ensures readers { AreReaders (system self.now) p result.now };

    /// Whether a point may get another value than Bottom where Bottom is read everywhere. Where it may not, the first round
    /// passes over it until a point that it reads changed.
    fn begins(&self, p: u32) -> bool
        requires point { p < (system self.now).points }
        ensures stays { result ≡ false → StaysBottom (system self.now) p }
    {
        true
    }

    /// F at a point, by the values as they are read, one for each point.
    fn equation(
        &self,
        alloc: Global,
        dom: &mut D,
        values: &[D::V],
        p: u32,
    ) -> Result<D::V, NoMemory>
        requires point { p < (system self.now).points }
        requires read { AreRead (system self.now) (map D.meaning values.now) }
        ensures value { IfOk result (λ v. D.meaning v ≡ (system self.now).equation (value_at (map D.meaning values.now)) p) }
        ensures work { D.work dom.old ≤ D.work dom.new };

    /// The widening of the first value by the second, over as many variables.
    fn widen(&self, alloc: Global, dom: &mut D, a: &D::V, b: &D::V) -> Result<D::V, NoMemory>
        requires dims { (D.meaning a.now).dims ≡ (D.meaning b.now).dims }
        ensures value { IfOk result (λ v. D.meaning v ≡ (system self.now).widening (D.meaning a.now) (D.meaning b.now)) }
        ensures work { D.work dom.old ≤ D.work dom.new };
}
