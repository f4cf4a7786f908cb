// The calls of a domain.
ghost use Rattle.std.specs.Prelude.{◌≡◌, ℕ, ◌+◌, ◌*◌, ◌<◌, ◌≤◌, length, IfOk, IfSome, IsSome, is_none};
ghost use Rattle.std.specs.List.{All};
ghost use Rattle.std.specs.Bool.{Decides};
ghost use Rattle.oct_def.specs.Bound.{bound_of};
ghost use Rattle.oct_def.specs.Limits.{most_dims, most_outputs};
ghost use Rattle.oct_def.specs.Table.{at};
ghost use Rattle.oct_def.specs.Octagon.{Octagon, IsOctagon, bottom_value, top_value, tight_value, join_value, widen_value, narrow_value};
ghost use Rattle.spl_core.specs.Expression.{Variable, IsOver};
ghost use Rattle.spl_core.specs.Condition.{IsConditionOver};
ghost use Rattle.spl_core.specs.Facts.{AreDistinct};
ghost use Rattle.spl_core.specs.Graph.{expr_at, exprs_in, cond_at, conds_in};
ghost use Rattle.transfer_def.specs.Assign.{assign_value};
ghost use Rattle.transfer_def.specs.Forget.{forget_value};
ghost use Rattle.transfer_def.specs.Test.{test_value};
ghost use Rattle.transfer_def.specs.Enter.{enter_value};
ghost use Rattle.transfer_def.specs.Back.{back_value};

use oct_def::NoMemory;
use spl_core::Core;
use std::alloc::Global;

/// A domain of octagons. Each value stands for Bottom or a matrix over at most 256 variables, its `meaning`. Every call
/// gives exactly the value that the definitions give, so Bottom exactly where they do. No call changes a value that it is
/// lent. Where memory runs out a call gives `NoMemory`; calls that take no `alloc` take none, but for `share`.
pub trait Domain {
    /// A value, which may share its memory with others.
    type V: Drop;

    /// What a value stands for.
    ghost meaning: { Self.V → Octagon };

    /// How much was done so far, by the domain's own count. No call lowers it.
    ghost work: { Self → ℕ };

    /// Law: what a value stands for is a value of the definitions, over at most 256 variables.
    fn known(&self, v: &Self::V)
        ensures value { IsOctagon (meaning v.now) }
        ensures small { (meaning v.now).dims ≤ most_dims };

    /// The value over so many variables without bounds.
    fn top(&mut self, alloc: Global, dims: u32) -> Result<Self::V, NoMemory>
        requires small { dims ≤ most_dims }
        ensures value { IfOk result (λ r. meaning r ≡ top_value dims) }
        ensures work { work self.old ≤ work self.new };

    /// Bottom over so many variables.
    fn bottom(&mut self, dims: u32) -> Self::V
        requires small { dims ≤ most_dims }
        ensures value { meaning result ≡ bottom_value dims }
        ensures work { work self.old ≤ work self.new };

    /// Another value that stands for the same; it may share the memory of the first.
    fn share(&mut self, v: &Self::V) -> Result<Self::V, NoMemory>
        ensures value { IfOk result (λ r. meaning r ≡ meaning v.now) }
        ensures work { work self.old ≤ work self.new };

    /// Whether two values over as many variables stand for the same.
    fn same(&self, a: &Self::V, b: &Self::V) -> bool
        requires dims { (meaning a.now).dims ≡ (meaning b.now).dims }
        ensures same { Decides result (meaning a.now ≡ meaning b.now) };

    /// Whether a value is Bottom.
    fn is_bottom(&self, v: &Self::V) -> bool
        ensures bottom { result ≡ is_none (meaning v.now).matrix };

    /// The word of the entry (i, j), which bounds `V_j - V_i`: `NONE`, or from `-LIMIT` to `LIMIT`.
    fn entry(&self, v: &Self::V, i: u32, j: u32) -> i64
        requires not_bottom { IsSome (meaning v.now).matrix }
        requires row { i < 2 * (meaning v.now).dims }
        requires column { j < 2 * (meaning v.now).dims }
        ensures bound { IfSome (meaning v.now).matrix (λ m. bound_of result ≡ at m i j) };

    /// The tight closure.
    fn close(&mut self, alloc: Global, v: &Self::V) -> Result<Self::V, NoMemory>
        ensures value { IfOk result (λ r. meaning r ≡ tight_value (meaning v.now)) }
        ensures work { work self.old ≤ work self.new };

    /// The value after the target became an expression of a core.
    fn assign(
        &mut self,
        alloc: Global,
        v: &Self::V,
        core: &Core,
        target: u32,
        expr: u32,
    ) -> Result<Self::V, NoMemory>
        requires target { target < (meaning v.now).dims }
        requires expr { expr < length core.now.exprs }
        requires over { IsOver (meaning v.now).dims (expr_at (exprs_in core.now) expr) }
        ensures value { IfOk result (λ r. meaning r ≡ assign_value target (expr_at (exprs_in core.now) expr) (meaning v.now)) }
        ensures work { work self.old ≤ work self.new };

    /// The value after the target became a copy of the origin.
    fn copy(
        &mut self,
        alloc: Global,
        v: &Self::V,
        target: u32,
        origin: u32,
    ) -> Result<Self::V, NoMemory>
        requires target { target < (meaning v.now).dims }
        requires origin { origin < (meaning v.now).dims }
        ensures value { IfOk result (λ r. meaning r ≡ assign_value target (Variable origin) (meaning v.now)) }
        ensures work { work self.old ≤ work self.new };

    /// The value after the target became any integer.
    fn havoc(&mut self, alloc: Global, v: &Self::V, target: u32) -> Result<Self::V, NoMemory>
        requires target { target < (meaning v.now).dims }
        ensures value { IfOk result (λ r. meaning r ≡ forget_value target (meaning v.now)) }
        ensures work { work self.old ≤ work self.new };

    /// The value where a condition of a core comes out as wanted.
    fn test(
        &mut self,
        alloc: Global,
        v: &Self::V,
        core: &Core,
        cond: u32,
        wanted: bool,
    ) -> Result<Self::V, NoMemory>
        requires cond { cond < length core.now.conds }
        requires over { IsConditionOver (meaning v.now).dims (cond_at (conds_in core.now) cond) }
        ensures value { IfOk result (λ r. meaning r ≡ test_value (cond_at (conds_in core.now) cond) wanted (meaning v.now)) }
        ensures work { work self.old ≤ work self.new };

    /// The join of two values over as many variables.
    fn join(&mut self, alloc: Global, a: &Self::V, b: &Self::V) -> Result<Self::V, NoMemory>
        requires dims { (meaning a.now).dims ≡ (meaning b.now).dims }
        ensures value { IfOk result (λ r. meaning r ≡ join_value (meaning a.now) (meaning b.now)) }
        ensures work { work self.old ≤ work self.new };

    /// The widening of the first value by the second, over as many variables.
    fn widen(&mut self, alloc: Global, a: &Self::V, b: &Self::V) -> Result<Self::V, NoMemory>
        requires dims { (meaning a.now).dims ≡ (meaning b.now).dims }
        ensures value { IfOk result (λ r. meaning r ≡ widen_value (meaning a.now) (meaning b.now)) }
        ensures work { work self.old ≤ work self.new };

    /// The narrowing of the first value by the second, over as many variables.
    fn narrow(&mut self, alloc: Global, a: &Self::V, b: &Self::V) -> Result<Self::V, NoMemory>
        requires dims { (meaning a.now).dims ≡ (meaning b.now).dims }
        ensures value { IfOk result (λ r. meaning r ≡ narrow_value (meaning a.now) (meaning b.now)) }
        ensures work { work self.old ≤ work self.new };

    /// The value at the entry of a callee with `dims` variables, of which the first ones are its inputs, from the caller's
    /// value and the arguments, which may repeat.
    fn enter(
        &mut self,
        alloc: Global,
        v: &Self::V,
        args: &[u32],
        dims: u32,
    ) -> Result<Self::V, NoMemory>
        requires small { dims ≤ most_dims }
        requires inputs { length args.now ≤ dims }
        requires args { All (λ x. x < (meaning v.now).dims) args.now }
        ensures value { IfOk result (λ r. meaning r ≡ enter_value (meaning v.now) args.now dims) }
        ensures work { work self.old ≤ work self.new };

    /// The value after a call, from the caller's value before it and the value at the callee's exit. The exit's first
    /// variables are the inputs, one for each argument, and the outputs follow; the targets take the outputs.
    fn back(
        &mut self,
        alloc: Global,
        caller: &Self::V,
        exit: &Self::V,
        args: &[u32],
        outputs: u32,
        targets: &[u32],
    ) -> Result<Self::V, NoMemory>
        requires few { outputs ≤ most_outputs }
        requires args { All (λ x. x < (meaning caller.now).dims) args.now }
        requires inside { length args.now + outputs ≤ (meaning exit.now).dims }
        requires count { length targets.now ≡ outputs }
        requires targets { All (λ x. x < (meaning caller.now).dims) targets.now }
        requires distinct { AreDistinct targets.now }
        ensures value { IfOk result (λ r. meaning r ≡ back_value (meaning caller.now) (meaning exit.now) args.now outputs targets.now) }
        ensures work { work self.old ≤ work self.new };
}
