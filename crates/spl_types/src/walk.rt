//! The steps that the walk counts: points, and targets.

ghost use Rattle.std.specs.Prelude.{◌≡◌, ◌≤◌, IfOk, IfErr, length};
ghost use Rattle.spl_types.specs.Checks.{Scope as Names, most_dimensions, most_points};
ghost use Rattle.spl_types.specs.Checks.{met_before};
ghost use Rattle.spl_types.specs.Tables.{Distinct};
ghost use Rattle.spl_types.specs.Walking.{scope_in, HasMet, StepsToPoint, StepsToTarget};

use crate::fault::{CheckFault, CheckRule};
use crate::scope::{Copies, Scope, Walk};

/// The most points that a program may have.
const MOST_POINTS: u32 = 4096;

/// The most dimensions that a procedure may have.
pub const MOST_DIMENSIONS: u32 = 128;

/// The walk before a procedure's `begin`, after so many points of the program.
pub fn start(scope: &Scope, points: u32) -> Result<Walk, CheckFault>
    requires points { points ≤ most_points }
    requires declared { length scope.now.declared ≤ most_dimensions }
    requires inputs { scope.now.inputs ≤ length scope.now.declared }
    ensures met { IfOk result (HasMet (scope_in scope.now) (met_before points)) }
    ensures fault { IfErr result (λ e. e ≡ CheckFault.NoMemory) }
{
    let mut assigned = Vec::new(scope.alloc);
    for _ in 0..scope.inputs {
        match assigned.push(false) {
            Ok(()) => {}
            Err(_) => return Err(CheckFault::NoMemory),
        }
    }
    let dims = scope.declared.len() as u32;
    Ok(Walk {
        points,
        copies: Copies { assigned, dims },
    })
}

/// A point is met.
pub fn meet_point(walk: &mut Walk, at: usize) -> Result<(), CheckFault>
    ensures { (c : Names) → StepsToPoint c at walk.old walk.new result }
{
    if walk.points >= MOST_POINTS {
        return Err(CheckFault::Broken(CheckRule::TooManyPoints, at));
    }
    walk.points += 1;
    Ok(())
}

/// A target is met: the variable with this number. An input that is met first makes room for its working copy.
pub fn meet_target(
    scope: &Scope,
    walk: &mut Walk,
    number: usize,
    at: usize,
) -> Result<(), CheckFault>
    requires { Distinct scope.now.declared }
    ensures { StepsToTarget (scope_in scope.now) number at walk.old walk.new result }
{
    if number >= walk.copies.assigned.len() {
        return Ok(());
    }
    if walk.copies.assigned[number] {
        return Ok(());
    }
    if walk.copies.dims >= MOST_DIMENSIONS {
        return Err(CheckFault::Broken(CheckRule::TooManyVariables, at));
    }
    walk.copies.dims += 1;
    walk.copies.assigned[number] = true;
    Ok(())
}
