//! Variables, and the targets of statements.

ghost use Rattle.std.specs.Prelude.{◌<◌, length};
ghost use Rattle.spl_tree.specs.Facts.{HasNames};
ghost use Rattle.spl_tree.specs.Meaning.{name_of, names_in, named_in, names_over};
ghost use Rattle.spl_types.specs.Checks.{argument_checks};
ghost use Rattle.spl_types.specs.Faults.{Answers};
ghost use Rattle.spl_types.specs.Tables.{FindsVariable};
ghost use Rattle.spl_types.specs.Walking.{scope_in, StepsToOneTarget, StepsToTargets, StepsToNext};

use crate::demands::demand;
use crate::exprs::known;
use crate::fault::{CheckFault, CheckRule};
use crate::nodes::{name, name_count, name_node};
use crate::scope::{Scope, Walk};
use crate::tables::NameTable;
use crate::walk::meet_target;
use spl_tree::{NameId, NameList};

/// The number of a variable.
fn variable(scope: &Scope, n: NameId, at: usize) -> Result<usize, CheckFault>
    requires { n.0 < length scope.now.tree.now.names }
    ensures { FindsVariable scope.now.declared (name_of (names_in scope.now.tree.now) n) at result }
{
    match scope.declared.number(name(scope.tree, n)) {
        Some(number) => Ok(number),
        None => Err(CheckFault::Broken(CheckRule::UnknownVariable, at)),
    }
}

/// The checks of the one target of an assignment.
pub fn target(scope: &Scope, walk: &mut Walk, n: NameId, at: usize) -> Result<(), CheckFault>
    requires { n.0 < length scope.now.tree.now.names }
    ensures { StepsToOneTarget (scope_in scope.now) (record { name = name_of (names_in scope.now.tree.now) n; at = at }) walk.old walk.new result }
{
    let number = variable(scope, n, at)?;
    meet_target(scope, walk, number, at)
}

/// The checks of the targets of a call.
pub fn targets(scope: &Scope, walk: &mut Walk, list: NameList) -> Result<(), CheckFault>
    requires { HasNames scope.now.tree.now list }
    ensures { StepsToTargets (scope_in scope.now) (names_over (named_in scope.now.tree.now) list) walk.old walk.new result }
{
    let mut listed = NameTable::new(scope.alloc);
    for i in 0..name_count(scope.tree, list) {
        next_target(scope, walk, &mut listed, list, i)?;
    }
    Ok(())
}

/// The checks of a target in the list of a call, after those that are listed.
fn next_target<'t>(
    scope: &Scope<'_, 't>,
    walk: &mut Walk,
    listed: &mut NameTable<'t>,
    list: NameList,
    i: u32,
) -> Result<(), CheckFault>
    requires has { HasNames scope.now.tree.now list }
    requires within { i < length (names_over (named_in scope.now.tree.now) list) }
    ensures { StepsToNext (scope_in scope.now) (names_over (named_in scope.now.tree.now) list) i listed.old listed.new walk.old walk.new result }
{
    let (n, at) = name_node(scope.tree, list, i);
    let number = variable(scope, n, at)?;
    let fresh = match listed.add(name(scope.tree, n)) {
        Ok(fresh) => fresh,
        Err(_) => return Err(CheckFault::NoMemory),
    };
    demand(fresh, CheckRule::RepeatedTarget, at)?;
    meet_target(scope, walk, number, at)
}

/// The checks of the arguments of a call.
pub fn arguments(scope: &Scope, list: NameList) -> Result<(), CheckFault>
    requires { HasNames scope.now.tree.now list }
    ensures { Answers result (argument_checks scope.now.declared (names_over (named_in scope.now.tree.now) list)) }
{
    for i in 0..name_count(scope.tree, list) {
        let (n, at) = name_node(scope.tree, list, i);
        known(scope.tree, &scope.declared, n, at)?;
    }
    Ok(())
}
