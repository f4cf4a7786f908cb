//! Statements and blocks, in the order of the text.

ghost use Rattle.std.specs.Prelude.{◌<◌, length};
ghost use Rattle.spl_tree.specs.Facts.{HasBlock, StmtFits};
ghost use Rattle.spl_tree.specs.Meaning.{name_of, names_in, exprs_in, expr_at, stmts_in, stmt_at, stmt_over, ground_in, block_over};
ghost use Rattle.spl_types.specs.Checks.{a_condition, expr_checks, assigned_checks};
ghost use Rattle.spl_types.specs.Faults.{Answers};
ghost use Rattle.spl_types.specs.Walking.{scope_in, KnowsProcs, StepsToAssign, StepsInStmt, StepsToStmt, StepsToBlock};

use crate::calls::call;
use crate::exprs::{Sort, expression};
use crate::fault::CheckFault;
use crate::nodes::{expr_node, stmt_count, stmt_node, stmt_of};
use crate::scope::{Scope, Walk};
use crate::targets::target;
use crate::walk::meet_point;
use spl_tree::{Block, Expr, ExprId, NameId, Stmt, StmtAt, StmtId};

/// The checks of a block, whose first point has this place.
#[cycle(walking)]
pub fn block(scope: &Scope, walk: &mut Walk, stmts: Block, start: usize) -> Result<(), CheckFault>
    requires procs { KnowsProcs scope.now }
    requires there { HasBlock scope.now.tree.now (length scope.now.tree.now.stmts) stmts }
    ensures { StepsToBlock (scope_in scope.now) start (block_over scope.now.tree.now.stmt_items (stmts_in scope.now.tree.now) stmts) walk.old walk.new result }
{
    meet_point(walk, start)?;
    for i in 0..stmt_count(scope.tree, stmts) {
        statement(scope, walk, stmt_of(scope.tree, stmts, i))?;
    }
    Ok(())
}

/// The checks of a statement and of the point after it.
#[cycle(walking)]
fn statement(scope: &Scope, walk: &mut Walk, s: StmtId) -> Result<(), CheckFault>
    requires procs { KnowsProcs scope.now }
    requires there { s.0 < length scope.now.tree.now.stmts }
    ensures { StepsToStmt (scope_in scope.now) (stmt_at (stmts_in scope.now.tree.now) s) walk.old walk.new result }
{
    let (stmt, at) = stmt_node(scope.tree, s);
    within(scope, walk, stmt, at)?;
    meet_point(walk, at.end)
}

/// The checks of a statement without the point after it.
#[cycle(walking)]
fn within(scope: &Scope, walk: &mut Walk, stmt: Stmt, at: StmtAt) -> Result<(), CheckFault>
    requires procs { KnowsProcs scope.now }
    requires there { StmtFits scope.now.tree.now (length scope.now.tree.now.stmts) stmt }
    ensures { StepsInStmt (scope_in scope.now) (stmt_over (ground_in scope.now.tree.now) (stmts_in scope.now.tree.now) stmt at) walk.old walk.new result }
{
    match stmt {
        Stmt::Skip | Stmt::Halt | Stmt::Fail => Ok(()),
        Stmt::Assume(e) => condition(scope, e),
        Stmt::Assign(x, e) => assign(scope, walk, x, e, at.start),
        Stmt::Call(list, called, args) => call(scope, walk, list, called, args, at.called),
        Stmt::If(e, first, second) => {
            condition(scope, e)?;
            block(scope, walk, first, at.first_block)?;
            match second {
                None => Ok(()),
                Some(second) => block(scope, walk, second, at.second_block),
            }
        }
        Stmt::While(e, body) => {
            condition(scope, e)?;
            block(scope, walk, body, at.first_block)
        }
    }
}

/// The checks of an assignment, whose target has this place.
fn assign(scope: &Scope, walk: &mut Walk, x: NameId, e: ExprId, at: usize) -> Result<(), CheckFault>
    requires named { x.0 < length scope.now.tree.now.names }
    requires there { e.0 < length scope.now.tree.now.exprs }
    ensures { StepsToAssign (scope_in scope.now) (record { name = name_of (names_in scope.now.tree.now) x; at = at }) (expr_at (exprs_in scope.now.tree.now) e) walk.old walk.new result }
{
    target(scope, walk, x, at)?;
    assigned(scope, e)
}

/// The checks of the right side of an assignment.
fn assigned(scope: &Scope, e: ExprId) -> Result<(), CheckFault>
    requires { e.0 < length scope.now.tree.now.exprs }
    ensures { Answers result (assigned_checks scope.now.declared (expr_at (exprs_in scope.now.tree.now) e)) }
{
    let (expr, _) = expr_node(scope.tree, e);
    match expr {
        Expr::Random => Ok(()),
        _ => expression(scope.alloc, scope.tree, &scope.declared, e, Sort::Number),
    }
}

/// The checks of a condition.
fn condition(scope: &Scope, e: ExprId) -> Result<(), CheckFault>
    requires { e.0 < length scope.now.tree.now.exprs }
    ensures { Answers result (expr_checks scope.now.declared a_condition (expr_at (exprs_in scope.now.tree.now) e)) }
{
    expression(scope.alloc, scope.tree, &scope.declared, e, Sort::Condition)
}
