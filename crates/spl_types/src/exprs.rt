//! Expressions: their sorts, and the variables that they name.

ghost use Rattle.std.specs.Prelude.{◌≡◌, ◌<◌, ℕ, List, ◌∷◌, [], length};
ghost use Rattle.spl_tree.specs.Program.{ExprTree};
ghost use Rattle.spl_tree.specs.Facts.{ExprFits};
ghost use Rattle.spl_tree.specs.Meaning.{name_of, names_in, exprs_in, expr_at, expr_over};
ghost use Rattle.spl_types.specs.Checks.{check, is_among, is_sort as same_sort, operand_sort as operands_of, result_sort, expr_checks};
ghost use Rattle.spl_types.specs.Faults.{Answers};
ghost use Rattle.spl_types.specs.Sorts.{sort_of, own_sort as own_of, inner_checks, node_count, AreThere, LeavesChildren, Pushed};

use crate::demands::demand;
use crate::fault::{CheckFault, CheckRule};
use crate::nodes::{expr_node, name};
use crate::tables::NameTable;
use spl_tree::{BinOp, Expr, ExprId, NameId, Tree};
use std::alloc::Global;

/// What an expression is: a number, or a condition.
#[derive(Clone, Copy, Debug, Drop, PartialEq, Eq)]
pub enum Sort {
    Number,
    Condition,
}

/// An expression that waits, with the sort that it's wanted to have.
#[derive(Clone, Copy, Debug, Drop, PartialEq, Eq)]
pub struct Wanted {
    pub expr: ExprId,
    pub sort: Sort,
}

/// The checks of an expression of this sort over these variables.
///
/// The expressions that wait are on a stack, since no limit bounds how deep `not` and `-` nest.
pub fn expression(
    alloc: Global,
    tree: &Tree,
    names: &NameTable,
    root: ExprId,
    sort: Sort,
) -> Result<(), CheckFault>
    requires { root.0 < length tree.now.exprs }
    ensures { Answers result (expr_checks names.now (sort_of sort) (expr_at (exprs_in tree.now) root)) }
{
    let mut waiting = Vec::new(alloc);
    push(&mut waiting, root, sort)?;
    while let Some(next) = waiting.pop() {
        node(tree, names, next, &mut waiting)?;
    }
    Ok(())
}

/// The checks of a node, whose children are left waiting.
fn node(
    tree: &Tree,
    names: &NameTable,
    next: Wanted,
    waiting: &mut Vec<Wanted>,
) -> Result<(), CheckFault>
    requires there { next.expr.0 < length tree.now.exprs }
    requires others { AreThere tree.now.exprs waiting.old.items }
    ensures { LeavesChildren names.now (exprs_in tree.now) tree.now.exprs (expr_checks names.now (sort_of next.sort) (expr_at (exprs_in tree.now) next.expr)) (node_count (expr_at (exprs_in tree.now) next.expr)) waiting.old.items waiting.new.items result }
{
    let (expr, at) = expr_node(tree, next.expr);
    let own = own_sort(expr);
    demand(is_sort(next.sort, own), CheckRule::WrongKind, at)?;
    inside(tree, names, expr, at, waiting)
}

/// The checks of a node after that of its own sort.
fn inside(
    tree: &Tree,
    names: &NameTable,
    expr: Expr,
    at: usize,
    waiting: &mut Vec<Wanted>,
) -> Result<(), CheckFault>
    requires fits { ExprFits tree.now (length tree.now.exprs) expr }
    requires others { AreThere tree.now.exprs waiting.old.items }
    ensures { LeavesChildren names.now (exprs_in tree.now) tree.now.exprs (inner_checks names.now (expr_over (names_in tree.now) (exprs_in tree.now) expr at)) (node_count (expr_over (names_in tree.now) (exprs_in tree.now) expr at)) waiting.old.items waiting.new.items result }
{
    match expr {
        Expr::Number(_) | Expr::True | Expr::False | Expr::Random => Ok(()),
        Expr::Variable(n) => known(tree, names, n, at),
        Expr::Neg(a) => push(waiting, a, Sort::Number),
        Expr::Not(a) => push(waiting, a, Sort::Condition),
        Expr::Binary(op, a, b) => {
            let sort = operand_sort(op);
            push(waiting, b, sort)?;
            push(waiting, a, sort)
        }
    }
}

/// The check of a variable.
pub fn known(tree: &Tree, names: &NameTable, n: NameId, at: usize) -> Result<(), CheckFault>
    requires { n.0 < length tree.now.names }
    ensures { Answers result (check CheckRule.UnknownVariable at (is_among (name_of (names_in tree.now) n) names.now) ∷ []) }
{
    let found = names.number(name(tree, n));
    demand(found.is_some(), CheckRule::UnknownVariable, at)
}

/// Lets an expression wait.
fn push(waiting: &mut Vec<Wanted>, expr: ExprId, sort: Sort) -> Result<(), CheckFault>
    ensures { Pushed waiting.old.items (record { expr = expr; sort = sort }) waiting.new.items result }
{
    match waiting.push(Wanted { expr, sort }) {
        Ok(()) => Ok(()),
        Err(_) => Err(CheckFault::NoMemory),
    }
}

/// Whether two sorts are the same.
fn is_sort(wanted: Sort, own: Sort) -> bool
    ensures { result ≡ same_sort (sort_of wanted) (sort_of own) }
{
    match wanted {
        Sort::Number => matches!(own, Sort::Number),
        Sort::Condition => matches!(own, Sort::Condition),
    }
}

/// The sort that an expression has.
fn own_sort(expr: Expr) -> Sort
    ensures { (names : List (List ℕ)) (trees : List ExprTree) (at : ℕ) → sort_of result ≡ own_of (expr_over names trees expr at) }
{
    match expr {
        Expr::Number(_) | Expr::Variable(_) | Expr::Neg(_) => Sort::Number,
        Expr::True | Expr::False | Expr::Random | Expr::Not(_) => Sort::Condition,
        Expr::Binary(op, _, _) => match op {
            BinOp::Add | BinOp::Sub | BinOp::Mul | BinOp::Div | BinOp::Rem => Sort::Number,
            _ => Sort::Condition,
        },
    }
}

/// The sort of an operator's operands.
fn operand_sort(op: BinOp) -> Sort
    ensures { sort_of result ≡ operands_of op }
{
    match op {
        BinOp::Or | BinOp::And => Sort::Condition,
        _ => Sort::Number,
    }
}
