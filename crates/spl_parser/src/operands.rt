//! Operands that close: the operators that wait before an operand become expressions, level by level.

ghost use Rattle.std.specs.Prelude.{◌≡◌, ◌+◌, ◌*◌, ◌^◌, ◌<◌, ◌≤◌, length, IfOk, [], ℕ};
ghost use Rattle.spl_tree.specs.Lists.{lists_of};
ghost use Rattle.spl_tree.specs.Facts.{IsTree, IsPlace, Each};
ghost use Rattle.spl_tree.specs.Meaning.{expr_at};
ghost use Rattle.spl_parser.specs.Growth.{grown};
ghost use Rattle.spl_parser.specs.Machine.{under_minuses, under_nots, closed_5, closed_4, closed_1, closed_0};
ghost use Rattle.spl_parser.specs.Trees.{trees};
ghost use Rattle.spl_parser.specs.View.{Folds, ExprThere, PendingIn, LeftIn, SideIn, pending_of, left_of, side_of, joined_tree, sided_tree, product_tree, sum_tree, conjunct_tree, whole_tree, one_if, waiting, waiting_within};

use crate::growing::add_expr;
use crate::state::{Left, Pending, Side};
use spl_tree::{BinOp, Expr, ExprId, TreeParts};
use std::alloc::AllocError;

/// An operand under its minus signs, the outermost one first.
pub fn under_minuses(
    parts: &mut TreeParts,
    mut minuses: Vec<usize>,
    operand: ExprId,
) -> Result<ExprId, AllocError>
    requires tree { IsTree (lists_of parts.old) }
    requires room { length (grown (lists_of parts.old)).exprs + length minuses.items ≤ 2 ^ 20 }
    requires placed { Each (λ k at. IsPlace at) minuses.items }
    requires there { ExprThere (grown (lists_of parts.old)) operand }
    ensures { IfOk result (λ e. Folds (lists_of parts.old) (lists_of parts.new) (length minuses.items) e
        (under_minuses (trees []) minuses.items (expr_at (grown (lists_of parts.old)).exprs operand))) }
{
    let mut inner = operand;
    while let Some(place) = minuses.pop() {
        inner = add_expr(parts, Expr::Neg(inner), place)?;
    }
    Ok(inner)
}

/// An operand under its negations, the outermost one first.
pub fn under_nots(
    parts: &mut TreeParts,
    mut nots: Vec<usize>,
    operand: ExprId,
) -> Result<ExprId, AllocError>
    requires tree { IsTree (lists_of parts.old) }
    requires room { length (grown (lists_of parts.old)).exprs + length nots.items ≤ 2 ^ 20 }
    requires placed { Each (λ k at. IsPlace at) nots.items }
    requires there { ExprThere (grown (lists_of parts.old)) operand }
    ensures { IfOk result (λ e. Folds (lists_of parts.old) (lists_of parts.new) (length nots.items) e
        (under_nots (trees []) nots.items (expr_at (grown (lists_of parts.old)).exprs operand))) }
{
    let mut inner = operand;
    while let Some(place) = nots.pop() {
        inner = add_expr(parts, Expr::Not(inner), place)?;
    }
    Ok(inner)
}

/// An operand with its left operand, where there is one.
pub fn with_left(
    parts: &mut TreeParts,
    left: Option<Left>,
    operand: ExprId,
) -> Result<ExprId, AllocError>
    requires tree { IsTree (lists_of parts.old) }
    requires room { length (grown (lists_of parts.old)).exprs + one_if left ≤ 2 ^ 20 }
    requires left { LeftIn (grown (lists_of parts.old)) left }
    requires there { ExprThere (grown (lists_of parts.old)) operand }
    ensures { IfOk result (λ e. let r = grown (lists_of parts.old) in
        Folds (lists_of parts.old) (lists_of parts.new) (one_if left) e (joined_tree (left_of r left) (expr_at r.exprs operand))) }
{
    match left {
        Some(side) => {
            let whole = add_expr(
                parts,
                Expr::Binary(side.operator, side.operand, operand),
                side.place,
            )?;
            Ok(whole)
        }
        None => Ok(operand),
    }
}

/// An operand with its left operand before `or` or `and`, where there is one.
pub fn with_side(
    parts: &mut TreeParts,
    operator: BinOp,
    side: Option<Side>,
    operand: ExprId,
) -> Result<ExprId, AllocError>
    requires tree { IsTree (lists_of parts.old) }
    requires room { length (grown (lists_of parts.old)).exprs + one_if side ≤ 2 ^ 20 }
    requires side { SideIn (grown (lists_of parts.old)) side }
    requires there { ExprThere (grown (lists_of parts.old)) operand }
    ensures { IfOk result (λ e. let r = grown (lists_of parts.old) in
        Folds (lists_of parts.old) (lists_of parts.new) (one_if side) e (sided_tree operator (side_of r side) (expr_at r.exprs operand))) }
{
    match side {
        Some(left) => {
            let whole = add_expr(
                parts,
                Expr::Binary(operator, left.operand, operand),
                left.place,
            )?;
            Ok(whole)
        }
        None => Ok(operand),
    }
}

/// An operand closed up to the products.
pub fn closed_product(
    parts: &mut TreeParts,
    product: Option<Left>,
    minuses: Vec<usize>,
    operand: ExprId,
) -> Result<ExprId, AllocError>
    requires tree { IsTree (lists_of parts.old) }
    requires room { length (grown (lists_of parts.old)).exprs + one_if product + length minuses.items ≤ 2 ^ 20 }
    requires product { LeftIn (grown (lists_of parts.old)) product }
    requires placed { Each (λ k at. IsPlace at) minuses.items }
    requires there { ExprThere (grown (lists_of parts.old)) operand }
    ensures { IfOk result (λ e. let r = grown (lists_of parts.old) in
        Folds (lists_of parts.old) (lists_of parts.new) (one_if product + length minuses.items) e
        (product_tree (left_of r product) minuses.items (expr_at r.exprs operand))) }
{
    let factor = under_minuses(parts, minuses, operand)?;
    let whole = with_left(parts, product, factor)?;
    Ok(whole)
}

/// An operand closed up to the sums.
pub fn closed_sum(
    parts: &mut TreeParts,
    sum: Option<Left>,
    product: Option<Left>,
    minuses: Vec<usize>,
    operand: ExprId,
) -> Result<ExprId, AllocError>
    requires tree { IsTree (lists_of parts.old) }
    requires room { length (grown (lists_of parts.old)).exprs + one_if sum + one_if product + length minuses.items ≤ 2 ^ 20 }
    requires sum { LeftIn (grown (lists_of parts.old)) sum }
    requires product { LeftIn (grown (lists_of parts.old)) product }
    requires placed { Each (λ k at. IsPlace at) minuses.items }
    requires there { ExprThere (grown (lists_of parts.old)) operand }
    ensures { IfOk result (λ e. let r = grown (lists_of parts.old) in
        Folds (lists_of parts.old) (lists_of parts.new) (one_if sum + one_if product + length minuses.items) e
        (sum_tree (left_of r sum) (left_of r product) minuses.items (expr_at r.exprs operand))) }
{
    let term = closed_product(parts, product, minuses, operand)?;
    let whole = with_left(parts, sum, term)?;
    Ok(whole)
}

/// An operand closed up to the conjunctions: all that waits before it but a left side of `or`.
pub fn closed_conjunct(
    parts: &mut TreeParts,
    pending: Pending,
    operand: ExprId,
) -> Result<ExprId, AllocError>
    requires tree { IsTree (lists_of parts.old) }
    requires room { length (grown (lists_of parts.old)).exprs + waiting_within pending ≤ 2 ^ 20 }
    requires pending { PendingIn (grown (lists_of parts.old)) pending }
    requires there { ExprThere (grown (lists_of parts.old)) operand }
    ensures { IfOk result (λ e. let r = grown (lists_of parts.old) in
        Folds (lists_of parts.old) (lists_of parts.new) (waiting_within pending) e (conjunct_tree r pending (expr_at r.exprs operand))) }
{
    let term = closed_sum(
        parts,
        pending.sum,
        pending.product,
        pending.minuses,
        operand,
    )?;
    let compared = with_left(parts, pending.comparison, term)?;
    let negation = under_nots(parts, pending.nots, compared)?;
    let whole = with_side(parts, BinOp::And, pending.both, negation)?;
    Ok(whole)
}

/// An operand with all that waits before it.
pub fn closed_whole(
    parts: &mut TreeParts,
    pending: Pending,
    operand: ExprId,
) -> Result<ExprId, AllocError>
    requires tree { IsTree (lists_of parts.old) }
    requires room { length (grown (lists_of parts.old)).exprs + waiting pending ≤ 2 ^ 20 }
    requires pending { PendingIn (grown (lists_of parts.old)) pending }
    requires there { ExprThere (grown (lists_of parts.old)) operand }
    ensures { IfOk result (λ e. let r = grown (lists_of parts.old) in
        Folds (lists_of parts.old) (lists_of parts.new) (waiting pending) e (whole_tree r pending (expr_at r.exprs operand))) }
{
    let side = pending.either;
    let conjunct = closed_conjunct(parts, pending, operand)?;
    let whole = with_side(parts, BinOp::Or, side, conjunct)?;
    Ok(whole)
}
