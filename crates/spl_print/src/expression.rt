//! Expressions, with parentheses exactly where they are wanted.
//!
//! What is still to be written waits in a list, the next piece last, so a chain of a thousand `not` takes memory and
//! no stack.
ghost use Rattle.std.specs.Prelude.{◌≡◌, ◌++◌, ◌<◌, length, codes, List, ℕ, OnOk, if◌then◌else◌};
ghost use Rattle.spl_tree.specs.Facts.{ExprFits};
ghost use Rattle.spl_tree.specs.Meaning.{names_in, exprs_in, expr_at, expr_over};
ghost use Rattle.spl_tree.specs.Program.{ExprTree};
ghost use Rattle.spl_print.specs.Canonical.{op_level, left_level, right_level, level_of, op_text, expr_text};
ghost use Rattle.spl_print.specs.Pieces.{PieceFits, Writes, opening, closing_pieces, first_text, later_pieces};

use crate::laws::law_tree;
use crate::text::{put_name, put_number};
use spl_tree::{BinOp, Expr, ExprId, Tree};
use std::alloc::{AllocError, Global};

/// What is still to be written: an operand of an operator that wants at least this level, an operator, or the end of
/// a parenthesis.
#[derive(Clone, Copy, Debug, Drop)]
pub enum Piece {
    Operand { expr: ExprId, wanted: u8 },
    Operator(BinOp),
    Close,
}

/// How tightly an operator binds, and the least level that it wants on each side.
#[derive(Clone, Copy, Drop)]
struct Levels {
    own: u8,
    left: u8,
    right: u8,
}

fn with_levels(own: u8, left: u8, right: u8) -> Levels
    ensures { result ≡ record { own = own; left = left; right = right } }
{
    Levels { own, left, right }
}

/// The levels of an operator.
fn levels_of(op: BinOp) -> Levels
    ensures own { result.own ≡ op_level op }
    ensures left { result.left ≡ left_level op }
    ensures right { result.right ≡ right_level op }
{
    match op {
        BinOp::Or => with_levels(0, 0, 1),
        BinOp::And => with_levels(1, 1, 2),
        BinOp::Eq | BinOp::Ne | BinOp::Lt | BinOp::Le | BinOp::Gt | BinOp::Ge => with_levels(
            3, 4, 4,
        ),
        BinOp::Add | BinOp::Sub => with_levels(4, 4, 5),
        BinOp::Mul | BinOp::Div | BinOp::Rem => with_levels(5, 5, 6),
    }
}

/// The level of an expression.
fn level(node: Expr) -> u8
    ensures { (names : List (List ℕ)) (trees : List ExprTree) (at : ℕ) → result ≡ level_of (expr_over names trees node at) }
{
    match node {
        Expr::Binary(op, _, _) => levels_of(op).own,
        Expr::Not(_) => 2,
        Expr::Neg(_) => 6,
        _ => 7,
    }
}

/// An operator with its blanks.
fn operator_text(op: BinOp) -> &'static [u8]
    ensures { result.now ≡ op_text op }
{
    match op {
        BinOp::Or => b" or ",
        BinOp::And => b" and ",
        BinOp::Eq => b" == ",
        BinOp::Ne => b" != ",
        BinOp::Lt => b" < ",
        BinOp::Le => b" <= ",
        BinOp::Gt => b" > ",
        BinOp::Ge => b" >= ",
        BinOp::Add => b" + ",
        BinOp::Sub => b" - ",
        BinOp::Mul => b" * ",
        BinOp::Div => b" / ",
        BinOp::Rem => b" % ",
    }
}

/// Appends an expression.
pub fn put_expr(
    out: &mut Vec<u8>,
    alloc: Global,
    tree: &Tree,
    expr: ExprId,
) -> Result<(), AllocError>
    requires { expr.0 < length tree.now.exprs }
    ensures { OnOk result (out.new.items ≡ out.old.items ++ expr_text (expr_at (exprs_in tree.now) expr)) }
{
    let mut waiting = Vec::new(alloc);
    waiting.push(Piece::Operand { expr, wanted: 0 })?;
    while let Some(piece) = waiting.pop() {
        put_piece(out, &mut waiting, tree, piece)?;
    }
    Ok(())
}

/// Appends the first part of a piece, and puts its other parts before all that waits.
fn put_piece(
    out: &mut Vec<u8>,
    waiting: &mut Vec<Piece>,
    tree: &Tree,
    piece: Piece,
) -> Result<(), AllocError>
    requires { PieceFits (length tree.now.exprs) piece }
    ensures { OnOk result (Writes tree.now piece out.old.items waiting.old.items out.new.items waiting.new.items) }
{
    match piece {
        Piece::Operand { expr, wanted } => put_operand(out, waiting, tree, expr, wanted)?,
        Piece::Operator(op) => out.extend_from_slice(operator_text(op))?,
        Piece::Close => out.extend_from_slice(b")")?,
    }
    Ok(())
}

/// Appends the first part of an operand, in parentheses where it binds less tightly than is wanted.
fn put_operand(
    out: &mut Vec<u8>,
    waiting: &mut Vec<Piece>,
    tree: &Tree,
    expr: ExprId,
    wanted: u8,
) -> Result<(), AllocError>
    requires { expr.0 < length tree.now.exprs }
    ensures { OnOk result (Writes tree.now (Piece.Operand expr wanted) out.old.items waiting.old.items out.new.items waiting.new.items) }
{
    law_tree(tree);
    let node = tree.expr(expr);
    put_opening(out, waiting, level(node) < wanted)?;
    put_node(out, waiting, tree, node)?;
    Ok(())
}

/// Opens a parenthesis where one is wanted, and has its end wait.
fn put_opening(out: &mut Vec<u8>, waiting: &mut Vec<Piece>, opens: bool) -> Result<(), AllocError>
    ensures text { OnOk result (out.new.items ≡ out.old.items ++ opening opens) }
    ensures waiting { OnOk result (waiting.new.items ≡ waiting.old.items ++ closing_pieces opens) }
{
    if opens {
        out.extend_from_slice(b"(")?;
        waiting.push(Piece::Close)?;
    }
    Ok(())
}

/// Appends what of a node stands before its operands, and has the rest wait.
fn put_node(
    out: &mut Vec<u8>,
    waiting: &mut Vec<Piece>,
    tree: &Tree,
    node: Expr,
) -> Result<(), AllocError>
    requires { ExprFits tree.now (length tree.now.exprs) node }
    ensures text { OnOk result (out.new.items ≡ out.old.items ++ first_text (names_in tree.now) node) }
    ensures waiting { OnOk result (waiting.new.items ≡ waiting.old.items ++ later_pieces node) }
{
    match node {
        Expr::Number(number) => put_number(out, number)?,
        Expr::Variable(name) => put_name(out, tree, name)?,
        Expr::True => out.extend_from_slice(b"true")?,
        Expr::False => out.extend_from_slice(b"false")?,
        Expr::Random => out.extend_from_slice(b"random")?,
        Expr::Neg(expr) => {
            out.extend_from_slice(b"-")?;
            waiting.push(Piece::Operand { expr, wanted: 6 })?;
        }
        Expr::Not(expr) => {
            out.extend_from_slice(b"not ")?;
            waiting.push(Piece::Operand { expr, wanted: 2 })?;
        }
        Expr::Binary(op, left, right) => put_binary(waiting, op, left, right)?,
    }
    Ok(())
}

/// Has both operands of an operator wait, with the operator between them.
fn put_binary(
    waiting: &mut Vec<Piece>,
    op: BinOp,
    left: ExprId,
    right: ExprId,
) -> Result<(), AllocError>
    ensures { OnOk result (waiting.new.items ≡ waiting.old.items ++ later_pieces (Expr.Binary op left right)) }
{
    let levels = levels_of(op);
    waiting.push(Piece::Operand {
        expr: right,
        wanted: levels.right,
    })?;
    waiting.push(Piece::Operator(op))?;
    waiting.push(Piece::Operand {
        expr: left,
        wanted: levels.left,
    })?;
    Ok(())
}
