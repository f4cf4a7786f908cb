//! Steps over expressions.

ghost use Rattle.std.specs.Prelude.{◌≡◌, ◌<◌, ◌≤◌, ◌+◌, ◌*◌, ◌^◌, length, List, ℕ, IfOk, [], ◌∷◌, ◌++◌};
ghost use Rattle.spl_tree.specs.Lists.{lists_of};
ghost use Rattle.spl_parser.specs.View.{Ready, TokenIn, Steps, Follows, IsFresh, AddsMinus, AddsNot, nothing_within};

use crate::growing::add_expr;
use crate::state::{Body, Goal, OpenExpr, Pending, State, Stop};
use crate::words::read_word;
use spl_text::{Token, TokenKind};
use spl_tree::{Expr, TreeParts};
use std::alloc::{AllocError, Global};

/// Nothing before an operand.
fn nothing_before(alloc: Global) -> Pending
    ensures { IsFresh result }
{
    Pending {
        either: None,
        both: None,
        nots: Vec::new(alloc),
        comparison: None,
        sum: None,
        product: None,
        minuses: Vec::new(alloc),
    }
}

/// An expression of a body, before its first operand.
pub fn new_expr(alloc: Global, body: Body, goal: Goal) -> OpenExpr
    ensures same { result ≡ record { body = body; goal = goal; parens = result.parens; pending = result.pending } }
    ensures none { result.parens.items ≡ [] }
    ensures fresh { IsFresh result.pending }
{
    OpenExpr {
        body,
        goal,
        parens: Vec::new(alloc),
        pending: nothing_before(alloc),
    }
}

/// Opens a parenthesis before which this stands.
fn with_paren(mut parens: Vec<Pending>, pending: Pending) -> Result<Vec<Pending>, AllocError>
    ensures { IfOk result (λ ps. ps.items ≡ parens.items ++ pending ∷ []) }
{
    parens.push(pending)?;
    Ok(parens)
}

/// Adds a place at the end.
fn with_place(mut places: Vec<usize>, place: usize) -> Result<Vec<usize>, AllocError>
    ensures { IfOk result (λ v. v.items ≡ places.items ++ place ∷ []) }
{
    places.push(place)?;
    Ok(places)
}

/// Where an operand is wanted.
pub fn at_want(
    parts: &mut TreeParts,
    alloc: Global,
    bytes: &[u8],
    expr: OpenExpr,
    token: Token,
) -> Result<State, Stop>
    requires ready { Ready token.start (lists_of parts.old) (State.Want expr) }
    requires token { TokenIn token }
    requires inside { token.end ≤ length bytes.now }
    ensures { Steps bytes.now (lists_of parts.old) (State.Want expr) token (lists_of parts.new) result }
{
    match token.kind {
        TokenKind::Number(n) => {
            let atom = add_expr(parts, Expr::Number(n), token.start)?;
            Ok(State::Have(expr, atom))
        }
        TokenKind::Name => {
            let word = read_word(parts, bytes, token)?;
            let atom = add_expr(parts, Expr::Variable(word.name), word.at)?;
            Ok(State::Have(expr, atom))
        }
        TokenKind::True => {
            let atom = add_expr(parts, Expr::True, token.start)?;
            Ok(State::Have(expr, atom))
        }
        TokenKind::False => {
            let atom = add_expr(parts, Expr::False, token.start)?;
            Ok(State::Have(expr, atom))
        }
        TokenKind::Random => {
            let atom = add_expr(parts, Expr::Random, token.start)?;
            Ok(State::Have(expr, atom))
        }
        TokenKind::Brandom => {
            let atom = add_expr(parts, Expr::Random, token.start)?;
            Ok(State::Have(expr, atom))
        }
        TokenKind::LeftParen => at_left(alloc, expr, token),
        TokenKind::Minus => at_minus(expr, token),
        TokenKind::Not => at_not(expr, token),
        _ => Err(Stop::Syntax),
    }
}

/// At the `(` before an operand.
fn at_left(alloc: Global, expr: OpenExpr, token: Token) -> Result<State, Stop>
    requires kind { token.kind ≡ TokenKind.LeftParen }
    ensures { Follows (State.Want expr) token result }
{
    let outer = with_paren(expr.parens, expr.pending)?;
    Ok(State::Want(OpenExpr {
        parens: outer,
        pending: nothing_before(alloc),
        ..expr
    }))
}

/// At the minus sign before an operand.
fn at_minus(expr: OpenExpr, token: Token) -> Result<State, Stop>
    requires kind { token.kind ≡ TokenKind.Minus }
    ensures { Follows (State.Want expr) token result }
{
    let next = with_minus(expr.pending, token.start)?;
    Ok(State::Want(OpenExpr {
        pending: next,
        ..expr
    }))
}

/// At the `not` before an operand.
fn at_not(expr: OpenExpr, token: Token) -> Result<State, Stop>
    requires kind { token.kind ≡ TokenKind.Not }
    ensures { Follows (State.Want expr) token result }
{
    if !takes_not(&expr.pending) {
        return Err(Stop::Syntax);
    }
    let next = with_not(expr.pending, token.start)?;
    Ok(State::Want(OpenExpr {
        pending: next,
        ..expr
    }))
}

/// Whether a negation may stand before this operand: nothing of a narrower level waits.
fn takes_not(pending: &Pending) -> bool
    ensures { result ≡ nothing_within pending.now }
{
    match (pending.comparison, pending.sum, pending.product) {
        (None, None, None) => pending.minuses.is_empty(),
        (None, None, Some(_)) => false,
        (None, Some(_), _) => false,
        (Some(_), _, _) => false,
    }
}

/// One more minus sign before an operand.
fn with_minus(pending: Pending, place: usize) -> Result<Pending, AllocError>
    ensures { IfOk result (λ p. AddsMinus pending place p) }
{
    let minuses = with_place(pending.minuses, place)?;
    Ok(Pending {
        either: pending.either,
        both: pending.both,
        nots: pending.nots,
        comparison: pending.comparison,
        sum: pending.sum,
        product: pending.product,
        minuses,
    })
}

/// One more negation before an operand.
fn with_not(pending: Pending, place: usize) -> Result<Pending, AllocError>
    ensures { IfOk result (λ p. AddsNot pending place p) }
{
    let nots = with_place(pending.nots, place)?;
    Ok(Pending {
        either: pending.either,
        both: pending.both,
        nots,
        comparison: pending.comparison,
        sum: pending.sum,
        product: pending.product,
        minuses: pending.minuses,
    })
}
