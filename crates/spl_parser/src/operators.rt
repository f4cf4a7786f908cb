//! Steps after an operand.

ghost use Rattle.std.specs.Prelude.{◌≡◌, ◌<◌, ◌≤◌, ◌+◌, ◌*◌, ◌^◌, length, List, ℕ, IfOk, [], ◌∷◌, ◌++◌};
ghost use Rattle.spl_tree.specs.Lists.{lists_of};
ghost use Rattle.spl_parser.specs.View.{Ready, TokenIn, Steps, Shifts, sign_of, PendingIn, ExprThere, waiting};
ghost use Rattle.spl_tree.specs.Facts.{IsTree, IsPlace};
ghost use Rattle.spl_parser.specs.Growth.{grown};

use crate::blocks::{finish_stmt, open_then, open_while, plain_places};
use crate::operands::{closed_conjunct, closed_product, closed_sum, closed_whole};
use crate::state::{Front, Goal, Left, OpenExpr, Pending, Side, Sign, State, Stop};
use spl_text::{Token, TokenKind};
use spl_tree::{BinOp, ExprId, Stmt, TreeParts};
use std::alloc::{AllocError, Global};

/// What a token is after an operand.
fn sign_of(kind: TokenKind) -> Sign
    ensures { result ≡ sign_of kind }
{
    match kind {
        TokenKind::Star => Sign::Product(BinOp::Mul),
        TokenKind::Slash => Sign::Product(BinOp::Div),
        TokenKind::Percent => Sign::Product(BinOp::Rem),
        TokenKind::Plus => Sign::Sum(BinOp::Add),
        TokenKind::Minus => Sign::Sum(BinOp::Sub),
        TokenKind::Equal => Sign::Comparison(BinOp::Eq),
        TokenKind::NotEqual => Sign::Comparison(BinOp::Ne),
        TokenKind::Less => Sign::Comparison(BinOp::Lt),
        TokenKind::LessEqual => Sign::Comparison(BinOp::Le),
        TokenKind::Greater => Sign::Comparison(BinOp::Gt),
        TokenKind::GreaterEqual => Sign::Comparison(BinOp::Ge),
        TokenKind::And => Sign::And,
        TokenKind::Or => Sign::Or,
        TokenKind::RightParen => Sign::Right,
        TokenKind::Semicolon => Sign::Semicolon,
        TokenKind::Then => Sign::Then,
        TokenKind::Do => Sign::Do,
        _ => Sign::Other,
    }
}

/// What waits after a product sign.
fn after_product(
    parts: &mut TreeParts,
    alloc: Global,
    pending: Pending,
    operand: ExprId,
    operator: BinOp,
    place: usize,
) -> Result<Pending, AllocError>
    requires tree { IsTree (lists_of parts.old) }
    requires room { length (grown (lists_of parts.old)).exprs + waiting pending ≤ 2 ^ 20 }
    requires pending { PendingIn (grown (lists_of parts.old)) pending }
    requires there { ExprThere (grown (lists_of parts.old)) operand }
    requires placed { IsPlace place }
    ensures { IfOk result (λ q. Shifts (lists_of parts.old) (lists_of parts.new) pending operand (Sign.Product operator) place q) }
{
    let Pending {
        either,
        both,
        nots,
        comparison,
        sum,
        product,
        minuses,
    } = pending;
    let left = closed_product(parts, product, minuses, operand)?;
    Ok(Pending {
        either,
        both,
        nots,
        comparison,
        sum,
        product: Some(Left {
            operand: left,
            operator,
            place,
        }),
        minuses: Vec::new(alloc),
    })
}

/// What waits after a sum sign.
fn after_sum(
    parts: &mut TreeParts,
    alloc: Global,
    pending: Pending,
    operand: ExprId,
    operator: BinOp,
    place: usize,
) -> Result<Pending, AllocError>
    requires tree { IsTree (lists_of parts.old) }
    requires room { length (grown (lists_of parts.old)).exprs + waiting pending ≤ 2 ^ 20 }
    requires pending { PendingIn (grown (lists_of parts.old)) pending }
    requires there { ExprThere (grown (lists_of parts.old)) operand }
    requires placed { IsPlace place }
    ensures { IfOk result (λ q. Shifts (lists_of parts.old) (lists_of parts.new) pending operand (Sign.Sum operator) place q) }
{
    let Pending {
        either,
        both,
        nots,
        comparison,
        sum,
        product,
        minuses,
    } = pending;
    let left = closed_sum(parts, sum, product, minuses, operand)?;
    Ok(Pending {
        either,
        both,
        nots,
        comparison,
        sum: Some(Left {
            operand: left,
            operator,
            place,
        }),
        product: None,
        minuses: Vec::new(alloc),
    })
}

/// What waits after a comparison, where none waits.
fn after_comparison(
    parts: &mut TreeParts,
    alloc: Global,
    pending: Pending,
    operand: ExprId,
    operator: BinOp,
    place: usize,
) -> Result<Pending, AllocError>
    requires tree { IsTree (lists_of parts.old) }
    requires room { length (grown (lists_of parts.old)).exprs + waiting pending ≤ 2 ^ 20 }
    requires pending { PendingIn (grown (lists_of parts.old)) pending }
    requires there { ExprThere (grown (lists_of parts.old)) operand }
    requires first { pending.comparison ≡ None }
    requires placed { IsPlace place }
    ensures { IfOk result (λ q. Shifts (lists_of parts.old) (lists_of parts.new) pending operand (Sign.Comparison operator) place q) }
{
    let Pending {
        either,
        both,
        nots,
        comparison: _,
        sum,
        product,
        minuses,
    } = pending;
    let left = closed_sum(parts, sum, product, minuses, operand)?;
    Ok(Pending {
        either,
        both,
        nots,
        comparison: Some(Left {
            operand: left,
            operator,
            place,
        }),
        sum: None,
        product: None,
        minuses: Vec::new(alloc),
    })
}

/// What waits after `and`.
fn after_and(
    parts: &mut TreeParts,
    alloc: Global,
    pending: Pending,
    operand: ExprId,
    place: usize,
) -> Result<Pending, AllocError>
    requires tree { IsTree (lists_of parts.old) }
    requires room { length (grown (lists_of parts.old)).exprs + waiting pending ≤ 2 ^ 20 }
    requires pending { PendingIn (grown (lists_of parts.old)) pending }
    requires there { ExprThere (grown (lists_of parts.old)) operand }
    requires placed { IsPlace place }
    ensures { IfOk result (λ q. Shifts (lists_of parts.old) (lists_of parts.new) pending operand Sign.And place q) }
{
    let either = pending.either;
    let left = closed_conjunct(parts, pending, operand)?;
    Ok(Pending {
        either,
        both: Some(Side {
            operand: left,
            place,
        }),
        nots: Vec::new(alloc),
        comparison: None,
        sum: None,
        product: None,
        minuses: Vec::new(alloc),
    })
}

/// What waits after `or`.
fn after_or(
    parts: &mut TreeParts,
    alloc: Global,
    pending: Pending,
    operand: ExprId,
    place: usize,
) -> Result<Pending, AllocError>
    requires tree { IsTree (lists_of parts.old) }
    requires room { length (grown (lists_of parts.old)).exprs + waiting pending ≤ 2 ^ 20 }
    requires pending { PendingIn (grown (lists_of parts.old)) pending }
    requires there { ExprThere (grown (lists_of parts.old)) operand }
    requires placed { IsPlace place }
    ensures { IfOk result (λ q. Shifts (lists_of parts.old) (lists_of parts.new) pending operand Sign.Or place q) }
{
    let left = closed_whole(parts, pending, operand)?;
    Ok(Pending {
        either: Some(Side {
            operand: left,
            place,
        }),
        both: None,
        nots: Vec::new(alloc),
        comparison: None,
        sum: None,
        product: None,
        minuses: Vec::new(alloc),
    })
}

/// After an operand.
pub fn at_have(
    parts: &mut TreeParts,
    alloc: Global,
    expr: OpenExpr,
    operand: ExprId,
    token: Token,
) -> Result<State, Stop>
    requires ready { Ready token.start (lists_of parts.old) (State.Have expr operand) }
    requires token { TokenIn token }
    ensures { (source : List ℕ) → Steps source (lists_of parts.old) (State.Have expr operand) token (lists_of parts.new) result }
{
    match sign_of(token.kind) {
        Sign::Product(operator) => {
            let next = after_product(parts, alloc, expr.pending, operand, operator, token.start)?;
            Ok(State::Want(OpenExpr {
                pending: next,
                ..expr
            }))
        }
        Sign::Sum(operator) => {
            let next = after_sum(parts, alloc, expr.pending, operand, operator, token.start)?;
            Ok(State::Want(OpenExpr {
                pending: next,
                ..expr
            }))
        }
        Sign::Comparison(operator) => at_comparison(parts, alloc, expr, operand, operator, token),
        Sign::And => {
            let next = after_and(parts, alloc, expr.pending, operand, token.start)?;
            Ok(State::Want(OpenExpr {
                pending: next,
                ..expr
            }))
        }
        Sign::Or => {
            let next = after_or(parts, alloc, expr.pending, operand, token.start)?;
            Ok(State::Want(OpenExpr {
                pending: next,
                ..expr
            }))
        }
        Sign::Right => at_right(parts, expr, operand, token),
        Sign::Semicolon => at_semicolon(parts, expr, operand, token),
        Sign::Then => at_then(parts, alloc, expr, operand, token),
        Sign::Do => at_do(parts, alloc, expr, operand, token),
        Sign::Other => Err(Stop::Syntax),
    }
}

/// At a comparison sign.
fn at_comparison(
    parts: &mut TreeParts,
    alloc: Global,
    expr: OpenExpr,
    operand: ExprId,
    operator: BinOp,
    token: Token,
) -> Result<State, Stop>
    requires ready { Ready token.start (lists_of parts.old) (State.Have expr operand) }
    requires token { TokenIn token }
    requires sign { sign_of token.kind ≡ Sign.Comparison operator }
    ensures { (source : List ℕ) → Steps source (lists_of parts.old) (State.Have expr operand) token (lists_of parts.new) result }
{
    match expr.pending.comparison {
        Some(_) => Err(Stop::Syntax),
        None => {
            let next = after_comparison(
                parts,
                alloc,
                expr.pending,
                operand,
                operator,
                token.start,
            )?;
            Ok(State::Want(OpenExpr {
                pending: next,
                ..expr
            }))
        }
    }
}

/// At the `)` of an expression.
fn at_right(
    parts: &mut TreeParts,
    expr: OpenExpr,
    operand: ExprId,
    token: Token,
) -> Result<State, Stop>
    requires ready { Ready token.start (lists_of parts.old) (State.Have expr operand) }
    requires token { TokenIn token }
    requires sign { sign_of token.kind ≡ Sign.Right }
    ensures { (source : List ℕ) → Steps source (lists_of parts.old) (State.Have expr operand) token (lists_of parts.new) result }
{
    let mut parens = expr.parens;
    match parens.pop() {
        Some(outer) => {
            let whole = closed_whole(parts, expr.pending, operand)?;
            let wider = OpenExpr {
                body: expr.body,
                goal: expr.goal,
                parens,
                pending: outer,
            };
            Ok(State::Have(wider, whole))
        }
        None => Err(Stop::Syntax),
    }
}

/// At the `;` after an expression.
fn at_semicolon(
    parts: &mut TreeParts,
    expr: OpenExpr,
    operand: ExprId,
    token: Token,
) -> Result<State, Stop>
    requires ready { Ready token.start (lists_of parts.old) (State.Have expr operand) }
    requires token { TokenIn token }
    requires sign { sign_of token.kind ≡ Sign.Semicolon }
    ensures { (source : List ℕ) → Steps source (lists_of parts.old) (State.Have expr operand) token (lists_of parts.new) result }
{
    if expr.parens.len() > 0 {
        return Err(Stop::Syntax);
    }
    match expr.goal {
        Goal::Assume(start) => {
            let whole = closed_whole(parts, expr.pending, operand)?;
            let places = plain_places(start, token.end);
            let next = finish_stmt(parts, expr.body, Stmt::Assume(whole), places)?;
            Ok(State::InBlock(next))
        }
        Goal::Assign(target) => {
            let whole = closed_whole(parts, expr.pending, operand)?;
            let places = plain_places(target.at, token.end);
            let next = finish_stmt(parts, expr.body, Stmt::Assign(target.name, whole), places)?;
            Ok(State::InBlock(next))
        }
        Goal::If(_) => Err(Stop::Syntax),
        Goal::While(_) => Err(Stop::Syntax),
    }
}

/// At the `then` after a condition.
fn at_then(
    parts: &mut TreeParts,
    alloc: Global,
    expr: OpenExpr,
    operand: ExprId,
    token: Token,
) -> Result<State, Stop>
    requires ready { Ready token.start (lists_of parts.old) (State.Have expr operand) }
    requires token { TokenIn token }
    requires sign { sign_of token.kind ≡ Sign.Then }
    ensures { (source : List ℕ) → Steps source (lists_of parts.old) (State.Have expr operand) token (lists_of parts.new) result }
{
    if expr.parens.len() > 0 {
        return Err(Stop::Syntax);
    }
    match expr.goal {
        Goal::If(start) => {
            let whole = closed_whole(parts, expr.pending, operand)?;
            let front = Front {
                start,
                condition: whole,
                first: token.end,
            };
            let next = open_then(alloc, expr.body, front)?;
            Ok(State::InBlock(next))
        }
        Goal::Assume(_) => Err(Stop::Syntax),
        Goal::Assign(_) => Err(Stop::Syntax),
        Goal::While(_) => Err(Stop::Syntax),
    }
}

/// At the `do` after a condition.
fn at_do(
    parts: &mut TreeParts,
    alloc: Global,
    expr: OpenExpr,
    operand: ExprId,
    token: Token,
) -> Result<State, Stop>
    requires ready { Ready token.start (lists_of parts.old) (State.Have expr operand) }
    requires token { TokenIn token }
    requires sign { sign_of token.kind ≡ Sign.Do }
    ensures { (source : List ℕ) → Steps source (lists_of parts.old) (State.Have expr operand) token (lists_of parts.new) result }
{
    if expr.parens.len() > 0 {
        return Err(Stop::Syntax);
    }
    match expr.goal {
        Goal::While(start) => {
            let whole = closed_whole(parts, expr.pending, operand)?;
            let front = Front {
                start,
                condition: whole,
                first: token.end,
            };
            let next = open_while(alloc, expr.body, front)?;
            Ok(State::InBlock(next))
        }
        Goal::Assume(_) => Err(Stop::Syntax),
        Goal::Assign(_) => Err(Stop::Syntax),
        Goal::If(_) => Err(Stop::Syntax),
    }
}
