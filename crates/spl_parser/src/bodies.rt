//! Steps within a body, between statements.

ghost use Rattle.std.specs.Prelude.{◌≡◌, ◌<◌, ◌≤◌, ◌+◌, ◌*◌, ◌^◌, length, List, ℕ, IfOk, [], ◌∷◌, ◌++◌};
ghost use Rattle.spl_tree.specs.Lists.{lists_of};
ghost use Rattle.spl_tree.specs.Facts.{IsTree, IsPlace};
ghost use Rattle.spl_parser.specs.Growth.{grown};
ghost use Rattle.spl_parser.specs.View.{Follows, Ready, TokenIn, Steps, BodyIn, ClosedIn, AddsStmt, closed_stmt, closed_place, closed_word};

use crate::blocks::{block_places, call_places, finish_stmt, plain_places};
use crate::growing::add_named;
use crate::state::{Body, CallHead, Closed, Simple, State, Stop, Targets};
use spl_text::{Token, TokenKind};
use spl_tree::{NameList, Stmt, TreeParts};
use std::alloc::AllocError;

/// After a statement's one word.
pub fn at_single(
    parts: &mut TreeParts,
    body: Body,
    simple: Simple,
    token: Token,
) -> Result<State, Stop>
    requires ready { Ready token.start (lists_of parts.old) (State.Single body simple) }
    requires token { TokenIn token }
    ensures { (source : List ℕ) → Steps source (lists_of parts.old) (State.Single body simple) token (lists_of parts.new) result }
{
    match token.kind {
        TokenKind::Semicolon => match simple {
            Simple::Skip(start) => {
                let places = plain_places(start, token.end);
                let next = finish_stmt(parts, body, Stmt::Skip, places)?;
                Ok(State::InBlock(next))
            }
            Simple::Halt(start) => {
                let places = plain_places(start, token.end);
                let next = finish_stmt(parts, body, Stmt::Halt, places)?;
                Ok(State::InBlock(next))
            }
            Simple::Fail(start) => {
                let places = plain_places(start, token.end);
                let next = finish_stmt(parts, body, Stmt::Fail, places)?;
                Ok(State::InBlock(next))
            }
        },
        _ => Err(Stop::Syntax),
    }
}

/// After the arguments of a call.
pub fn at_call_after(
    parts: &mut TreeParts,
    body: Body,
    call: CallHead,
    arguments: NameList,
    token: Token,
) -> Result<State, Stop>
    requires ready { Ready token.start (lists_of parts.old) (State.CallAfter body call arguments) }
    requires token { TokenIn token }
    ensures { (source : List ℕ) → Steps source (lists_of parts.old) (State.CallAfter body call arguments) token (lists_of parts.new) result }
{
    match token.kind {
        TokenKind::Semicolon => match call.targets {
            Targets::One(target) => {
                let first = add_named(parts, target.name, target.at)?;
                let list = NameList { first, count: 1 };
                let places = call_places(target.at, call.called.at, token.end);
                let next = finish_stmt(
                    parts,
                    body,
                    Stmt::Call(list, call.called.name, arguments),
                    places,
                )?;
                Ok(State::InBlock(next))
            }
            Targets::List(start, list) => {
                let places = call_places(start, call.called.at, token.end);
                let next = finish_stmt(
                    parts,
                    body,
                    Stmt::Call(list, call.called.name, arguments),
                    places,
                )?;
                Ok(State::InBlock(next))
            }
        },
        _ => Err(Stop::Syntax),
    }
}

/// The statement that a conditional or a loop is, in its body. Its last place is this end.
pub fn finish_closed(
    parts: &mut TreeParts,
    body: Body,
    closed: Closed,
    end: usize,
) -> Result<Body, AllocError>
    requires tree { IsTree (lists_of parts.old) }
    requires few { length (grown (lists_of parts.old)).stmts < 2 ^ 20 }
    requires placed { IsPlace end }
    requires closed { ClosedIn (grown (lists_of parts.old)) closed }
    requires body { BodyIn (grown (lists_of parts.old)) body }
    ensures { IfOk result (λ b. AddsStmt (lists_of parts.old) (lists_of parts.new) body (closed_stmt closed) (closed_place closed end) b) }
{
    match closed {
        Closed::If { front, block, .. } => {
            let places = block_places(front.start, front.first, front.start, end);
            let next = finish_stmt(parts, body, Stmt::If(front.condition, block, None), places)?;
            Ok(next)
        }
        Closed::IfElse {
            front,
            block,
            second,
            other,
            ..
        } => {
            let places = block_places(front.start, front.first, second, end);
            let conditional = Stmt::If(front.condition, block, Some(other));
            let next = finish_stmt(parts, body, conditional, places)?;
            Ok(next)
        }
        Closed::While { front, block, .. } => {
            let places = block_places(front.start, front.first, front.start, end);
            let next = finish_stmt(parts, body, Stmt::While(front.condition, block), places)?;
            Ok(next)
        }
    }
}

/// Where the last word of a conditional or a loop ends.
pub fn word_end(closed: Closed) -> usize
    ensures { result ≡ closed_word closed }
{
    match closed {
        Closed::If { end, .. } => end,
        Closed::IfElse { end, .. } => end,
        Closed::While { end, .. } => end,
    }
}
