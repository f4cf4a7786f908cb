//! The step that a token is, in each state.

ghost use Rattle.std.specs.Prelude.{◌≡◌, ◌<◌, ◌≤◌, ◌+◌, ◌*◌, ◌^◌, length, List, ℕ, IfOk, [], ◌∷◌, ◌++◌};
ghost use Rattle.spl_tree.specs.Lists.{lists_of};
ghost use Rattle.spl_parser.specs.View.{Ready, TokenIn, Steps};

use crate::bodies::{at_call_after, at_single, finish_closed, word_end};
use crate::exprs::{at_want, new_expr};
use crate::growing::add_expr;
use crate::heads::{
    at_begin, at_decl_name, at_decl_next, at_decl_open, at_inputs_after, at_proc_name,
    at_proc_word, at_returns_word, at_start,
};
use crate::lists::{
    at_called, at_called_name, at_decl_after, at_decl_colon, at_names_after, at_names_next,
    at_names_open, at_target, at_targets_after,
};
use crate::nesting::{at_done, at_else, at_end, at_endif};
use crate::operators::at_have;
use crate::state::{Body, CallHead, Closed, Goal, NameGoal, Simple, State, Stop, Targets, Word};
use crate::words::read_word;
use spl_text::{Token, TokenKind};
use spl_tree::{Expr, TreeParts};
use std::alloc::Global;

/// Between statements.
fn at_block(
    parts: &mut TreeParts,
    alloc: Global,
    bytes: &[u8],
    body: Body,
    token: Token,
) -> Result<State, Stop>
    requires ready { Ready token.start (lists_of parts.old) (State.InBlock body) }
    requires token { TokenIn token }
    requires inside { token.end ≤ length bytes.now }
    ensures { Steps bytes.now (lists_of parts.old) (State.InBlock body) token (lists_of parts.new) result }
{
    match token.kind {
        TokenKind::Skip => Ok(State::Single(body, Simple::Skip(token.start))),
        TokenKind::Halt => Ok(State::Single(body, Simple::Halt(token.start))),
        TokenKind::Fail => Ok(State::Single(body, Simple::Fail(token.start))),
        TokenKind::Assume => Ok(State::Want(new_expr(alloc, body, Goal::Assume(token.start)))),
        TokenKind::If => Ok(State::Want(new_expr(alloc, body, Goal::If(token.start)))),
        TokenKind::While => Ok(State::Want(new_expr(alloc, body, Goal::While(token.start)))),
        TokenKind::Name => {
            let name = read_word(parts, bytes, token)?;
            Ok(State::Target(body, name))
        }
        TokenKind::LeftParen => Ok(State::NamesOpen(body, NameGoal::Targets(token.start))),
        TokenKind::Else => at_else(parts, alloc, body, token),
        TokenKind::Endif => at_endif(parts, body, token),
        TokenKind::Done => at_done(parts, body, token),
        TokenKind::End => at_end(parts, body, token),
        _ => Err(Stop::Syntax),
    }
}

/// After a conditional or a loop: its `;`, or what follows in its block.
fn at_after_end(
    parts: &mut TreeParts,
    alloc: Global,
    bytes: &[u8],
    body: Body,
    closed: Closed,
    token: Token,
) -> Result<State, Stop>
    requires ready { Ready token.start (lists_of parts.old) (State.AfterEnd body closed) }
    requires token { TokenIn token }
    requires inside { token.end ≤ length bytes.now }
    ensures { Steps bytes.now (lists_of parts.old) (State.AfterEnd body closed) token (lists_of parts.new) result }
{
    match token.kind {
        TokenKind::Semicolon => {
            let next = finish_closed(parts, body, closed, token.end)?;
            Ok(State::InBlock(next))
        }
        _ => {
            let next = finish_closed(parts, body, closed, word_end(closed))?;
            at_block(parts, alloc, bytes, next, token)
        }
    }
}

/// After the sign of an assignment or a call.
fn at_assign_start(
    parts: &mut TreeParts,
    alloc: Global,
    bytes: &[u8],
    body: Body,
    target: Word,
    token: Token,
) -> Result<State, Stop>
    requires ready { Ready token.start (lists_of parts.old) (State.AssignStart body target) }
    requires token { TokenIn token }
    requires inside { token.end ≤ length bytes.now }
    ensures { Steps bytes.now (lists_of parts.old) (State.AssignStart body target) token (lists_of parts.new) result }
{
    match token.kind {
        TokenKind::Name => {
            let name = read_word(parts, bytes, token)?;
            Ok(State::AssignName { body, target, name })
        }
        _ => {
            let expr = new_expr(alloc, body, Goal::Assign(target));
            at_want(parts, alloc, bytes, expr, token)
        }
    }
}

/// After the first name of an assignment's value, which is a call's name where a parenthesis follows.
fn at_assign_name(
    parts: &mut TreeParts,
    alloc: Global,
    body: Body,
    target: Word,
    name: Word,
    token: Token,
) -> Result<State, Stop>
    requires ready { Ready token.start (lists_of parts.old) (State.AssignName body target name) }
    requires token { TokenIn token }
    ensures { (source : List ℕ) → Steps source (lists_of parts.old) (State.AssignName body target name) token (lists_of parts.new) result }
{
    match token.kind {
        TokenKind::LeftParen => {
            let call = CallHead {
                targets: Targets::One(target),
                called: name,
            };
            Ok(State::NamesOpen(body, NameGoal::Arguments(call)))
        }
        _ => {
            let atom = add_expr(parts, Expr::Variable(name.name), name.at)?;
            let expr = new_expr(alloc, body, Goal::Assign(target));
            at_have(parts, alloc, expr, atom, token)
        }
    }
}

/// The state after one more token.
pub fn step(
    parts: &mut TreeParts,
    alloc: Global,
    bytes: &[u8],
    state: State,
    token: Token,
) -> Result<State, Stop>
    requires ready { Ready token.start (lists_of parts.old) state }
    requires token { TokenIn token }
    requires inside { token.end ≤ length bytes.now }
    ensures { Steps bytes.now (lists_of parts.old) state token (lists_of parts.new) result }
{
    match state {
        State::Start(head) => at_start(alloc, head, token),
        State::Begin(head, locals) => at_begin(alloc, head, locals, token),
        State::ProcWord => at_proc_word(parts, bytes, token),
        State::ProcName(name) => at_proc_name(name, token),
        State::DeclOpen(goal) => at_decl_open(parts, bytes, goal, token),
        State::DeclNext(goal, before) => at_decl_next(parts, bytes, goal, before, token),
        State::DeclName { goal, before, name } => at_decl_name(goal, before, name, token),
        State::DeclColon { goal, before, name } => at_decl_colon(
            parts, bytes, goal, before, name, token,
        ),
        State::DeclAfter(goal, first) => at_decl_after(parts, goal, first, token),
        State::InputsAfter(name, inputs) => at_inputs_after(name, inputs, token),
        State::ReturnsWord(name, inputs) => at_returns_word(name, inputs, token),
        State::InBlock(body) => at_block(parts, alloc, bytes, body, token),
        State::Single(body, simple) => at_single(parts, body, simple, token),
        State::Target(body, name) => at_target(body, name, token),
        State::AssignStart(body, target) => at_assign_start(
            parts, alloc, bytes, body, target, token,
        ),
        State::AssignName { body, target, name } => at_assign_name(
            parts, alloc, body, target, name, token,
        ),
        State::Want(expr) => at_want(parts, alloc, bytes, expr, token),
        State::Have(expr, operand) => at_have(parts, alloc, expr, operand, token),
        State::NamesOpen(body, goal) => at_names_open(parts, bytes, body, goal, token),
        State::NamesNext { body, goal, first } => at_names_next(
            parts, bytes, body, goal, first, token,
        ),
        State::NamesAfter { body, goal, first } => at_names_after(parts, body, goal, first, token),
        State::TargetsAfter { body, start, list } => at_targets_after(body, start, list, token),
        State::Called(body, targets) => at_called(parts, bytes, body, targets, token),
        State::CalledName(body, call) => at_called_name(body, call, token),
        State::CallAfter(body, call, arguments) => at_call_after(
            parts, body, call, arguments, token,
        ),
        State::AfterEnd(body, closed) => at_after_end(parts, alloc, bytes, body, closed, token),
        State::Finished(_, _) => Err(Stop::Syntax),
    }
}
