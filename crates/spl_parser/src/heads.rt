//! Steps over the heads of procedures and bodies, up to `begin`.

ghost use Rattle.std.specs.Prelude.{◌≤◌, length, List, ℕ};
ghost use Rattle.spl_tree.specs.Lists.{lists_of};
ghost use Rattle.spl_parser.specs.View.{Follows, Ready, TokenIn, Steps, OpensBody, ClosesDecls};

use crate::state::{Before, Body, DeclGoal, Head, ProcHead, State, Stop, Word};
use crate::words::read_word;
use spl_text::{Token, TokenKind};
use spl_tree::{DeclList, TreeParts};
use std::alloc::Global;

/// A body that begins here.
fn new_body(alloc: Global, head: Head, locals: DeclList, begin: usize) -> Body
    ensures { OpensBody head locals begin result }
{
    Body {
        head,
        locals,
        begin,
        frames: Vec::new(alloc),
        stmts: Vec::new(alloc),
    }
}

/// Between procedures, or before the variables of a body.
pub fn at_start(alloc: Global, head: Head, token: Token) -> Result<State, Stop>
    ensures { Follows (State.Start head) token result }
{
    match token.kind {
        TokenKind::Proc => match head {
            Head::Main => Ok(State::ProcWord),
            Head::Proc(_) => Err(Stop::Syntax),
        },
        TokenKind::Var => Ok(State::DeclNext(DeclGoal::Locals(head), Before::First)),
        TokenKind::Begin => {
            let none = DeclList { first: 0, count: 0 };
            Ok(State::InBlock(new_body(alloc, head, none, token.start)))
        }
        _ => Err(Stop::Syntax),
    }
}

/// After a body's variables.
pub fn at_begin(alloc: Global, head: Head, locals: DeclList, token: Token) -> Result<State, Stop>
    ensures { Follows (State.Begin head locals) token result }
{
    match token.kind {
        TokenKind::Begin => Ok(State::InBlock(new_body(alloc, head, locals, token.start))),
        _ => Err(Stop::Syntax),
    }
}

/// After the word `proc`.
pub fn at_proc_word(parts: &mut TreeParts, bytes: &[u8], token: Token) -> Result<State, Stop>
    requires ready { Ready token.start (lists_of parts.old) State.ProcWord }
    requires token { TokenIn token }
    requires inside { token.end ≤ length bytes.now }
    ensures { Steps bytes.now (lists_of parts.old) State.ProcWord token (lists_of parts.new) result }
{
    match token.kind {
        TokenKind::Name => {
            let name = read_word(parts, bytes, token)?;
            Ok(State::ProcName(name))
        }
        _ => Err(Stop::Syntax),
    }
}

/// After a procedure's name.
pub fn at_proc_name(name: Word, token: Token) -> Result<State, Stop>
    ensures { Follows (State.ProcName name) token result }
{
    match token.kind {
        TokenKind::LeftParen => Ok(State::DeclOpen(DeclGoal::Inputs(name))),
        _ => Err(Stop::Syntax),
    }
}

/// After a procedure's inputs.
pub fn at_inputs_after(name: Word, inputs: DeclList, token: Token) -> Result<State, Stop>
    ensures { Follows (State.InputsAfter name inputs) token result }
{
    match token.kind {
        TokenKind::Returns => Ok(State::ReturnsWord(name, inputs)),
        _ => Err(Stop::Syntax),
    }
}

/// After the word `returns`.
pub fn at_returns_word(name: Word, inputs: DeclList, token: Token) -> Result<State, Stop>
    ensures { Follows (State.ReturnsWord name inputs) token result }
{
    match token.kind {
        TokenKind::LeftParen => Ok(State::DeclOpen(DeclGoal::Outputs(name, inputs))),
        _ => Err(Stop::Syntax),
    }
}

/// Before the first declaration of a list in parentheses, or its end.
pub fn at_decl_open(
    parts: &mut TreeParts,
    bytes: &[u8],
    goal: DeclGoal,
    token: Token,
) -> Result<State, Stop>
    requires ready { Ready token.start (lists_of parts.old) (State.DeclOpen goal) }
    requires token { TokenIn token }
    requires inside { token.end ≤ length bytes.now }
    ensures { Steps bytes.now (lists_of parts.old) (State.DeclOpen goal) token (lists_of parts.new) result }
{
    match token.kind {
        TokenKind::Name => {
            let name = read_word(parts, bytes, token)?;
            Ok(State::DeclName {
                goal,
                before: Before::First,
                name,
            })
        }
        TokenKind::RightParen => decls_close(goal, DeclList { first: 0, count: 0 }),
        _ => Err(Stop::Syntax),
    }
}

/// The state after the `)` of a list of declarations.
pub fn decls_close(goal: DeclGoal, list: DeclList) -> Result<State, Stop>
    ensures { ClosesDecls goal list result }
{
    match goal {
        DeclGoal::Inputs(name) => Ok(State::InputsAfter(name, list)),
        DeclGoal::Outputs(name, inputs) => Ok(State::Start(Head::Proc(ProcHead {
            name,
            inputs,
            outputs: list,
        }))),
        DeclGoal::Locals(_) => Err(Stop::Syntax),
    }
}

/// Before a declaration.
pub fn at_decl_next(
    parts: &mut TreeParts,
    bytes: &[u8],
    goal: DeclGoal,
    before: Before,
    token: Token,
) -> Result<State, Stop>
    requires ready { Ready token.start (lists_of parts.old) (State.DeclNext goal before) }
    requires token { TokenIn token }
    requires inside { token.end ≤ length bytes.now }
    ensures { Steps bytes.now (lists_of parts.old) (State.DeclNext goal before) token (lists_of parts.new) result }
{
    match token.kind {
        TokenKind::Name => {
            let name = read_word(parts, bytes, token)?;
            Ok(State::DeclName { goal, before, name })
        }
        _ => Err(Stop::Syntax),
    }
}

/// After a declaration's name.
pub fn at_decl_name(goal: DeclGoal, before: Before, name: Word, token: Token) -> Result<State, Stop>
    ensures { Follows (State.DeclName goal before name) token result }
{
    match token.kind {
        TokenKind::Colon => Ok(State::DeclColon { goal, before, name }),
        _ => Err(Stop::Syntax),
    }
}
