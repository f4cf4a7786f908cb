//! Steps at the words that end a block.

ghost use Rattle.std.specs.Prelude.{◌≡◌, ◌<◌, ◌≤◌, ◌+◌, ◌*◌, ◌^◌, length, List, ℕ, IfOk, [], ◌∷◌, ◌++◌};
ghost use Rattle.spl_tree.specs.Lists.{lists_of};
ghost use Rattle.spl_parser.specs.View.{Ready, TokenIn, Steps};

use crate::blocks::with_frame;
use crate::growing::{add_block, add_proc};
use crate::state::{Body, Closed, Frame, Head, State, Stop};
use spl_text::{Token, TokenKind};
use spl_tree::{MainTree, ProcAt, ProcTree, TreeParts};
use std::alloc::Global;

/// At the `else` of a conditional.
pub fn at_else(
    parts: &mut TreeParts,
    alloc: Global,
    mut body: Body,
    token: Token,
) -> Result<State, Stop>
    requires ready { Ready token.start (lists_of parts.old) (State.InBlock body) }
    requires token { TokenIn token }
    requires kind { token.kind ≡ TokenKind.Else }
    ensures { (source : List ℕ) → Steps source (lists_of parts.old) (State.InBlock body) token (lists_of parts.new) result }
{
    match body.frames.pop() {
        Some(Frame::Then { outer, front }) => {
            let block = add_block(parts, &body.stmts)?;
            let open = with_frame(
                body.frames,
                Frame::Else {
                    outer,
                    front,
                    block,
                    second: token.end,
                },
            )?;
            Ok(State::InBlock(Body {
                frames: open,
                stmts: Vec::new(alloc),
                ..body
            }))
        }
        Some(Frame::Else { .. }) => Err(Stop::Syntax),
        Some(Frame::While { .. }) => Err(Stop::Syntax),
        None => Err(Stop::Syntax),
    }
}

/// At the `endif` of a conditional.
pub fn at_endif(parts: &mut TreeParts, mut body: Body, token: Token) -> Result<State, Stop>
    requires ready { Ready token.start (lists_of parts.old) (State.InBlock body) }
    requires token { TokenIn token }
    requires kind { token.kind ≡ TokenKind.Endif }
    ensures { (source : List ℕ) → Steps source (lists_of parts.old) (State.InBlock body) token (lists_of parts.new) result }
{
    match body.frames.pop() {
        Some(Frame::Then { outer, front }) => {
            let block = add_block(parts, &body.stmts)?;
            body.stmts = outer;
            let closed = Closed::If {
                front,
                block,
                end: token.end,
            };
            Ok(State::AfterEnd(body, closed))
        }
        Some(
            Frame::Else {
                outer,
                front,
                block,
                second,
            },
        ) => {
            let other = add_block(parts, &body.stmts)?;
            body.stmts = outer;
            let closed = Closed::IfElse {
                front,
                block,
                second,
                other,
                end: token.end,
            };
            Ok(State::AfterEnd(body, closed))
        }
        Some(Frame::While { .. }) => Err(Stop::Syntax),
        None => Err(Stop::Syntax),
    }
}

/// At the `done` of a loop.
pub fn at_done(parts: &mut TreeParts, mut body: Body, token: Token) -> Result<State, Stop>
    requires ready { Ready token.start (lists_of parts.old) (State.InBlock body) }
    requires token { TokenIn token }
    requires kind { token.kind ≡ TokenKind.Done }
    ensures { (source : List ℕ) → Steps source (lists_of parts.old) (State.InBlock body) token (lists_of parts.new) result }
{
    match body.frames.pop() {
        Some(Frame::While { outer, front }) => {
            let block = add_block(parts, &body.stmts)?;
            body.stmts = outer;
            let closed = Closed::While {
                front,
                block,
                end: token.end,
            };
            Ok(State::AfterEnd(body, closed))
        }
        Some(Frame::Then { .. }) => Err(Stop::Syntax),
        Some(Frame::Else { .. }) => Err(Stop::Syntax),
        None => Err(Stop::Syntax),
    }
}

/// At the `end` of a body.
pub fn at_end(parts: &mut TreeParts, body: Body, token: Token) -> Result<State, Stop>
    requires ready { Ready token.start (lists_of parts.old) (State.InBlock body) }
    requires token { TokenIn token }
    requires kind { token.kind ≡ TokenKind.End }
    ensures { (source : List ℕ) → Steps source (lists_of parts.old) (State.InBlock body) token (lists_of parts.new) result }
{
    let Body {
        head,
        locals,
        begin,
        frames,
        stmts,
    } = body;
    if frames.len() > 0 {
        return Err(Stop::Syntax);
    }
    let block = add_block(parts, &stmts)?;
    match head {
        Head::Main => Ok(State::Finished(
            MainTree {
                locals,
                body: block,
            },
            begin,
        )),
        Head::Proc(opened) => {
            let procedure = ProcTree {
                name: opened.name.name,
                inputs: opened.inputs,
                outputs: opened.outputs,
                locals,
                body: block,
            };
            let places = ProcAt {
                name: opened.name.at,
                begin,
            };
            add_proc(parts, procedure, places)?;
            Ok(State::Start(Head::Main))
        }
    }
}
