//! Statements that end, and blocks that open.

ghost use Rattle.std.specs.Prelude.{◌≡◌, ◌<◌, ◌≤◌, ◌+◌, ◌*◌, ◌^◌, length, List, ℕ, IfOk, [], ◌∷◌, ◌++◌};
ghost use Rattle.spl_tree.specs.Lists.{lists_of};
ghost use Rattle.spl_tree.specs.Facts.{IsTree, StmtIsPlaced};
ghost use Rattle.spl_parser.specs.Growth.{grown, StmtIn};
ghost use Rattle.spl_parser.specs.TreeOf.{plain_at, call_at, block_at};
ghost use Rattle.spl_parser.specs.View.{BodyIn, AddsStmt, OpensBlock};

use crate::growing::add_stmt;
use crate::state::{Body, Frame, Front};
use spl_tree::{Stmt, StmtAt, StmtId, TreeParts};
use std::alloc::{AllocError, Global};

/// The places of a statement without blocks.
pub fn plain_places(start: usize, end: usize) -> StmtAt
    ensures { result ≡ plain_at start end }
{
    StmtAt {
        start,
        called: start,
        first_block: start,
        second_block: start,
        end,
    }
}

/// The places of a call.
pub fn call_places(start: usize, called: usize, end: usize) -> StmtAt
    ensures { result ≡ call_at start called end }
{
    StmtAt {
        start,
        called,
        first_block: start,
        second_block: start,
        end,
    }
}

/// The places of a statement with blocks.
pub fn block_places(start: usize, first: usize, second: usize, end: usize) -> StmtAt
    ensures { result ≡ block_at start first second end }
{
    StmtAt {
        start,
        called: start,
        first_block: first,
        second_block: second,
        end,
    }
}

/// Adds a statement at the end.
fn with_id(mut ids: Vec<StmtId>, id: StmtId) -> Result<Vec<StmtId>, AllocError>
    ensures { IfOk result (λ v. v.items ≡ ids.items ++ id ∷ []) }
{
    ids.push(id)?;
    Ok(ids)
}

/// Adds an open block at the end.
pub fn with_frame(mut frames: Vec<Frame>, frame: Frame) -> Result<Vec<Frame>, AllocError>
    ensures { IfOk result (λ v. v.items ≡ frames.items ++ frame ∷ []) }
{
    frames.push(frame)?;
    Ok(frames)
}

/// The body with one more statement in its innermost block.
pub fn finish_stmt(
    parts: &mut TreeParts,
    body: Body,
    stmt: Stmt,
    place: StmtAt,
) -> Result<Body, AllocError>
    requires tree { IsTree (lists_of parts.old) }
    requires few { length (grown (lists_of parts.old)).stmts < 2 ^ 20 }
    requires placed { StmtIsPlaced place }
    requires fits { StmtIn (grown (lists_of parts.old)) stmt }
    requires body { BodyIn (grown (lists_of parts.old)) body }
    ensures { IfOk result (λ b. AddsStmt (lists_of parts.old) (lists_of parts.new) body stmt place b) }
{
    let id = add_stmt(parts, stmt, place)?;
    let Body {
        head,
        locals,
        begin,
        frames,
        stmts,
    } = body;
    let longer = with_id(stmts, id)?;
    Ok(Body {
        head,
        locals,
        begin,
        frames,
        stmts: longer,
    })
}

/// The body with an open conditional.
pub fn open_then(alloc: Global, body: Body, front: Front) -> Result<Body, AllocError>
    ensures { IfOk result (λ b. OpensBlock body (Frame.Then body.stmts front) b) }
{
    let Body {
        head,
        locals,
        begin,
        frames,
        stmts,
    } = body;
    let outer = with_frame(
        frames,
        Frame::Then {
            outer: stmts,
            front,
        },
    )?;
    Ok(Body {
        head,
        locals,
        begin,
        frames: outer,
        stmts: Vec::new(alloc),
    })
}

/// The body with an open loop.
pub fn open_while(alloc: Global, body: Body, front: Front) -> Result<Body, AllocError>
    ensures { IfOk result (λ b. OpensBlock body (Frame.While body.stmts front) b) }
{
    let Body {
        head,
        locals,
        begin,
        frames,
        stmts,
    } = body;
    let outer = with_frame(
        frames,
        Frame::While {
            outer: stmts,
            front,
        },
    )?;
    Ok(Body {
        head,
        locals,
        begin,
        frames: outer,
        stmts: Vec::new(alloc),
    })
}
