//! Statements and blocks, over the lines of which they consist.
ghost use Rattle.std.specs.Prelude.{◌≡◌, ◌≤◌, ◌<◌, ◌^◌, length, OnOk, ◌+◌};
ghost use Rattle.spl_tree.specs.Meaning.{exprs_in, expr_at, stmts_in, stmt_at, block_over, second_over, if_over};
ghost use Rattle.spl_print.specs.Canonical.{stmt_lines, block_lines};
ghost use Rattle.spl_print.specs.Cursor.{IsPlaced};
ghost use Rattle.spl_print.specs.Nesting.{Nests, SecondNests, StmtNests, else_lines, while_lines};
ghost use Rattle.spl_print.specs.Writing.{Appends, block_in, second_in};

use crate::laws::law_tree;
use crate::lines::{put_assign_line, put_call_line, put_expr_line, put_line};
use crate::writer::{Source, Writer, put_point};
use spl_tree::{Block, ExprId, Stmt, StmtAt, StmtId};
use std::alloc::AllocError;

/// Appends the lines of a block: its first point, whose place is given, then each statement and the point after it.
#[cycle(nesting)]
pub fn put_block(
    writer: &mut Writer,
    source: &Source<'_>,
    indent: usize,
    start: usize,
    block: Block,
) -> Result<(), AllocError>
    requires small { length source.now.bytes.now ≤ 2 ^ 20 }
    requires placed { IsPlaced source.now.bytes.now writer.old.cursor }
    requires nests { Nests source.now.tree.now indent block }
    ensures wrote { OnOk result (Appends source.now (block_lines indent start (block_in source.now.tree.now block)) writer.old writer.new) }
    ensures placed { OnOk result (IsPlaced source.now.bytes.now writer.new.cursor) }
{
    law_tree(source.tree);
    put_point(writer, source, indent, start)?;
    for k in 0..block.count {
        let id = source.tree.stmt_item(block.first + k);
        put_stmt(writer, source, indent, id)?;
        put_point(writer, source, indent, source.tree.stmt_place(id).end)?;
    }
    Ok(())
}

/// Appends the lines of a statement.
#[cycle(nesting)]
fn put_stmt(
    writer: &mut Writer,
    source: &Source<'_>,
    indent: usize,
    id: StmtId,
) -> Result<(), AllocError>
    requires small { length source.now.bytes.now ≤ 2 ^ 20 }
    requires placed { IsPlaced source.now.bytes.now writer.old.cursor }
    requires nests { StmtNests source.now.tree.now indent id }
    ensures wrote { OnOk result (Appends source.now (stmt_lines indent (stmt_at (stmts_in source.now.tree.now) id)) writer.old writer.new) }
    ensures placed { OnOk result (IsPlaced source.now.bytes.now writer.new.cursor) }
{
    law_tree(source.tree);
    let at = source.tree.stmt_place(id);
    match source.tree.stmt(id) {
        Stmt::Skip => put_line(&mut writer.out, indent, b"skip;"),
        Stmt::Halt => put_line(&mut writer.out, indent, b"halt;"),
        Stmt::Fail => put_line(&mut writer.out, indent, b"fail;"),
        Stmt::Assume(condition) => put_expr_line(
            &mut writer.out,
            writer.alloc,
            source.tree,
            indent,
            b"assume ",
            condition,
            b";",
        ),
        Stmt::Assign(target, expr) => put_assign_line(
            &mut writer.out,
            writer.alloc,
            source.tree,
            indent,
            target,
            expr,
        ),
        Stmt::Call(targets, called, args) => {
            put_call_line(&mut writer.out, source.tree, indent, targets, called, args)
        }
        Stmt::If(condition, first, second) => {
            put_if(writer, source, indent, at, condition, first, second)
        }
        Stmt::While(condition, body) => {
            put_while(writer, source, indent, at.first_block, condition, body)
        }
    }
}

/// Appends the lines of a conditional.
#[cycle(nesting)]
fn put_if(
    writer: &mut Writer,
    source: &Source<'_>,
    indent: usize,
    at: StmtAt,
    condition: ExprId,
    first: Block,
    second: Option<Block>,
) -> Result<(), AllocError>
    requires small { length source.now.bytes.now ≤ 2 ^ 20 }
    requires placed { IsPlaced source.now.bytes.now writer.old.cursor }
    requires condition { condition.0 < length source.now.tree.now.exprs }
    requires first { Nests source.now.tree.now (indent + 2) first }
    requires second { SecondNests source.now.tree.now (indent + 2) second }
    ensures wrote { OnOk result (let t = source.now.tree.now in Appends source.now (stmt_lines indent (if_over (expr_at (exprs_in t) condition) (block_in t first) (second_in t second) at)) writer.old writer.new) }
    ensures placed { OnOk result (IsPlaced source.now.bytes.now writer.new.cursor) }
{
    put_expr_line(
        &mut writer.out,
        writer.alloc,
        source.tree,
        indent,
        b"if ",
        condition,
        b" then",
    )?;
    put_block(writer, source, indent + 2, at.first_block, first)?;
    put_else(writer, source, indent, at.second_block, second)?;
    put_line(&mut writer.out, indent, b"endif;")?;
    Ok(())
}

/// Appends `else` and its block, where there is one.
#[cycle(nesting)]
fn put_else(
    writer: &mut Writer,
    source: &Source<'_>,
    indent: usize,
    start: usize,
    second: Option<Block>,
) -> Result<(), AllocError>
    requires small { length source.now.bytes.now ≤ 2 ^ 20 }
    requires placed { IsPlaced source.now.bytes.now writer.old.cursor }
    requires second { SecondNests source.now.tree.now (indent + 2) second }
    ensures wrote { OnOk result (let t = source.now.tree.now in Appends source.now (else_lines indent start (second_in t second)) writer.old writer.new) }
    ensures placed { OnOk result (IsPlaced source.now.bytes.now writer.new.cursor) }
{
    let Some(block) = second else {
        return Ok(());
    };
    put_line(&mut writer.out, indent, b"else")?;
    put_block(writer, source, indent + 2, start, block)?;
    Ok(())
}

/// Appends the lines of a loop.
#[cycle(nesting)]
fn put_while(
    writer: &mut Writer,
    source: &Source<'_>,
    indent: usize,
    start: usize,
    condition: ExprId,
    body: Block,
) -> Result<(), AllocError>
    requires small { length source.now.bytes.now ≤ 2 ^ 20 }
    requires placed { IsPlaced source.now.bytes.now writer.old.cursor }
    requires condition { condition.0 < length source.now.tree.now.exprs }
    requires body { Nests source.now.tree.now (indent + 2) body }
    ensures wrote { OnOk result (let t = source.now.tree.now in Appends source.now (while_lines indent start (expr_at (exprs_in t) condition) (block_in t body)) writer.old writer.new) }
    ensures placed { OnOk result (IsPlaced source.now.bytes.now writer.new.cursor) }
{
    put_expr_line(
        &mut writer.out,
        writer.alloc,
        source.tree,
        indent,
        b"while ",
        condition,
        b" do",
    )?;
    put_block(writer, source, indent + 2, start, body)?;
    put_line(&mut writer.out, indent, b"done;")?;
    Ok(())
}
