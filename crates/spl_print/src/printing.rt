//! The report: the program with what is noted of its points, then the closing lines.
ghost use Rattle.std.specs.Prelude.{◌≡◌, ◌++◌, ◌<◌, ◌≤◌, ◌^◌, length, slice_index_or, OnOk, IfOk};
ghost use Rattle.std.specs.List.{flat_map};
ghost use Rattle.spl_tree.specs.Facts.{HasDecls, HasBlock, IsPlace};
ghost use Rattle.spl_tree.specs.Program.{ProcMeaning};
ghost use Rattle.spl_tree.specs.Meaning.{decls_in, decls_over, stmts_in, block_over, program_of};
ghost use Rattle.spl_tree.specs.Laws.{procs_in};
ghost use Rattle.spl_print.specs.Canonical.{proc_lines, body_lines, program_lines, point_lines, closing_line, canonical};
ghost use Rattle.spl_print.specs.Cursor.{IsPlaced};
ghost use Rattle.spl_print.specs.Writing.{Appends, block_in};

use crate::blocks::put_block;
use crate::laws::law_tree;
use crate::lines::{put_heading, put_line, put_locals};
use crate::notes::Notes;
use crate::place_cursor::PlaceCursor;
use crate::writer::{Source, Writer};
use spl_tree::{Block, DeclList, Tree};
use spl_types::{Checked, NoMemory};
use std::alloc::{AllocError, Global};

/// The length of the word `begin`, just past which the first point of a body is.
const BEGIN_LENGTH: usize = 5;

/// The canonical text of a program that was read from these bytes, with a note at each printed point and the closing
/// lines behind it; `NoMemory` where it finds no room.
pub fn print(
    alloc: Global,
    bytes: &[u8],
    checked: &Checked,
    notes: &Notes,
) -> Result<Vec<u8>, NoMemory>
    requires short { length bytes.now ≤ 2 ^ 20 }
    requires noted { length notes.now.points ≡ point_lines (program_lines (program_of checked.now)) }
    ensures text { IfOk result (λ text. text.items ≡ canonical bytes.now (program_of checked.now) notes.now) }
{
    let text = print_tree(alloc, bytes, checked.tree(), notes)?;
    Ok(text)
}

/// The same of a tree, which may break checks. A point for which there is no note has no line.
///
/// The places of the points in the text that was read cost one walk over it, where the tree's offsets rise.
pub fn print_tree(
    alloc: Global,
    bytes: &[u8],
    tree: &Tree,
    notes: &Notes,
) -> Result<Vec<u8>, NoMemory>
    requires short { length bytes.now ≤ 2 ^ 20 }
    ensures text { IfOk result (λ text. text.items ≡ canonical bytes.now (program_of tree.now) notes.now) }
{
    let text = report(alloc, bytes, tree, notes)?;
    Ok(text)
}

/// The same, with the allocator's own error.
fn report(alloc: Global, bytes: &[u8], tree: &Tree, notes: &Notes) -> Result<Vec<u8>, AllocError>
    requires { length bytes.now ≤ 2 ^ 20 }
    ensures { IfOk result (λ text. text.items ≡ canonical bytes.now (program_of tree.now) notes.now) }
{
    let source = Source { tree, bytes, notes };
    let mut writer = Writer {
        alloc,
        out: Vec::new(alloc),
        cursor: PlaceCursor::start(bytes),
        noted: 0,
    };
    put_program(&mut writer, &source)?;
    let mut out = writer.out;
    put_closing(&mut out, notes)?;
    Ok(out)
}

/// Appends the lines of the program.
fn put_program(writer: &mut Writer, source: &Source<'_>) -> Result<(), AllocError>
    requires small { length source.now.bytes.now ≤ 2 ^ 20 }
    requires placed { IsPlaced source.now.bytes.now writer.old.cursor }
    ensures { OnOk result (Appends source.now (program_lines (program_of source.now.tree.now)) writer.old writer.new) }
{
    law_tree(source.tree);
    put_procs(writer, source)?;
    let main = source.tree.main_tree();
    put_body(
        writer,
        source,
        main.locals,
        source.tree.main_begin(),
        main.body,
    )?;
    Ok(())
}

/// Appends the lines of the procedures.
fn put_procs(writer: &mut Writer, source: &Source<'_>) -> Result<(), AllocError>
    requires small { length source.now.bytes.now ≤ 2 ^ 20 }
    requires placed { IsPlaced source.now.bytes.now writer.old.cursor }
    ensures wrote { OnOk result (Appends source.now (flat_map proc_lines (procs_in source.now.tree.now)) writer.old writer.new) }
    ensures placed { OnOk result (IsPlaced source.now.bytes.now writer.new.cursor) }
{
    law_tree(source.tree);
    for p in 0..source.tree.proc_count() {
        put_proc(writer, source, p)?;
    }
    Ok(())
}

/// Appends the lines of the procedure with this number.
fn put_proc(writer: &mut Writer, source: &Source<'_>, p: u32) -> Result<(), AllocError>
    requires small { length source.now.bytes.now ≤ 2 ^ 20 }
    requires placed { IsPlaced source.now.bytes.now writer.old.cursor }
    requires there { p < length source.now.tree.now.procs }
    ensures wrote { OnOk result ((x : ProcMeaning) → Appends source.now (proc_lines (slice_index_or (procs_in source.now.tree.now) p x)) writer.old writer.new) }
    ensures placed { OnOk result (IsPlaced source.now.bytes.now writer.new.cursor) }
{
    law_tree(source.tree);
    let proc = source.tree.proc_tree(p);
    let place = source.tree.proc_place(p);
    put_heading(&mut writer.out, source.tree, proc)?;
    put_body(writer, source, proc.locals, place.begin, proc.body)?;
    Ok(())
}

/// Appends the locals and the body of a procedure whose `begin` starts at this offset.
fn put_body(
    writer: &mut Writer,
    source: &Source<'_>,
    locals: DeclList,
    begin: usize,
    body: Block,
) -> Result<(), AllocError>
    requires small { length source.now.bytes.now ≤ 2 ^ 20 }
    requires placed { IsPlaced source.now.bytes.now writer.old.cursor }
    requires locals { HasDecls source.now.tree.now locals }
    requires begin { IsPlace begin }
    requires body { HasBlock source.now.tree.now (length source.now.tree.now.stmts) body }
    ensures wrote { OnOk result (let t = source.now.tree.now in Appends source.now (body_lines (decls_over (decls_in t) locals) begin (block_in t body)) writer.old writer.new) }
    ensures placed { OnOk result (IsPlaced source.now.bytes.now writer.new.cursor) }
{
    law_tree(source.tree);
    put_locals(&mut writer.out, source.tree, locals)?;
    put_line(&mut writer.out, 0, b"begin")?;
    put_block(writer, source, 2, begin + BEGIN_LENGTH, body)?;
    put_line(&mut writer.out, 0, b"end")?;
    Ok(())
}

/// Appends the lines after the program.
fn put_closing(out: &mut Vec<u8>, notes: &Notes) -> Result<(), AllocError>
    ensures { OnOk result (out.new.items ≡ out.old.items ++ flat_map closing_line notes.now.closing) }
{
    for k in 0..notes.closing_count() {
        out.extend_from_slice(b"/* ")?;
        out.extend_from_slice(notes.closing_text(k))?;
        out.extend_from_slice(b" */\n")?;
    }
    Ok(())
}
