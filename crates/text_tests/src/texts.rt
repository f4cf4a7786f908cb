//! What a text gives: its tree, its core and its edges; and long texts.

ghost use Rattle.std.specs.Prelude.{◌<◌, ◌≤◌, ◌^◌, length, IfOk};
ghost use Rattle.spl_core.specs.Facts.{EdgeFits};

use control_points::core_of;
use spl_core::{Core, Edge};
use spl_parser::parse;
use spl_text::tokens;
use spl_tree::Tree;
use spl_types::check;
use std::alloc::{AllocError, Global};
use std::test::Fail;

/// The tree of a text, or the fault for which it has none.
pub(crate) fn read(alloc: Global, text: &[u8]) -> Result<Result<Tree, String>, AllocError>
    ensures { IfOk result (λ read. IfOk read (λ tree. length text.now ≤ 2 ^ 20)) }
{
    if text.len() > 1 << 20 {
        return Ok(Err(format!(in alloc; "the text is too long")?));
    }
    let list = match tokens(alloc, text) {
        Ok(list) => list,
        Err(fault) => return Ok(Err(format!(in alloc; "{fault}")?)),
    };
    match parse(alloc, text, &list) {
        Ok(tree) => Ok(Ok(tree)),
        Err(fault) => Ok(Err(format!(in alloc; "{fault}")?)),
    }
}

/// The tree of a program; any other text fails the test.
pub(crate) fn tree_in(alloc: Global, text: &[u8]) -> Result<Tree, Fail>
    ensures { IfOk result (λ tree. length text.now ≤ 2 ^ 20) }
{
    match read(alloc, text)? {
        Ok(tree) => Ok(tree),
        Err(fault) => Err(Fail::new(fault)),
    }
}

/// The core of an accepted text; any other one fails the test.
pub(crate) fn core_in(alloc: Global, text: &[u8]) -> Result<Core, Fail> {
    let tree = tree_in(alloc, text)?;
    let checked = check(alloc, &tree)?;
    let built = core_of(alloc, &checked)?;
    Ok(built.core)
}

/// An edge of a core.
pub(crate) fn edge_of(core: &Core, k: u32) -> Edge
    requires { k < length core.now.edges }
    ensures { EdgeFits core.now result }
{
    core.edge_at(k)
}

/// Appends a piece so many times.
fn push_many(text: &mut Vec<u8>, piece: &str, count: usize) -> Result<(), AllocError> {
    for _ in 0..count {
        text.extend_from_slice(piece.as_bytes())?;
    }
    Ok(())
}

/// A text of a head, a piece so many times, a middle, another piece as often, and a tail.
pub(crate) fn long_text(
    alloc: Global,
    (head, open): (&str, &str),
    count: usize,
    middle: &str,
    (close, tail): (&str, &str),
) -> Result<Vec<u8>, AllocError> {
    let mut text = Vec::from_slice(alloc, head.as_bytes())?;
    push_many(&mut text, open, count)?;
    text.extend_from_slice(middle.as_bytes())?;
    push_many(&mut text, close, count)?;
    text.extend_from_slice(tail.as_bytes())?;
    Ok(text)
}
