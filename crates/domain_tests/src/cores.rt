//! The cores of texts, and their edges.
ghost use Rattle.std.specs.Prelude.{◌≡◌, ◌-◌, ◌<◌, ◌≤◌, length};
ghost use Rattle.spl_core.specs.Parts.{proc_at};
ghost use Rattle.spl_core.specs.Facts.{EdgeFits};

use control_points::core_of;
use spl_core::{Core, Edge};
use spl_gen::generate;
use spl_parser::parse;
use spl_text::tokens;
use spl_types::check;
use std::alloc::Global;
use std::test::Fail;

/// The core of an accepted text; any other one fails the test.
pub(crate) fn core_in(alloc: Global, text: &[u8]) -> Result<Core, Fail> {
    if text.len() > 1 << 20 {
        return Err("the text is too long".into());
    }
    let list = tokens(alloc, text)?;
    let tree = parse(alloc, text, &list)?;
    let checked = check(alloc, &tree)?;
    let built = core_of(alloc, &checked)?;
    Ok(built.core)
}

/// The core of the generated program with so many groups of three variables.
pub(crate) fn generated_core(alloc: Global, groups: u32) -> Result<Core, Fail> {
    let text = generate(alloc, groups)?;
    core_in(alloc, &text)
}

/// An edge of a core.
pub(crate) fn edge_of(core: &Core, k: u32) -> Edge
    requires { k < length core.now.edges }
    ensures { EdgeFits core.now result }
{
    core.edge_at(k)
}

/// How many dimensions main has.
pub(crate) fn main_dims(core: &Core) -> u32
    ensures dims { result ≡ (proc_at core.now (length core.now.procs - 1)).dims }
    ensures small { result ≤ 256 }
{
    core.proc_at(core.procs() - 1).dims
}
