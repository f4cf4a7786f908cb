//! The parser over all tokens.
ghost use Rattle.std.specs.Prelude.{◌≡◌, ◌≤◌, ◌^◌, length, IfOk, IfErr};
ghost use Rattle.spl_text.specs.Pieces.{Cut};
ghost use Rattle.spl_text.specs.TextRules.{IsUnbroken};
ghost use Rattle.spl_tree.specs.Lists.{lists_of};
ghost use Rattle.spl_tree.specs.Meaning.{program_of};
ghost use Rattle.spl_parser.specs.Derives.{Derives, IsParseFaultOf};
ghost use Rattle.spl_parser.specs.Reading.{no_lists, HasRead};

use crate::state::{Head, State, Stop};
use crate::steps::step;
use spl_text::{Tokens, law_tokens_spelled};
use spl_tree::{Block, DeclList, MainTree, Tree, TreeParts};
use std::alloc::Global;
use thiserror::Error;

/// Why a text has no tree. A syntax error carries the start of the first token that no program can have there, or the
/// end of the text where there is no such token.
#[derive(Clone, Copy, Debug, Drop, PartialEq, Eq, Error)]
pub enum ParseFault {
    #[error("syntax error at byte {0}")]
    Syntax(usize),
    #[error("out of memory")]
    NoMemory,
}

/// The tree of a text, from its tokens; `Syntax` exactly where the grammar derives none.
///
/// It goes over the tokens once, without recursion: its work is linear in their number, and depth costs memory alone.
pub fn parse(alloc: Global, bytes: &[u8], tokens: &Tokens) -> Result<Tree, ParseFault>
    requires size { length bytes.now ≤ 2 ^ 20 }
    requires cut { Cut bytes.now tokens.now }
    requires unbroken { IsUnbroken bytes.now }
    ensures derived { IfOk result (λ tree. Derives bytes.now tokens.now (program_of tree)) }
    ensures fault { IfErr result (IsParseFaultOf bytes.now tokens.now) }
{
    let mut parts = no_parts(alloc);
    let state = read_tokens(&mut parts, alloc, bytes, tokens)?;
    match state {
        State::Finished(main, begin) => {
            parts.main = main;
            parts.main_begin = begin;
            Ok(Tree::from_parts(parts))
        }
        _ => Err(ParseFault::Syntax(bytes.len())),
    }
}

/// The parts before the first token.
fn no_parts(alloc: Global) -> TreeParts
    ensures { lists_of result ≡ no_lists }
{
    TreeParts {
        letters: Vec::new(alloc),
        names: Vec::new(alloc),
        decls: Vec::new(alloc),
        decl_places: Vec::new(alloc),
        procs: Vec::new(alloc),
        proc_places: Vec::new(alloc),
        exprs: Vec::new(alloc),
        expr_places: Vec::new(alloc),
        stmts: Vec::new(alloc),
        stmt_places: Vec::new(alloc),
        name_items: Vec::new(alloc),
        name_item_places: Vec::new(alloc),
        stmt_items: Vec::new(alloc),
        main: MainTree {
            locals: DeclList { first: 0, count: 0 },
            body: Block { first: 0, count: 0 },
        },
        main_begin: 0,
    }
}

/// The state after all tokens.
fn read_tokens(
    parts: &mut TreeParts,
    alloc: Global,
    bytes: &[u8],
    tokens: &Tokens,
) -> Result<State, ParseFault>
    requires fresh { lists_of parts.old ≡ no_lists }
    requires cut { Cut bytes.now tokens.now }
    requires unbroken { IsUnbroken bytes.now }
    ensures read { IfOk result (λ state. HasRead bytes.now tokens.now (length tokens.now) (2 ^ 20) (lists_of parts.new) state) }
    ensures fault { IfErr result (IsParseFaultOf bytes.now tokens.now) }
{
    law_tokens_spelled();
    let mut state = State::Start(Head::Main);
    for k in 0..tokens.len() {
        let token = tokens.at(k);
        match step(parts, alloc, bytes, state, token) {
            Ok(next) => state = next,
            Err(Stop::Syntax) => return Err(ParseFault::Syntax(token.start)),
            Err(Stop::NoMemory) => return Err(ParseFault::NoMemory),
        }
    }
    Ok(state)
}
