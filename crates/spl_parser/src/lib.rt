//! The parser: from tokens to a tree, or to the place of the first token that no program can have there.
#![tactic(auto)]

ghost use Rattle.std.specs.Prelude.{◌≡◌, ℕ, List};
ghost use Rattle.spl_text.specs.declared.token.Token.{Token};
ghost use Rattle.spl_tree.specs.Program.{Program};
ghost use Rattle.spl_parser.specs.Grammar.{Derivation};
ghost use Rattle.spl_parser.specs.Spelling.{spelled};
ghost use Rattle.spl_parser.specs.Derives.{Derives};

mod blocks;
mod bodies;
mod exprs;
mod growing;
mod heads;
mod lists;
mod nesting;
mod operands;
mod operators;
mod parsing;
mod state;
mod steps;
mod words;

pub use parsing::{ParseFault, parse};

/// The grammar is unambiguous: a list of tokens has at most one derivation.
pub fn law_one_derivation()
    ensures { (d e : Derivation) → spelled d ≡ spelled e → d ≡ e }
{}

/// At most one tree is derived, offsets included.
pub fn law_one_tree()
    ensures { (source : List ℕ) (tokens : List Token) (one other : Program) → Derives source tokens one → Derives source tokens other → one ≡ other }
{}
