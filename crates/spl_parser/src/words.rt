//! Names that are read.

ghost use Rattle.std.specs.Prelude.{◌≡◌, ◌+◌, ◌-◌, ◌*◌, ◌^◌, ◌<◌, ◌≤◌, length, IfOk};
ghost use Rattle.spl_tree.specs.Lists.{lists_of};
ghost use Rattle.spl_tree.specs.Facts.{IsTree};
ghost use Rattle.spl_parser.specs.Growth.{grown};
ghost use Rattle.spl_parser.specs.View.{TokenIn, NewWord};

use crate::growing::add_name;
use crate::state::Word;
use spl_text::Token;
use spl_tree::TreeParts;
use std::alloc::AllocError;

/// The name that a token is.
pub fn read_word(parts: &mut TreeParts, bytes: &[u8], token: Token) -> Result<Word, AllocError>
    requires tree { IsTree (lists_of parts.old) }
    requires token { TokenIn token }
    requires inside { token.end ≤ length bytes.now }
    requires letters { (grown (lists_of parts.old)).letters ≤ token.start }
    requires few { length (grown (lists_of parts.old)).names ≤ token.start }
    ensures { IfOk result (λ w. NewWord bytes.now token (lists_of parts.old) (lists_of parts.new) w) }
{
    let name = add_name(parts, &bytes[token.start..token.end])?;
    let word = Word {
        name,
        at: token.start,
    };
    Ok(word)
}
