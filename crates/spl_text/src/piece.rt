//! The pieces of a text.
ghost use Rattle.std.specs.Prelude.{◌≡◌, ◌+◌, ◌<◌, ◌≤◌, ◌^◌, length};
ghost use Rattle.spl_text.specs.Pieces.{piece_at, block_at};
ghost use Rattle.spl_text.specs.Checked.{checked};

use crate::bytes::{is_blank, is_digit, is_letter};
use crate::gap::{past_block, past_line, stand_at};
use crate::sign::sign_at;
use crate::word::{number_at, word_at};
use crate::{TextRule, Token};

/// What stands at an offset of a text.
#[derive(Clone, Copy, Debug, Drop, PartialEq, Eq)]
pub enum Piece {
    /// A blank or a comment, up to this offset.
    Gap(usize),
    /// The token that is taken.
    Taken(Token),
    /// Nothing that may stand there.
    Broken(TextRule),
}

/// What stands at an offset, or the rule that its token breaks by itself.
#[tactic(auto, unfolding(crate::specs::Pieces::piece_at))]
pub fn piece_at(bytes: &[u8], at: usize) -> Piece
    requires small { length bytes.now ≤ 2 ^ 20 }
    requires within { at < length bytes.now }
    ensures { result ≡ checked (piece_at bytes.now at) }
{
    let first = bytes[at];
    if is_blank(first) {
        Piece::Gap(at + 1)
    } else if stand_at(b'/', b'/', bytes, at) {
        Piece::Gap(past_line(bytes, at))
    } else if stand_at(b'/', b'*', bytes, at) {
        block_at(bytes, at)
    } else if is_letter(first) {
        word_at(bytes, at)
    } else if is_digit(first) {
        number_at(bytes, at)
    } else {
        sign_at(bytes, at)
    }
}

/// A comment that begins with `/*`.
fn block_at(bytes: &[u8], at: usize) -> Piece
    requires small { length bytes.now ≤ 2 ^ 20 }
    requires opened { at + 2 ≤ length bytes.now }
    ensures { result ≡ block_at bytes.now at }
{
    match past_block(bytes, at) {
        Some(end) => Piece::Gap(end),
        None => Piece::Broken(TextRule::OpenComment),
    }
}
