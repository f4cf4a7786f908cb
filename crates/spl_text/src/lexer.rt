//! The tokens of a text.
ghost use Rattle.std.specs.Prelude.{◌≡◌, ◌≤◌, ◌^◌, length, IfOk, IfErr};
ghost use Rattle.spl_text.specs.Pieces.{Cut};
ghost use Rattle.spl_text.specs.TextRules.{IsUnbroken, IsFaultOf, EachTextHasOneReading};
ghost use Rattle.spl_text.specs.Spans.{TokensStandInOrder, TokensAreSpelled};

use crate::limits::Limits;
use crate::piece::{Piece, piece_at};
use crate::{TextFault, Tokens};
use std::alloc::Global;

/// The tokens of a text, in its order, or the rule that it breaks first; `NoMemory` where the list of tokens finds no room.
///
/// It goes over the bytes once, in time linear in their number, and takes memory for the list alone: some 32 bytes a token.
pub fn tokens(alloc: Global, bytes: &[u8]) -> Result<Tokens, TextFault>
    requires { length bytes.now ≤ 2 ^ 20 }
    ensures cut { IfOk result (λ tokens. Cut bytes.now tokens) }
    ensures unbroken { IfOk result (λ tokens. IsUnbroken bytes.now) }
    ensures broken { IfErr result (IsFaultOf bytes.now) }
{
    let mut items = Vec::new(alloc);
    let mut limits = Limits { depth: 0, run: 0 };
    let mut at = 0;
    while at < bytes.len() {
        match piece_at(bytes, at) {
            Piece::Gap(end) => at = end,
            Piece::Taken(token) => {
                match limits.pass(token.kind) {
                    Ok(passed) => limits = passed,
                    Err(rule) => return Err(TextFault::Broken(rule, at)),
                }
                if items.push(token).is_err() {
                    return Err(TextFault::NoMemory);
                }
                at = token.end;
            }
            Piece::Broken(rule) => return Err(TextFault::Broken(rule, at)),
        }
    }
    Ok(Tokens::from_vec(items))
}

/// Each text is cut in one way and breaks no rule, or has one fault.
pub fn law_one_cut_or_fault()
    ensures { EachTextHasOneReading }
{}

/// The tokens of a text that breaks no rule stand in order inside it.
pub fn law_tokens_in_order()
    ensures { TokensStandInOrder }
{}

/// The names of a text that breaks no rule are names, and its numbers have the values of their digits.
pub fn law_tokens_spelled()
    ensures { TokensAreSpelled }
{}
