//! The text of a program: its tokens and its places.
#![tactic(auto)]

mod bytes;
mod gap;
mod keyword;
mod lexer;
mod limits;
mod piece;
mod place;
mod sign;
mod text_rule;
mod token;
mod word;

pub use lexer::{law_one_cut_or_fault, law_tokens_in_order, law_tokens_spelled, tokens};
pub use place::{Place, place_of};
pub use text_rule::{TextFault, TextRule};
pub use token::{Token, TokenKind, Tokens};
