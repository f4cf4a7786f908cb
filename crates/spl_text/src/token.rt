//! Tokens and lists of tokens.
//!
//! A list of tokens keeps what every reader relies on: its tokens stand one after the other in a source of
//! at most a mebibyte, none of them is empty, and no number passes the limit of literals.

ghost use Rattle.std.specs.Prelude.{◌≡◌, ◌<◌, length};
ghost use Rattle.spl_text.specs.TokenList.{AreTokens, token_at};

use std::marker::Model;

/// What a token is. A name's bytes are those of its span; a number carries its value.
#[derive(Clone, Copy, Debug, Drop, PartialEq, Eq)]
pub enum TokenKind {
    Name,
    Number(u64),
    Proc,
    Returns,
    Var,
    Begin,
    End,
    Int,
    Real,
    Skip,
    Halt,
    Fail,
    Assume,
    Random,
    Brandom,
    If,
    Then,
    Else,
    Endif,
    While,
    Do,
    Done,
    Not,
    And,
    Or,
    True,
    False,
    LeftParen,
    RightParen,
    Comma,
    Semicolon,
    Colon,
    Becomes,
    Equal,
    NotEqual,
    Less,
    LessEqual,
    Greater,
    GreaterEqual,
    Plus,
    Minus,
    Star,
    Slash,
    Percent,
}

/// A token with its span in the source, in bytes: the offset of its first byte, and the offset just past its last one.
#[derive(Clone, Copy, Debug, Drop, PartialEq, Eq)]
pub struct Token {
    pub kind: TokenKind,
    pub start: usize,
    pub end: usize,
}

/// The tokens of a source of at most 2^20 bytes, in the order of the text.
#[derive(Drop)]
pub struct Tokens {
    items: Vec<Token>,
}

impl Model for Tokens {
    ghost use Rattle.std.specs.Prelude.{List};
    ghost use Rattle.spl_text.specs.declared.token.Token.{Token};
    ghost use Rattle.spl_text.specs.TokenList.{AreTokens};

    ghost Value = { List Token };

    ghost view = { λ t. t.items.items };

    ghost invariant = { λ t. AreTokens t.items.items };
}

impl Tokens {
    /// The list of these tokens. It takes no memory.
    pub fn from_vec(items: Vec<Token>) -> Tokens
        requires { AreTokens items.items }
        ensures { result ≡ items.items }
    {
        Tokens { items }
    }

    /// The number of tokens. It takes no memory.
    pub fn len(&self) -> usize
        ensures count { result ≡ length self.now }
        ensures known { AreTokens self.now }
    {
        self.items.len()
    }

    /// The token with this number, counted from 0. It takes no memory.
    pub fn at(&self, k: usize) -> Token
        requires { k < length self.now }
        ensures found { result ≡ token_at self.now k }
        ensures known { AreTokens self.now }
    {
        self.items[k]
    }
}
