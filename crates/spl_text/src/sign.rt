//! Signs.
ghost use Rattle.std.specs.Prelude.{◌≡◌, ◌<◌, ◌≤◌, ◌^◌, length};
ghost use Rattle.spl_text.specs.Signs.{short_sign, long_sign};
ghost use Rattle.spl_text.specs.Pieces.{sign_at};

use crate::bytes::byte_at;
use crate::piece::Piece;
use crate::{TextRule, Token, TokenKind};

/// The longest sign.
pub fn sign_at(bytes: &[u8], at: usize) -> Piece
    requires small { length bytes.now ≤ 2 ^ 20 }
    requires within { at < length bytes.now }
    ensures { result ≡ sign_at bytes.now at }
{
    let byte = byte_at(bytes, at);
    if let Some(kind) = long_sign(byte, byte_at(bytes, at + 1)) {
        return Piece::Taken(Token {
            kind,
            start: at,
            end: at + 2,
        });
    }
    match short_sign(byte) {
        Some(kind) => Piece::Taken(Token {
            kind,
            start: at,
            end: at + 1,
        }),
        None => Piece::Broken(TextRule::BadByte),
    }
}

/// The sign of two bytes.
fn long_sign(byte: u8, next: u8) -> Option<TokenKind>
    ensures { result ≡ long_sign byte next }
{
    if next != b'=' {
        return None;
    }
    match byte {
        b'=' => Some(TokenKind::Equal),
        b'!' => Some(TokenKind::NotEqual),
        b'<' => Some(TokenKind::LessEqual),
        b'>' => Some(TokenKind::GreaterEqual),
        _ => None,
    }
}

/// The sign of one byte.
fn short_sign(byte: u8) -> Option<TokenKind>
    ensures { result ≡ short_sign byte }
{
    Some(match byte {
        b'(' => TokenKind::LeftParen,
        b')' => TokenKind::RightParen,
        b',' => TokenKind::Comma,
        b';' => TokenKind::Semicolon,
        b':' => TokenKind::Colon,
        b'=' => TokenKind::Becomes,
        b'<' => TokenKind::Less,
        b'>' => TokenKind::Greater,
        b'+' => TokenKind::Plus,
        b'-' => TokenKind::Minus,
        b'*' => TokenKind::Star,
        b'/' => TokenKind::Slash,
        b'%' => TokenKind::Percent,
        _ => return None,
    })
}
