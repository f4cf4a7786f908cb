ghost use Rattle.std.specs.Prelude.{◌≡◌};
ghost use Rattle.spl_text.specs.Keyword.{keyword_kind};

use crate::TokenKind;

/// The kind of a keyword; none where the text is no keyword.
pub fn keyword_kind(text: &[u8]) -> Option<TokenKind>
    ensures { result ≡ keyword_kind text.now }
{
    Some(match text {
        b"proc" => TokenKind::Proc,
        b"returns" => TokenKind::Returns,
        b"var" => TokenKind::Var,
        b"begin" => TokenKind::Begin,
        b"end" => TokenKind::End,
        b"int" => TokenKind::Int,
        b"real" => TokenKind::Real,
        b"skip" => TokenKind::Skip,
        b"halt" => TokenKind::Halt,
        b"fail" => TokenKind::Fail,
        b"assume" => TokenKind::Assume,
        b"random" => TokenKind::Random,
        b"brandom" => TokenKind::Brandom,
        b"if" => TokenKind::If,
        b"then" => TokenKind::Then,
        b"else" => TokenKind::Else,
        b"endif" => TokenKind::Endif,
        b"while" => TokenKind::While,
        b"do" => TokenKind::Do,
        b"done" => TokenKind::Done,
        b"not" => TokenKind::Not,
        b"and" => TokenKind::And,
        b"or" => TokenKind::Or,
        b"true" => TokenKind::True,
        b"false" => TokenKind::False,
        _ => return None,
    })
}
