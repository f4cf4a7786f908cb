//! Comments.
ghost use Rattle.std.specs.Prelude.{◌≡◌, ◌+◌, ◌≤◌, ◌^◌, not, ◌==◌, length};
ghost use Rattle.std.specs.List.{prefix_len};
ghost use Rattle.spl_text.specs.Gaps.{stand_at, past_line, past_block};

use crate::bytes::byte_at;

/// Whether these two bytes stand at an offset.
pub fn stand_at(first: u8, second: u8, bytes: &[u8], at: usize) -> bool
    requires small { length bytes.now ≤ 2 ^ 20 }
    requires within { at ≤ length bytes.now }
    ensures { result ≡ stand_at first second bytes.now at }
{
    byte_at(bytes, at) == first && byte_at(bytes, at + 1) == second
}

/// Past a comment that begins with `//`.
pub fn past_line(bytes: &[u8], at: usize) -> usize
    requires { at ≤ length bytes.now }
    ensures { result ≡ past_line bytes.now at }
{
    at + line_len(&bytes[at..])
}

/// How many bytes stand before the next LF.
fn line_len(text: &[u8]) -> usize
    ensures len { result ≡ prefix_len (λ b. not (b == 10)) text.now }
    ensures within { result ≤ length text.now }
{
    text.iter().take_while(|b| **b != b'\n').count()
}

/// Past a comment that begins with `/*`; none where it has no end.
pub fn past_block(bytes: &[u8], at: usize) -> Option<usize>
    requires small { length bytes.now ≤ 2 ^ 20 }
    requires opened { at + 2 ≤ length bytes.now }
    ensures { result ≡ past_block bytes.now at }
{
    for close in at + 2..bytes.len() {
        if stand_at(b'*', b'/', bytes, close) {
            return Some(close + 2);
        }
    }
    None
}
