ghost use Rattle.std.specs.Prelude.{◌≡◌, ◌≤◌, ◌^◌, length};
ghost use Rattle.spl_text.specs.Place.{line_of, column_of};

/// A place in a text, as people read it: lines and columns are counted from 1, a column in bytes.
#[derive(Clone, Copy, Debug, PartialEq, Eq)]
pub struct Place {
    pub line: u32,
    pub column: u32,
}

/// The place of an offset: one walk over the bytes before it.
pub fn place_of(bytes: &[u8], offset: usize) -> Place
    requires within { offset ≤ length bytes.now }
    requires small { length bytes.now ≤ 2 ^ 20 }
    ensures line { result.line ≡ line_of bytes.now offset }
    ensures column { result.column ≡ column_of bytes.now offset }
{
    let mut line: u32 = 1;
    let mut column: u32 = 1;
    for byte in &bytes[..offset] {
        if *byte == b'\n' {
            line += 1;
            column = 1;
        } else {
            column += 1;
        }
    }
    Place { line, column }
}
