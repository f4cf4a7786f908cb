//! Places of offsets, counted on from the last one.
ghost use Rattle.std.specs.Prelude.{◌≡◌, ◌≤◌, ◌^◌, length};
ghost use Rattle.spl_text.specs.Place.{line_of, column_of};
ghost use Rattle.spl_print.specs.Cursor.{IsPlaceAt, IsPlaced};

use spl_text::Place;

/// An offset with its place. It begins at the start of a text, and is moved from one offset to the next.
#[derive(Clone, Copy, Debug, Drop)]
pub struct PlaceCursor {
    offset: usize,
    place: Place,
}

impl PlaceCursor {
    /// The start of a text.
    pub fn start(bytes: &[u8]) -> PlaceCursor
        ensures placed { IsPlaced bytes.now result }
        ensures first { result.offset ≡ 0 }
    {
        PlaceCursor {
            offset: 0,
            place: Place { line: 1, column: 1 },
        }
    }

    /// The place of an offset, to which the cursor moves. It walks over the bytes from where it stands, or from the
    /// start where the offset is before that, so places in rising order cost one walk over the text together.
    /// The place of an offset past the end is that of the end.
    pub fn place_of(&mut self, bytes: &[u8], offset: usize) -> Place
        requires small { length bytes.now ≤ 2 ^ 20 }
        requires placed { IsPlaced bytes.now self.old }
        ensures line { result.line ≡ line_of bytes.now offset }
        ensures column { result.column ≡ column_of bytes.now offset }
        ensures placed { IsPlaced bytes.now self.new }
    {
        let end = offset.min(bytes.len());
        let place = walk(bytes, self.not_past(bytes, end), end);
        *self = PlaceCursor { offset: end, place };
        place
    }

    /// This cursor, or the start where it stands past an offset.
    fn not_past(self, bytes: &[u8], end: usize) -> PlaceCursor
        requires placed { IsPlaced bytes.now self }
        ensures placed { IsPlaced bytes.now result }
        ensures ahead { result.offset ≤ end }
    {
        if end < self.offset {
            PlaceCursor::start(bytes)
        } else {
            self
        }
    }
}

/// The place of an offset that isn't before a cursor.
fn walk(bytes: &[u8], from: PlaceCursor, end: usize) -> Place
    requires small { length bytes.now ≤ 2 ^ 20 }
    requires placed { IsPlaced bytes.now from }
    requires ahead { from.offset ≤ end }
    requires within { end ≤ length bytes.now }
    ensures { IsPlaceAt bytes.now end result }
{
    let mut place = from.place;
    for byte in &bytes[from.offset..end] {
        if *byte == b'\n' {
            place.line += 1;
            place.column = 1;
        } else {
            place.column += 1;
        }
    }
    place
}
