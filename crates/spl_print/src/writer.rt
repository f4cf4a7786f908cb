//! The text so far, and the lines of points.
ghost use Rattle.std.specs.Prelude.{◌≡◌, ◌++◌, ◌≤◌, ◌^◌, [], ◌∷◌, List, ℕ, length, OnOk};
ghost use Rattle.spl_print.specs.Canonical.{place_text, point};
ghost use Rattle.spl_text.specs.Place.{line_of, column_of};
ghost use Rattle.spl_print.specs.Cursor.{IsPlaced};
ghost use Rattle.spl_print.specs.Writing.{Appends};

use crate::notes::Notes;
use crate::place_cursor::PlaceCursor;
use crate::text::{put_blanks, put_number};
use spl_text::Place;
use spl_tree::Tree;
use std::alloc::{AllocError, Global};

/// What a report is made of: the tree, the bytes that it was read from, and what is noted of its points.
#[derive(Drop)]
pub struct Source<'a> {
    pub tree: &'a Tree,
    pub bytes: &'a [u8],
    pub notes: &'a Notes,
}

/// The text so far, the place of its last point, and how many points have their lines.
#[derive(Drop)]
pub struct Writer {
    pub alloc: Global,
    pub out: Vec<u8>,
    pub cursor: PlaceCursor,
    pub noted: usize,
}

/// Appends a place, as `(L3 C7)`.
fn put_place(out: &mut Vec<u8>, place: Place) -> Result<(), AllocError>
    ensures { OnOk result ((bytes : List ℕ) (offset : ℕ) → place.line ≡ line_of bytes offset → place.column ≡ column_of bytes offset → out.new.items ≡ out.old.items ++ place_text bytes offset) }
{
    out.extend_from_slice(b"(L")?;
    put_number(out, u64::from(place.line))?;
    out.extend_from_slice(b" C")?;
    put_number(out, u64::from(place.column))?;
    out.extend_from_slice(b")")?;
    Ok(())
}

/// Appends the line of the next point, with the next note. A point without a note has no line.
pub fn put_point(
    writer: &mut Writer,
    source: &Source<'_>,
    indent: usize,
    offset: usize,
) -> Result<(), AllocError>
    requires small { length source.now.bytes.now ≤ 2 ^ 20 }
    requires placed { IsPlaced source.now.bytes.now writer.old.cursor }
    ensures wrote { OnOk result (Appends source.now (point indent offset ∷ []) writer.old writer.new) }
    ensures placed { OnOk result (IsPlaced source.now.bytes.now writer.new.cursor) }
{
    if writer.noted >= source.notes.point_count() {
        return Ok(());
    }
    let place = writer.cursor.place_of(source.bytes, offset);
    put_blanks(&mut writer.out, indent)?;
    writer.out.extend_from_slice(b"/* ")?;
    put_place(&mut writer.out, place)?;
    writer.out.extend_from_slice(b" ")?;
    writer
        .out
        .extend_from_slice(source.notes.point_text(writer.noted))?;
    writer.out.extend_from_slice(b" */\n")?;
    writer.noted += 1;
    Ok(())
}
