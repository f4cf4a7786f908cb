//! Rows of items, one for each point, to which items are added one at a time.
ghost use Rattle.std.specs.Prelude.{◌≡◌, ◌<◌, ◌++◌, [], ◌∷◌, length, map, replicate, slice_index_or, slice_set, IfOk};

use memory::NoMemory;
use std::alloc::Global;

// An empty row for each point.
pub(crate) fn empty_rows<T: Drop>(alloc: Global, points: u32) -> Result<Vec<Vec<T>>, NoMemory>
    ensures { IfOk result (λ v. map (λ r. r.items) v.items ≡ replicate points []) }
{
    let mut rows = Vec::new(alloc);
    for _ in 0..points {
        rows.push(Vec::new(alloc))?;
    }
    Ok(rows)
}

// Puts an item at the end of the row of a point.
pub(crate) fn push_onto<T: Drop>(
    rows: &mut Vec<Vec<T>>,
    point: u32,
    item: T,
) -> Result<(), NoMemory>
    requires { point < length rows.old.items }
    ensures { IfOk result (λ _. map (λ r. r.items) rows.new.items ≡ slice_set (map (λ r. r.items) rows.old.items) point (slice_index_or (map (λ r. r.items) rows.old.items) point [] ++ item ∷ [])) }
{
    rows[point as usize].push(item)?;
    Ok(())
}
