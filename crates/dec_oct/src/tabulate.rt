// Half matrices made entry by entry.
ghost use Rattle.std.specs.Prelude.{◌≡◌, ℕ, ◌+◌, ◌*◌, ◌<◌, ◌≤◌, IfOk, length, ℤ};
ghost use Rattle.oct_def.specs.Bound.{bound_of};
ghost use Rattle.oct_def.specs.Table.{at};
ghost use Rattle.oct_def.specs.Matrix.{opposite as opposite_of, IsSquare, IsCoherent};

use half_matrix::{HalfBuf, HalfMatrix};
use memory::NoMemory;
use oct_def::opposite;
use std::alloc::Global;

// Each entry that a half matrix stores becomes what `entry` makes of its row and column.
fn fill<F: Fn(u32, u32) -> i64>(m: &mut HalfBuf, entry: F)
    requires callable { (i j : ℕ) → i < length m.old → j < length m.old → F.pre entry i j }
    ensures rows { length m.new ≡ length m.old }
    ensures entries { (i j : ℕ) → i < length m.old → j < opposite_of i + 1 → (w : ℤ) × F.post entry i j w × (bound_of w ≡ at m.new i j) }
{
    let size = 2 * m.vars();
    'rows: for i in 0..size {
        let end = opposite(i as usize) as u32 + 1;
        'columns: for j in 0..end {
            m.set(i, j, entry(i, j));
        }
    }
}

/// The matrix over so many variables whose stored entries are what `entry` makes of their rows and columns.
pub fn tabulated<F: Fn(u32, u32) -> i64>(
    alloc: Global,
    vars: u32,
    entry: F,
) -> Result<HalfMatrix, NoMemory>
    requires small { vars ≤ 512 }
    requires callable { (i j : ℕ) → i < 2 * vars → j < 2 * vars → F.pre entry i j }
    ensures rows { IfOk result (λ m. length m ≡ 2 * vars) }
    ensures square { IfOk result (λ m. IsSquare m) }
    ensures coherent { IfOk result (λ m. IsCoherent m) }
    ensures entries { IfOk result (λ m. (i j : ℕ) → i < 2 * vars → j < opposite_of i + 1 → (w : ℤ) × F.post entry i j w × (bound_of w ≡ at m i j)) }
{
    let mut m = HalfMatrix::top(alloc, vars)?;
    fill(m.writing(alloc)?, entry);
    m.buf().shape();
    Ok(m)
}
