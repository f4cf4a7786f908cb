// The matrix of a block, combined row by row.
ghost use Rattle.std.specs.Prelude.{◌≡◌, IfOk, length};
ghost use Rattle.dec_lattice.specs.Operation.{combined_matrix};

use crate::operation::{Operation, combine_row};
use half_matrix::{HalfBuf, HalfMatrix};
use memory::NoMemory;
use std::alloc::Global;

// Each row of `dst` is combined with that of `src`, by room for one row.
fn combine_rows(op: Operation, dst: &mut HalfBuf, src: &HalfBuf, row: &mut [i64])
    requires size { length dst.old ≡ length src.now }
    requires places { length row.old ≡ length src.now }
    ensures { dst.new ≡ combined_matrix op dst.old src.now }
{
    dst.shape();
    src.shape();
    let size = 2 * dst.vars();
    for i in 0..size {
        src.fill_row(i, row);
        let words = dst.row_mut(i);
        let length = words.len();
        combine_row(op, words, &row[..length]);
    }
    dst.shape();
}

/// A matrix combined with another one, in time quadratic in their size. Where another holder shares it, it is copied.
pub(crate) fn combined_with(
    alloc: Global,
    op: Operation,
    mut made: HalfMatrix,
    other: &HalfMatrix,
) -> Result<HalfMatrix, NoMemory>
    requires { length made ≡ length other.now }
    ensures { IfOk result (λ m. m ≡ combined_matrix op made other.now) }
{
    let mut row = vec![in alloc; 0_i64; 2 * other.buf().vars() as usize]?;
    combine_rows(op, made.writing(alloc)?, other.buf(), &mut row);
    Ok(made)
}
