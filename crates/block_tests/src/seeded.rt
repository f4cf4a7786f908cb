//! Values from a seed over five variables, combined in blocks and beside it word by word.
ghost use Rattle.std.specs.Prelude.{ℕ};
ghost use Rattle.oct_def.specs.Bound.{InRange};
ghost use Rattle.oct_def.specs.Table.{at};

use crate::lattice::{Call, called};
use crate::matrices::constrain;
use crate::values::{expect_marks, value_with};
use dec_oct::DecOct;
use half_matrix::{HalfBuf, HalfMatrix};
use minplus_lanes::RowCount;
use oct_def::NONE;
use seeded_numbers::Random;
use std::alloc::Global;
use std::process::Abort;
use std::test::Fail;

/// A bound: mostly none, else small and even.
fn bound_from(random: &mut Random) -> i64 {
    let number = random.below(90);
    if number % 10 != 0 {
        return NONE;
    }
    2 * ((number / 10) as i64 - 2)
}

/// Each entry off the diagonal becomes a bound from the seed.
fn fill(m: &mut HalfBuf, random: &mut Random)
    requires in_range { (i j : ℕ) → InRange (at m.old i j) }
    ensures in_range { (i j : ℕ) → InRange (at m.new i j) }
{
    let size = 2 * m.vars();
    'rows: for i in 0..size {
        'columns: for j in 0..size {
            if i != j {
                constrain(m, (i, j, bound_from(random)));
            }
        }
    }
}

/// A value; one in eight is Bottom.
fn value_from(rt: &impl Abort, alloc: Global, random: &mut Random) -> Result<DecOct, Fail> {
    if random.below(8) == 0 {
        return Ok(DecOct::bottom(5));
    }
    let mut matrix = HalfMatrix::top(alloc, 5)?;
    fill(matrix.writing(alloc)?, random);
    let v = value_with(rt, alloc, matrix)?;
    Ok(v)
}

/// With this seed one of the two values is Bottom in 27 rounds, and both are in two.
#[test]
fn calls_give_the_entries_of_the_definitions(rt: HostRuntime) -> Result<(), Fail> {
    let alloc = rt.alloc();
    let mut random = Random::new(21);
    for round in 0..120_u32 {
        let name = format!(in alloc; "round {round}")?;
        let a = value_from(&rt, alloc, &mut random)?;
        let b = value_from(&rt, alloc, &mut random)?;
        let mut count = RowCount::new();
        let closed = a.close(alloc, &mut count)?;
        for call in [Call::Join, Call::Widen, Call::Narrow] {
            let _ = called(&rt, alloc, call, &a, &b, name.as_str())?;
            let _ = called(&rt, alloc, call, &closed, &b, name.as_str())?;
            let _ = called(&rt, alloc, call, &b, &closed, name.as_str())?;
            let same = called(&rt, alloc, call, &closed, &closed, name.as_str())?;
            expect_marks(&rt, &same, true, name.as_str());
        }
    }
    Ok(())
}
