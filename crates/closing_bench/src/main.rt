//! Times the closure of a block: the words are the number of variables and how often a dense matrix over them is closed.
//! It prints how many rows were relaxed, and a sum of the words at the end. `bench/closure.py` runs it.
#![tactic(auto)]

ghost use Rattle.std.specs.Prelude.{ℕ, ◌≡◌, ◌*◌, ◌≤◌, length, pos, ◌≤ℤ◌};
ghost use Rattle.oct_def.specs.Bound.{InRange};
ghost use Rattle.oct_def.specs.Table.{at};

use half_matrix::{HalfBuf, HalfMatrix};
use memory::NoMemory;
use minplus_lanes::RowCount;
use oct_def::MOST_MATRIX_DIMS;
use std::alloc::Global;
use std::env;
use std::process::ExitCode;
use tight_closure::{Scratch, close_block};

// The count of rows, and the sum of the words.
#[derive(Drop)]
struct Figures {
    rows: u64,
    sum: i64,
}

// A bound from 0 to 1023.
fn bound(seed: u64) -> i64
    ensures low { pos 0 ≤ℤ result }
    ensures high { result ≤ℤ pos 1023 }
{
    ((seed >> 40) % 1024) as i64
}

// Every entry off the diagonal becomes a bound.
fn fill(m: &mut HalfBuf)
    requires { (i j : ℕ) → InRange (at m.old i j) }
    ensures in_range { (i j : ℕ) → InRange (at m.new i j) }
    ensures rows { length m.new ≡ length m.old }
{
    let size = 2 * m.vars();
    let mut seed = 77_u64;
    'rows: for i in 0..size {
        'columns: for j in 0..i {
            seed = seed
                .wrapping_mul(6364136223846793005)
                .wrapping_add(1442695040888963407);
            m.set(i, j, bound(seed));
        }
    }
}

// The closure of a closed matrix makes the same steps, so one matrix serves for all.
fn close_often(m: &mut HalfBuf, scratch: &mut Scratch, count: &mut RowCount, times: u32)
    requires in_range { (i j : ℕ) → InRange (at m.old i j) }
    requires room { length m.old ≤ 2 * scratch.old }
    ensures in_range { (i j : ℕ) → InRange (at m.new i j) }
    ensures rows { length m.new ≡ length m.old }
{
    for _ in 0..times {
        let _ = close_block(m, scratch, count);
    }
}

fn sum_of(m: &HalfBuf) -> i64 {
    let size = 2 * m.vars();
    let mut sum = 0_i64;
    'rows: for i in 0..size {
        'columns: for j in 0..size {
            sum = sum.wrapping_add(m.get(i, j));
        }
    }
    sum
}

fn measured(alloc: Global, vars: u32, times: u32) -> Result<Figures, NoMemory>
    requires { vars ≤ 512 }
{
    let mut count = RowCount::new();
    let mut shared = HalfMatrix::top(alloc, vars)?;
    let m = shared.writing(alloc)?;
    let mut scratch = Scratch::reserve(alloc, vars)?;
    fill(m);
    close_often(m, &mut scratch, &mut count, times);
    Ok(Figures {
        rows: count.rows(),
        sum: sum_of(m),
    })
}

// The two words as numbers.
fn numbers(rt: &HostRuntime) -> Option<(u32, u32)> {
    let mut args = env::args(rt).ok()?;
    let _program = args.next();
    let vars = args.next()?.parse::<u32>().ok()?;
    let times = args.next()?.parse::<u32>().ok()?;
    Some((vars, times))
}

fn main(rt: HostRuntime) -> ExitCode {
    let Some((vars, times)) = numbers(&rt) else {
        return ExitCode::from(2);
    };
    if vars > MOST_MATRIX_DIMS {
        return ExitCode::from(2);
    }
    let Ok(figures) = measured(rt.alloc(), vars, times) else {
        return ExitCode::from(1);
    };
    if println!(rt; "rows {} sum {}", figures.rows, figures.sum).is_err() {
        return ExitCode::from(1);
    }
    ExitCode::from(0)
}
