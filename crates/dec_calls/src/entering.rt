// The value at a callee's entry.
ghost use Rattle.std.specs.Prelude.{◌≡◌, ℕ, ◌<◌, ◌≤◌, IfOk, length};
ghost use Rattle.std.specs.List.{All};
ghost use Rattle.transfer_def.specs.Enter.{enter_value};
ghost use Rattle.dec_oct.specs.Value.{octagon};
ghost use Rattle.dec_calls.specs.Inputs.{argument_of, AreInputs};

use dec_oct::DecOct;
use dec_parts::renamed;
use memory::NoMemory;
use minplus_lanes::RowCount;
use std::alloc::Global;

// The caller's variable that a variable of the callee is: an input its argument, and no other one.
fn argument(args: &[u32], v: usize) -> Option<u32>
    ensures { result ≡ argument_of args.now v }
{
    if v < args.len() { Some(args[v]) } else { None }
}

// The same of each of the callee's variables.
fn inputs(alloc: Global, args: &[u32], dims: u32) -> Result<Vec<Option<u32>>, NoMemory>
    requires small { dims ≤ 512 }
    ensures { IfOk result (λ o. AreInputs args.now dims o.items) }
{
    let mut origins = Vec::with_capacity(alloc, dims as usize)?;
    for v in 0..dims as usize {
        origins.push(argument(args, v))?;
    }
    Ok(origins)
}

/// The value at the entry of a callee with `dims` variables, of which the first ones are its inputs. Arguments may repeat. It
/// closes nothing.
pub fn enter(
    alloc: Global,
    v: &DecOct,
    args: &[u32],
    dims: u32,
    count: &mut RowCount,
) -> Result<DecOct, NoMemory>
    requires small { dims ≤ 256 }
    requires inputs { length args.now ≤ dims }
    requires args { All (λ x. x < v.now.dims) args.now }
    ensures value { IfOk result (λ r. octagon r ≡ enter_value (octagon v.now) args.now dims) }
    ensures count { count.new ≡ count.old }
{
    let _ = count;
    v.known();
    let origins = inputs(alloc, args, dims)?;
    let entered = renamed(alloc, v, &origins)?;
    Ok(entered)
}
