//! A single check.

ghost use Rattle.std.specs.Prelude.{◌∷◌, []};
ghost use Rattle.spl_types.specs.Checks.{check};
ghost use Rattle.spl_types.specs.Faults.{Answers};

use crate::fault::{CheckFault, CheckRule};

/// The fault of a broken rule, unless the program keeps it.
pub fn demand(kept: bool, rule: CheckRule, at: usize) -> Result<(), CheckFault>
    ensures { Answers result (check rule at kept ∷ []) }
{
    if kept {
        Ok(())
    } else {
        Err(CheckFault::Broken(rule, at))
    }
}
