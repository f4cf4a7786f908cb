//! The names of the dimensions of all procedures.
ghost use Rattle.std.specs.Prelude.{◌≡◌, ◌≤◌, ◌<◌, ◌+◌, ◌++◌, ◌∷◌, [], length, map, slice_index_or, IfOk, OnOk};
ghost use Rattle.std.specs.List.{range_with_len};
ghost use Rattle.spl_tree.specs.Meaning.{program_of};
ghost use Rattle.spl_types.specs.Dimensions.{dimensions};

use memory::NoMemory;
use spl_tree::law_numbers;
use spl_types::{Checked, Names};
use std::alloc::Global;
use std::marker::Model;

/// The names of the dimensions of each procedure, main last.
#[derive(Drop)]
pub struct AllNames {
    procs: Vec<Names>,
}

impl Model for AllNames {
    ghost use Rattle.std.specs.Prelude.{ℕ, List};

    ghost Value = { List (List (List ℕ)) };

    ghost view = { λ n. n.procs.items };
}

impl AllNames {
    /// Those of a program.
    pub fn of(alloc: Global, checked: &Checked) -> Result<AllNames, NoMemory>
        ensures { IfOk result (λ names. names ≡ map (dimensions (program_of checked.now)) (range_with_len 0 (length (program_of checked.now).procs + 1))) }
    {
        law_numbers();
        let mut procs = Vec::new(alloc);
        for p in 0..checked.tree().proc_count() + 1 {
            let names = checked.names(alloc, p)?;
            procs.push(names)?;
        }
        Ok(AllNames { procs })
    }

    /// Those of the procedure with this number.
    pub fn of_procedure(&self, p: u32) -> &Names
        requires { p < length self.now }
        ensures { result.now ≡ slice_index_or self.now p [] }
    {
        &self.procs[p as usize]
    }
}
