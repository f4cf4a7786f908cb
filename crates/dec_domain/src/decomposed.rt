// The decomposed domain: its calls are those of values in blocks.
ghost use Rattle.std.specs.Prelude.{◌≡◌};

use crate::value::{DecValue, kept};
use dec_calls::{back, enter};
use dec_lattice::{join, narrow, widen};
use dec_oct::DecOct;
use dec_transfer::{assign, copy, havoc, test};
use domain::Domain;
use minplus_lanes::RowCount;
use oct_def::NoMemory;
use spl_core::Core;
use std::alloc::Global;
use std::marker::Model;

/// The domain, which is seen as the count of the rows that its closings relaxed.
#[derive(Drop)]
pub struct DecDomain {
    count: RowCount,
}

impl Model for DecDomain {
    ghost use Rattle.std.specs.Prelude.{ℕ};

    ghost Value = { ℕ };

    ghost view = { λ d. d.count };
}

impl DecDomain {
    /// The domain before any closing. It takes no memory.
    pub fn new() -> DecDomain
        ensures { result ≡ 0 }
    {
        DecDomain {
            count: RowCount::new(),
        }
    }

    /// How many rows were relaxed so far, or the greatest `u64`.
    pub fn rows(&self) -> u64
        ensures { result ≡ self.now }
    {
        self.count.rows()
    }
}

impl Domain for DecDomain {
    type V = DecValue;

    ghost meaning = { λ v. v };

    ghost work = { λ d. d };

    fn known(&self, v: &DecValue) {
        let _ = &v.blocks;
    }

    fn top(&mut self, alloc: Global, dims: u32) -> Result<DecValue, NoMemory> {
        let v = DecOct::top(alloc, dims)?;
        Ok(kept(v))
    }

    fn bottom(&mut self, dims: u32) -> DecValue {
        kept(DecOct::bottom(dims))
    }

    fn share(&mut self, v: &DecValue) -> Result<DecValue, NoMemory> {
        let w = v.blocks.share()?;
        Ok(kept(w))
    }

    fn same(&self, a: &DecValue, b: &DecValue) -> bool {
        a.blocks.same(&b.blocks)
    }

    fn is_bottom(&self, v: &DecValue) -> bool {
        v.blocks.partition().is_none()
    }

    fn entry(&self, v: &DecValue, i: u32, j: u32) -> i64 {
        v.blocks.entry(i, j)
    }

    fn close(&mut self, alloc: Global, v: &DecValue) -> Result<DecValue, NoMemory> {
        let w = v.blocks.close(alloc, &mut self.count)?;
        Ok(kept(w))
    }

    fn assign(
        &mut self,
        alloc: Global,
        v: &DecValue,
        core: &Core,
        target: u32,
        expr: u32,
    ) -> Result<DecValue, NoMemory> {
        let w = assign(alloc, &v.blocks, core, target, expr, &mut self.count)?;
        Ok(kept(w))
    }

    fn copy(
        &mut self,
        alloc: Global,
        v: &DecValue,
        target: u32,
        origin: u32,
    ) -> Result<DecValue, NoMemory> {
        let w = copy(alloc, &v.blocks, target, origin, &mut self.count)?;
        Ok(kept(w))
    }

    fn havoc(&mut self, alloc: Global, v: &DecValue, target: u32) -> Result<DecValue, NoMemory> {
        let w = havoc(alloc, &v.blocks, target, &mut self.count)?;
        Ok(kept(w))
    }

    fn test(
        &mut self,
        alloc: Global,
        v: &DecValue,
        core: &Core,
        cond: u32,
        wanted: bool,
    ) -> Result<DecValue, NoMemory> {
        let w = test(alloc, &v.blocks, core, cond, wanted, &mut self.count)?;
        Ok(kept(w))
    }

    fn join(&mut self, alloc: Global, a: &DecValue, b: &DecValue) -> Result<DecValue, NoMemory> {
        let w = join(alloc, &a.blocks, &b.blocks, &mut self.count)?;
        Ok(kept(w))
    }

    fn widen(&mut self, alloc: Global, a: &DecValue, b: &DecValue) -> Result<DecValue, NoMemory> {
        let w = widen(alloc, &a.blocks, &b.blocks, &mut self.count)?;
        Ok(kept(w))
    }

    fn narrow(&mut self, alloc: Global, a: &DecValue, b: &DecValue) -> Result<DecValue, NoMemory> {
        let w = narrow(alloc, &a.blocks, &b.blocks, &mut self.count)?;
        Ok(kept(w))
    }

    fn enter(
        &mut self,
        alloc: Global,
        v: &DecValue,
        args: &[u32],
        dims: u32,
    ) -> Result<DecValue, NoMemory> {
        let w = enter(alloc, &v.blocks, args, dims, &mut self.count)?;
        Ok(kept(w))
    }

    fn back(
        &mut self,
        alloc: Global,
        caller: &DecValue,
        exit: &DecValue,
        args: &[u32],
        outputs: u32,
        targets: &[u32],
    ) -> Result<DecValue, NoMemory> {
        let w = back(
            alloc,
            &caller.blocks,
            &exit.blocks,
            args,
            outputs,
            targets,
            &mut self.count,
        )?;
        Ok(kept(w))
    }
}
