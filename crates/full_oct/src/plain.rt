// The plain domain: its calls are those of its values.
use crate::value::FullValue;
use domain::Domain;
use oct_def::NoMemory;
use spl_core::Core;
use std::alloc::Global;

/// The plain domain. It keeps nothing between calls.
#[derive(Clone, Copy, Debug)]
pub struct FullDomain;

impl FullDomain {
    /// The domain. It takes no memory.
    pub fn new() -> FullDomain {
        FullDomain
    }
}

impl Domain for FullDomain {
    type V = FullValue;

    ghost meaning = { λ v. v };

    ghost work = { λ d. 0 };

    fn known(&self, v: &FullValue) {
        v.known();
    }

    fn top(&mut self, alloc: Global, dims: u32) -> Result<FullValue, NoMemory> {
        let v = FullValue::top(alloc, dims)?;
        Ok(v)
    }

    fn bottom(&mut self, dims: u32) -> FullValue {
        FullValue::bottom(dims)
    }

    fn share(&mut self, v: &FullValue) -> Result<FullValue, NoMemory> {
        let w = v.share()?;
        Ok(w)
    }

    fn same(&self, a: &FullValue, b: &FullValue) -> bool {
        a.is_same(b)
    }

    fn is_bottom(&self, v: &FullValue) -> bool {
        v.is_bottom()
    }

    fn entry(&self, v: &FullValue, i: u32, j: u32) -> i64 {
        v.entry(i, j)
    }

    fn close(&mut self, alloc: Global, v: &FullValue) -> Result<FullValue, NoMemory> {
        let w = v.closed(alloc)?;
        Ok(w)
    }

    fn assign(
        &mut self,
        alloc: Global,
        v: &FullValue,
        core: &Core,
        target: u32,
        expr: u32,
    ) -> Result<FullValue, NoMemory> {
        let w = v.assigned(alloc, core, target, expr)?;
        Ok(w)
    }

    fn copy(
        &mut self,
        alloc: Global,
        v: &FullValue,
        target: u32,
        origin: u32,
    ) -> Result<FullValue, NoMemory> {
        let w = v.assigned_copy(alloc, target, origin)?;
        Ok(w)
    }

    fn havoc(&mut self, alloc: Global, v: &FullValue, target: u32) -> Result<FullValue, NoMemory> {
        let w = v.forgotten(alloc, target)?;
        Ok(w)
    }

    fn test(
        &mut self,
        alloc: Global,
        v: &FullValue,
        core: &Core,
        cond: u32,
        wanted: bool,
    ) -> Result<FullValue, NoMemory> {
        let w = v.tested(alloc, core, cond, wanted)?;
        Ok(w)
    }

    fn join(&mut self, alloc: Global, a: &FullValue, b: &FullValue) -> Result<FullValue, NoMemory> {
        let w = a.joined(alloc, b)?;
        Ok(w)
    }

    fn widen(
        &mut self,
        alloc: Global,
        a: &FullValue,
        b: &FullValue,
    ) -> Result<FullValue, NoMemory> {
        let w = a.widened(alloc, b)?;
        Ok(w)
    }

    fn narrow(
        &mut self,
        alloc: Global,
        a: &FullValue,
        b: &FullValue,
    ) -> Result<FullValue, NoMemory> {
        let w = a.narrowed(alloc, b)?;
        Ok(w)
    }

    fn enter(
        &mut self,
        alloc: Global,
        v: &FullValue,
        args: &[u32],
        dims: u32,
    ) -> Result<FullValue, NoMemory> {
        let w = v.entered(alloc, args, dims)?;
        Ok(w)
    }

    fn back(
        &mut self,
        alloc: Global,
        caller: &FullValue,
        exit: &FullValue,
        args: &[u32],
        outputs: u32,
        targets: &[u32],
    ) -> Result<FullValue, NoMemory> {
        let w = caller.returned(alloc, exit, args, outputs, targets)?;
        Ok(w)
    }
}
