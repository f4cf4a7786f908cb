//! A domain that counts its assignments.
use domain::Domain;
use full_oct::{FullDomain, FullValue};
use oct_def::NoMemory;
use spl_core::Core;
use std::alloc::Global;

/// The plain domain, with the number of its assignments so far.
#[derive(Drop)]
pub(crate) struct CountingDomain {
    inner: FullDomain,
    pub(crate) assignments: u32,
}

impl CountingDomain {
    /// The domain before any call.
    pub(crate) fn new() -> CountingDomain {
        CountingDomain {
            inner: FullDomain::new(),
            assignments: 0,
        }
    }
}

impl Domain for CountingDomain {
    type V = FullValue;

    ghost meaning = { λ v. v };

    ghost work = { λ d. 0 };

    fn known(&self, v: &FullValue) {
        self.inner.known(v);
    }

    fn top(&mut self, alloc: Global, dims: u32) -> Result<FullValue, NoMemory> {
        let w = self.inner.top(alloc, dims)?;
        Ok(w)
    }

    fn bottom(&mut self, dims: u32) -> FullValue {
        self.inner.bottom(dims)
    }

    fn share(&mut self, v: &FullValue) -> Result<FullValue, NoMemory> {
        let w = self.inner.share(v)?;
        Ok(w)
    }

    fn same(&self, a: &FullValue, b: &FullValue) -> bool {
        self.inner.same(a, b)
    }

    fn is_bottom(&self, v: &FullValue) -> bool {
        self.inner.is_bottom(v)
    }

    fn entry(&self, v: &FullValue, i: u32, j: u32) -> i64 {
        self.inner.entry(v, i, j)
    }

    fn close(&mut self, alloc: Global, v: &FullValue) -> Result<FullValue, NoMemory> {
        let w = self.inner.close(alloc, v)?;
        Ok(w)
    }

    fn assign(
        &mut self,
        alloc: Global,
        v: &FullValue,
        core: &Core,
        target: u32,
        expr: u32,
    ) -> Result<FullValue, NoMemory> {
        self.assignments = self.assignments.saturating_add(1);
        let w = self.inner.assign(alloc, v, core, target, expr)?;
        Ok(w)
    }

    fn copy(
        &mut self,
        alloc: Global,
        v: &FullValue,
        target: u32,
        origin: u32,
    ) -> Result<FullValue, NoMemory> {
        let w = self.inner.copy(alloc, v, target, origin)?;
        Ok(w)
    }

    fn havoc(&mut self, alloc: Global, v: &FullValue, target: u32) -> Result<FullValue, NoMemory> {
        let w = self.inner.havoc(alloc, v, target)?;
        Ok(w)
    }

    fn test(
        &mut self,
        alloc: Global,
        v: &FullValue,
        core: &Core,
        cond: u32,
        wanted: bool,
    ) -> Result<FullValue, NoMemory> {
        let w = self.inner.test(alloc, v, core, cond, wanted)?;
        Ok(w)
    }

    fn join(&mut self, alloc: Global, a: &FullValue, b: &FullValue) -> Result<FullValue, NoMemory> {
        let w = self.inner.join(alloc, a, b)?;
        Ok(w)
    }

    fn widen(
        &mut self,
        alloc: Global,
        a: &FullValue,
        b: &FullValue,
    ) -> Result<FullValue, NoMemory> {
        let w = self.inner.widen(alloc, a, b)?;
        Ok(w)
    }

    fn narrow(
        &mut self,
        alloc: Global,
        a: &FullValue,
        b: &FullValue,
    ) -> Result<FullValue, NoMemory> {
        let w = self.inner.narrow(alloc, a, b)?;
        Ok(w)
    }

    fn enter(
        &mut self,
        alloc: Global,
        v: &FullValue,
        args: &[u32],
        dims: u32,
    ) -> Result<FullValue, NoMemory> {
        let w = self.inner.enter(alloc, v, args, dims)?;
        Ok(w)
    }

    fn back(
        &mut self,
        alloc: Global,
        caller: &FullValue,
        exit: &FullValue,
        args: &[u32],
        outputs: u32,
        targets: &[u32],
    ) -> Result<FullValue, NoMemory> {
        let w = self
            .inner
            .back(alloc, caller, exit, args, outputs, targets)?;
        Ok(w)
    }
}
