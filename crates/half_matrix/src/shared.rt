// Half matrices that several holders may share.
ghost use Rattle.std.specs.Prelude.{◌≡◌, ◌≤◌, IfOk, length};
ghost use Rattle.std.specs.Borrow.{sem};
ghost use Rattle.oct_def.specs.Octagon.{top_matrix};
ghost use Rattle.half_matrix.specs.Sharing.{LendsBuf};

use crate::buf::HalfBuf;
use memory::NoMemory;
use std::alloc::Global;
use std::marker::Model;
use std::rc::Rc;

/// A half matrix that several holders may share. It is copied when one of them writes.
#[derive(Drop)]
pub struct HalfMatrix {
    shared: Rc<HalfBuf>,
}

impl Model for HalfMatrix {
    ghost use Rattle.oct_def.specs.Table.{Matrix};

    ghost Value = { Matrix };

    ghost view = { λ m. m.shared.value };
}

impl HalfMatrix {
    /// The matrix over so many variables that every state meets: no bounds but 0 on the diagonal.
    pub fn top(alloc: Global, vars: u32) -> Result<HalfMatrix, NoMemory>
        requires small { vars ≤ 512 }
        ensures { IfOk result (λ m. m ≡ top_matrix vars) }
    {
        let buf = HalfBuf::top(alloc, vars)?;
        let shared = Rc::new(alloc, buf)?;
        Ok(HalfMatrix { shared })
    }

    /// The same matrix for another holder. No word is copied.
    pub fn share(&self) -> Result<HalfMatrix, NoMemory>
        ensures { IfOk result (λ m. m ≡ self.now) }
    {
        let shared = self.shared.clone()?;
        Ok(HalfMatrix { shared })
    }

    /// The matrix, to be read.
    pub fn buf(&self) -> &HalfBuf
        ensures { result.now ≡ self.now }
    {
        &*self.shared
    }

    /// The matrix, to be written. It is copied first where another holder shares it, with the allocator that it keeps; other
    /// holders keep what they have, and after `NoMemory` it is as before. O(n^2) words where it is copied.
    pub fn writing(&mut self, alloc: Global) -> Result<&mut HalfBuf, NoMemory>
        ensures* writes_back { sem 𝓛 (LendsBuf self.entry result) }
        ensures same { IfOk result (λ b. b.now ≡ self.old) }
    {
        let _ = alloc;
        let buf = Rc::make_mut(&mut self.shared)?;
        Ok(buf)
    }
}
