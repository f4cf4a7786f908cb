//! What is noted of a program: a text for each printed point, and the texts of the lines after the program.
ghost use Rattle.std.specs.Prelude.{◌≡◌, ◌<◌, ◌++◌, ◌∷◌, [], length, slice_index_or, OnOk, OnErr};

use spl_types::NoMemory;
use std::alloc::Global;
use std::marker::Model;

/// A text for each printed point, in the order of their lines, and the closing texts: those of the lines after the
/// program. The texts are any bytes; each stands in the comment of its line.
#[derive(Drop)]
pub struct Notes {
    alloc: Global,
    points: Vec<Vec<u8>>,
    closing: Vec<Vec<u8>>,
}

impl Model for Notes {
    ghost use Rattle.std.specs.Prelude.{map};
    ghost use Rattle.spl_print.specs.Canonical.{Noted};

    ghost Value = { Noted };

    ghost view = { λ n. record { points = map (λ text. text.items) n.points.items; closing = map (λ text. text.items) n.closing.items } };
}

impl Notes {
    /// Nothing noted yet. It takes no memory, and keeps the allocator for the texts to come.
    pub fn new(alloc: Global) -> Notes
        ensures points { result.points ≡ [] }
        ensures closing { result.closing ≡ [] }
    {
        Notes {
            alloc,
            points: Vec::new(alloc),
            closing: Vec::new(alloc),
        }
    }

    /// Notes a copy of this text at the next point. After `NoMemory` the notes are as before.
    pub fn point(&mut self, text: &[u8]) -> Result<(), NoMemory>
        ensures added { OnOk result (self.new.points ≡ self.old.points ++ text.now ∷ []) }
        ensures closing { self.new.closing ≡ self.old.closing }
        ensures kept { OnErr result (self.new ≡ self.old) }
    {
        let copy = Vec::from_slice(self.alloc, text)?;
        self.points.push(copy)?;
        Ok(())
    }

    /// Adds a copy of this text to the closing texts. After `NoMemory` the notes are as before.
    pub fn closing(&mut self, text: &[u8]) -> Result<(), NoMemory>
        ensures added { OnOk result (self.new.closing ≡ self.old.closing ++ text.now ∷ []) }
        ensures points { self.new.points ≡ self.old.points }
        ensures kept { OnErr result (self.new ≡ self.old) }
    {
        let copy = Vec::from_slice(self.alloc, text)?;
        self.closing.push(copy)?;
        Ok(())
    }

    /// How many points have a text.
    pub(crate) fn point_count(&self) -> usize
        ensures { result ≡ length self.now.points }
    {
        self.points.len()
    }

    /// The text of the point with this number.
    pub(crate) fn point_text(&self, k: usize) -> &[u8]
        requires { k < length self.now.points }
        ensures { result.now ≡ slice_index_or self.now.points k result.now }
    {
        &self.points[k]
    }

    /// How many closing texts there are.
    pub(crate) fn closing_count(&self) -> usize
        ensures { result ≡ length self.now.closing }
    {
        self.closing.len()
    }

    /// The closing text with this number.
    pub(crate) fn closing_text(&self, k: usize) -> &[u8]
        requires { k < length self.now.closing }
        ensures { result.now ≡ slice_index_or self.now.closing k result.now }
    {
        &self.closing[k]
    }
}
