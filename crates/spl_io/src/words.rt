ghost use Rattle.std.specs.Prelude.{◌≡◌, ◌<◌, ◌++◌, ◌∷◌, [], List, ℕ, length, map, OnOk, OnErr};
ghost use Rattle.spl_io.specs.Words.{name_at};

use crate::NoMemory;
use std::alloc::Global;
use std::marker::Model;

/// A list of byte lists, as the words of a command line. A word need not be UTF-8.
#[derive(Drop)]
pub struct Words {
    alloc: Global,
    words: Vec<Vec<u8>>,
}

impl Model for Words {
    ghost Value = { List (List ℕ) };

    ghost view = { λ w. map (λ word. word.items) w.words.items };
}

impl Words {
    /// The empty list. It takes no memory, and keeps the allocator for the words to come.
    pub fn new(alloc: Global) -> Words
        ensures { result ≡ [] }
    {
        Words {
            alloc,
            words: Vec::new(alloc),
        }
    }

    /// Adds one word at the end, as a copy of its bytes.
    pub fn push(&mut self, word: &[u8]) -> Result<(), NoMemory>
        ensures added { OnOk result (self.new ≡ self.old ++ word.now ∷ []) }
        ensures kept { OnErr result (self.new ≡ self.old) }
    {
        let copy = Vec::from_slice(self.alloc, word)?;
        self.words.push(copy)?;
        Ok(())
    }

    /// How many words there are.
    pub fn len(&self) -> usize
        ensures { result ≡ length self.now }
    {
        self.words.len()
    }

    /// All words, in their order.
    pub fn as_slice(&self) -> &[Vec<u8>]
        ensures { map (λ word. word.items) result.now ≡ self.now }
    {
        self.words.as_slice()
    }

    /// The word at a place, counted from 0.
    pub fn word(&self, place: usize) -> &[u8]
        requires { place < length self.now }
        ensures { result.now ≡ name_at self.now place }
    {
        &self.words[place]
    }
}
