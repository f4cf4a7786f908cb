//! Words as text.
ghost use Rattle.std.specs.Prelude.{◌≡◌, IfOk, map};
ghost use Rattle.command_words.specs.Texts.{TextsOf};

use memory::NoMemory;
use std::alloc::Global;

/// The words as text, or `None` where one isn't UTF-8.
pub fn as_texts<'a>(alloc: Global, words: &'a [Vec<u8>]) -> Result<Option<Vec<&'a str>>, NoMemory>
    ensures { IfOk result (λ r. TextsOf (map (λ word. word.items) words.now) r) }
{
    let mut texts = Vec::new(alloc);
    for word in words {
        match std::str::from_utf8(word) {
            Ok(text) => texts.push(text)?,
            Err(_) => return Ok(None),
        }
    }
    Ok(Some(texts))
}
