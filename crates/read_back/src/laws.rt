//! The law, as a call whose contract it is.
ghost use Rattle.read_back.specs.ReadsBack.{CanonicalTextReadsBack};

use spl_text::law_tokens_spelled;

/// Whatever is noted at the points of a program that was read, in texts without `*/`: the canonical text breaks no rule
/// of tokens, and its tokens derive the same program, places aside.
pub fn law_reads_back()
    ensures { CanonicalTextReadsBack }
{
    law_tokens_spelled();
}
