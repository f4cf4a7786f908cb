// What the type of a slice says of its words.
ghost use Rattle.minplus_lanes.specs.Rows.{AllFit};

// Each word of a slice is a signed number of 64 bits. Reading it says so; the compiler leaves the walk out.
pub(crate) fn all_fit(words: &[i64])
    ensures { AllFit words.now }
{
    for j in 0..words.len() {
        let _word = words[j];
    }
}
