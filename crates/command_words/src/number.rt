//! The numbers that words write.
ghost use Rattle.std.specs.Prelude.{◌≡◌};
ghost use Rattle.command_words.specs.Number.{IsValueOf, number_of, program_of, rounds_of};

/// How often to join before widening, or how many rounds narrow: one to four digits, at most 1000.
pub fn rounds(word: &str) -> Option<u32>
    ensures { result ≡ rounds_of word.now }
{
    number(word, 4, 0, 1000)
}

/// The number of a generated program: one or two digits, 1 to 42.
pub fn program(word: &str) -> Option<u32>
    ensures { result ≡ program_of word.now }
{
    number(word, 2, 1, 42)
}

/// The number that a word writes in decimal digits alone, one to so many of them, where it lies between these two.
fn number(word: &str, digits: usize, least: u32, greatest: u32) -> Option<u32>
    ensures { result ≡ number_of digits least greatest word.now }
{
    if word.len() > digits {
        return None;
    }
    match value(word) {
        Some(value) if least <= value && value <= greatest => Some(value),
        _ => None,
    }
}

/// The number that a word writes in decimal digits alone, where it fits a u32.
fn value(word: &str) -> Option<u32>
    ensures { IsValueOf word.now result }
{
    if word.starts_with('+') {
        return None;
    }
    word.parse::<u32>().ok()
}
