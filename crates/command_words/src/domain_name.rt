//! The domains of an analysis, by the words that name them.
ghost use Rattle.std.specs.Prelude.{◌≡◌, option_map};
ghost use Rattle.command_words.specs.Domains.{domain_of, domain_or};

/// A domain of octagons, by how its values lie in memory. What an analysis finds is the same in each.
#[derive(Clone, Copy, Debug, Drop, PartialEq, Eq)]
pub enum DomainName {
    /// One matrix for each block of variables with bounds between them: `dec`.
    Decomposed,
    /// One full matrix: `full`.
    Full,
}

/// The domain of an option's word, or the one in blocks where the option isn't given; `None` for a word that names none.
pub fn domain_given(word: Option<&str>) -> Option<DomainName>
    ensures { result ≡ domain_or (option_map (λ s. s.now) word.entry) }
{
    match word {
        Some(word) => domain_named(word),
        None => Some(DomainName::Decomposed),
    }
}

/// The domain that a word names.
fn domain_named(word: &str) -> Option<DomainName>
    ensures { result ≡ domain_of word.now }
{
    match word {
        "dec" => Some(DomainName::Decomposed),
        "full" => Some(DomainName::Full),
        _ => None,
    }
}
