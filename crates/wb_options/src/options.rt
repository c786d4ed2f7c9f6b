//! Words of a key and its value.
ghost use Rattle.std.specs.Prelude.{◌≡◌, ℕ, List, [], ◌∷◌, ◌++◌, map, string_bytes};
ghost use Rattle.std.specs.Option.{option_map};
ghost use Rattle.std.specs.List.{list_all};
ghost use Rattle.wb_options.specs.Options.{has_key, is_option, value_of, values, IsGiven};

pub const SHAPE: &str = "shape=";

pub const POINTS: &str = "points=";

pub const CONFLICTS: &str = "conflicts=";

pub const POWER: &str = "power=";

/// What some words give to a key.
#[derive(Clone, Copy)]
pub enum Given<'a> {
    Never,
    Once(&'a str),
    Twice,
}

/// Whether a word begins with a key.
fn has_key(word: &str, key: &str) -> bool
    ensures { result ≡ has_key key.now word.now }
{
    word.starts_with(key)
}

fn is_option(word: &str) -> bool
    ensures { result ≡ is_option word.now }
{
    has_key(word, SHAPE)
        || has_key(word, POINTS)
        || has_key(word, CONFLICTS)
        || has_key(word, POWER)
}

/// Whether all words are options.
pub fn all_options(words: &[String]) -> bool
    ensures { result ≡ list_all is_option (map string_bytes words.now) }
{
    for word in words {
        if !is_option(word.as_str()) {
            return false;
        }
    }
    true
}

/// What stands after the key in a word that begins with it.
fn value_of<'a>(word: &'a str, key: &str) -> Option<&'a str>
    ensures { option_map (λ value. value.now) result ≡ value_of key.now word.now }
{
    word.strip_prefix(key)
}

impl<'a> Given<'a> {
    /// One value more.
    fn and(self, value: &'a str) -> Given<'a>
        ensures { (before : List (List ℕ)) → IsGiven before self.entry → IsGiven (before ++ value.now ∷ []) result }
    {
        match self {
            Given::Never => Given::Once(value),
            Given::Once(_) | Given::Twice => Given::Twice,
        }
    }
}

/// What a key is given with one word more.
fn with_word<'a>(found: Given<'a>, word: &'a str, key: &str) -> Given<'a>
    ensures { (before : List (List ℕ)) → IsGiven before found.entry → IsGiven (before ++ values key.now (word.now ∷ [])) result }
{
    match value_of(word, key) {
        Some(value) => found.and(value),
        None => found,
    }
}

/// What some words give to a key.
pub fn given_to<'a>(words: &'a [String], key: &str) -> Given<'a>
    ensures { IsGiven (values key.now (map string_bytes words.now)) result }
{
    let mut found = Given::Never;
    for word in words {
        found = with_word(found, word.as_str(), key);
    }
    found
}
