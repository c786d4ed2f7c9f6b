//! The numbers of a command line.
ghost use Rattle.std.specs.Prelude.{◌≡◌, ◌≤◌, IfSome};
ghost use Rattle.std.specs.Char.{is_digit};
ghost use Rattle.std.specs.List.{list_all};
ghost use Rattle.wb_options.specs.Numbers.{number_in};

/// Every byte is a decimal digit.
fn all_digits(word: &[u8]) -> bool
    ensures { result ≡ list_all (λ digit. is_digit digit 10) word.now }
{
    word.iter().all(|byte| byte.is_ascii_digit())
}

/// The number of a word that is one to twenty decimal digits, where it is in this range.
pub fn number_in(word: &str, least: u64, most: u64) -> Option<u64>
    ensures number { result ≡ number_in least most word.now }
    ensures within { IfSome result (λ number. (least ≤ number) × (number ≤ most)) }
{
    if word.is_empty() || word.len() > 20 || !all_digits(word.as_bytes()) {
        return None;
    }
    match word.parse::<u64>() {
        Ok(number) if least <= number && number <= most => Some(number),
        _ => None,
    }
}
