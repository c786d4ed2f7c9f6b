//! The bytes of a line: its comment, its fields, and the values that they write.
ghost use Rattle.std.specs.Prelude.{◌≡◌, ◌≤◌, ◌<◌, ◌==◌, None, Some, false, [], ◌∷◌, length, slice_index, if◌then◌else◌};
ghost use Rattle.std.specs.Char.{is_digit, digit_value};
ghost use Rattle.std.specs.List.{position_or_len, list_all};
ghost use Rattle.std.specs.Str.Parse.{digits_value};
ghost use Rattle.wb_script.specs.Statement.{is_blank, before_comment, fields, byte_of, number_of};

// Where the first of these bytes stands, or the length where it doesn't occur.
pub fn place_of(byte: u8, bytes: &[u8]) -> usize
    ensures place { result ≡ position_or_len (λ b. b == byte) bytes.now }
    ensures within { result ≤ length bytes.now }
{
    for (place, found) in bytes.iter().enumerate() {
        if *found == byte {
            return place;
        }
    }
    bytes.len()
}

// A line up to its comment.
pub fn before_comment(line: &[u8]) -> &[u8]
    ensures { result.now ≡ before_comment line.now }
{
    &line[..place_of(b';', line)]
}

fn is_blank(byte: u8) -> bool
    ensures { result ≡ is_blank byte }
{
    byte == b' ' || byte == b'\t'
}

// Where the first blank stands, or the length where there is none.
fn first_blank(line: &[u8]) -> usize
    ensures place { result ≡ position_or_len is_blank line.now }
    ensures within { result ≤ length line.now }
{
    for (place, byte) in line.iter().enumerate() {
        if is_blank(*byte) {
            return place;
        }
    }
    line.len()
}

// A line without the blanks at its front.
fn after_blanks(line: &[u8]) -> &[u8]
    ensures same { fields result.now ≡ fields line.now }
    ensures first { 0 < length result.now → is_blank (slice_index result.now 0) ≡ false }
{
    for (place, byte) in line.iter().enumerate() {
        if !is_blank(*byte) {
            return &line[place..];
        }
    }
    &[]
}

// The first field and what follows it; where there is no field, both are empty.
pub fn split_field(line: &[u8]) -> (&[u8], &[u8])
    ensures none { length result.0.now ≡ 0 → fields line.now ≡ [] }
    ensures some { 0 < length result.0.now → fields line.now ≡ result.0.now ∷ fields result.1.now }
{
    let line = after_blanks(line);
    let end = first_blank(line);
    (&line[..end], &line[end..])
}

fn digit(byte: u8, radix: u32) -> Option<u32>
    requires least { 2 ≤ radix }
    requires most { radix ≤ 16 }
    ensures { result ≡ (if is_digit byte radix then Some (digit_value byte) else None) }
{
    char::from(byte).to_digit(radix)
}

// The byte that two hexadecimal digits write.
pub fn byte_of(text: &[u8]) -> Option<u8>
    ensures { result ≡ byte_of text.now }
{
    match text {
        [high, low] => {
            let value = digit(*high, 16)? * 16 + digit(*low, 16)?;
            Some(value as u8)
        }
        _ => None,
    }
}

// The number that up to five decimal digits write, where there are no other bytes.
fn decimal(digits: &[u8]) -> Option<u32>
    requires { length digits.now ≤ 5 }
    ensures { result ≡ (if list_all (λ digit. is_digit digit 10) digits.now then Some (digits_value 10 digits.now) else None) }
{
    let mut value = 0;
    for byte in digits {
        value = value * 10 + digit(*byte, 10)?;
    }
    Some(value)
}

// The number that one to five decimal digits write, up to 65535.
pub fn number_of(digits: &[u8]) -> Option<u16>
    ensures { result ≡ number_of digits.now }
{
    if digits.is_empty() || digits.len() > 5 {
        return None;
    }
    u16::try_from(decimal(digits)?).ok()
}
