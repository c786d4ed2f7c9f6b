ghost use Rattle.std.specs.Prelude.{◌≡◌, ◌+◌, nat_lt};
ghost use Rattle.wb_term.specs.Numbers.{bit, cut, less, product, signed};

/// The low 16 bits of two words and a carry.
pub fn sum(x: u16, y: u16, carry: bool) -> u16
    ensures { result ≡ cut (x + y + bit carry) }
{
    ((u32::from(x) + u32::from(y) + u32::from(carry)) & 0xFFFF) as u16
}

/// The low 16 bits of a word less another and a borrow.
pub fn difference(x: u16, y: u16, borrow: bool) -> u16
    ensures { result ≡ less x (y + bit borrow) }
{
    let taken = u32::from(y) + u32::from(borrow);
    ((u32::from(x) + 0x1_0000 - taken) & 0xFFFF) as u16
}

/// Whether two words and a carry are over 65535.
pub fn carries(x: u16, y: u16, carry: bool) -> bool
    ensures { result ≡ nat_lt 65535 (x + y + bit carry) }
{
    u32::from(x) + u32::from(y) + u32::from(carry) > 0xFFFF
}

/// Whether a word is below another and a borrow.
pub fn borrows(x: u16, y: u16, borrow: bool) -> bool
    ensures { result ≡ nat_lt x (y + bit borrow) }
{
    u32::from(x) < u32::from(y) + u32::from(borrow)
}

/// A word as a signed number.
fn signed_value(word: u16) -> i64
    ensures { result ≡ signed word }
{
    let word = i64::from(word);
    if word < 32768 { word } else { word - 65536 }
}

/// Twice the signed product of two words, cut to 32 bits.
#[tactic(auto, unfolding(crate::specs::Numbers::product))]
pub fn twice_product(x: u16, y: u16) -> u32
    ensures { result ≡ product x y }
{
    let exact = signed_value(x) * signed_value(y) * 2;
    exact.rem_euclid(1 << 32) as u32
}
