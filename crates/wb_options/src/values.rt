//! What the values of the keys say.
ghost use Rattle.std.specs.Prelude.{◌≡◌, ◌≤◌, IfSome, length, map, replicate, string_bytes};
ghost use Rattle.wb_port.specs.declared.accesses.Letter.TheVariants as letter;
ghost use Rattle.wb_port.specs.declared.accesses.Power.TheVariants as power;
ghost use Rattle.wb_options.specs.Numbers.{number_in};
ghost use Rattle.wb_options.specs.Options.{values, said_once, shape_key, points_key, conflicts_key, power_key};
ghost use Rattle.wb_options.specs.Questions.{letter_of, letters_of, shape_of, power_of};

use crate::numbers::number_in;
use crate::options::{CONFLICTS, Given, POINTS, POWER, SHAPE, given_to};
use wb_port::{Letter, Power, Shape};

/// The letter of a byte.
fn letter_of(byte: u8) -> Option<Letter>
    ensures { result ≡ letter_of byte }
{
    match byte {
        b'R' => Some(Letter::R),
        b'W' => Some(Letter::W),
        b'X' => Some(Letter::X),
        _ => None,
    }
}

/// The letters of at most 16 bytes, if each has one.
fn letters_of(bytes: &[u8]) -> Option<Shape>
    requires { length bytes.now ≤ 16 }
    ensures letters { result ≡ letters_of bytes.now }
    ensures len { IfSome result (λ shape. length shape ≡ length bytes.now) }
{
    let mut letters = [Letter::X; 16];
    for place in 0..bytes.len() {
        let Some(letter) = letter_of(bytes[place]) else {
            return None;
        };
        letters[place] = letter;
    }
    Some(Shape::of(&letters[..bytes.len()]))
}

/// A shape of so many letters.
fn shape_of(value: &str, n: u8) -> Option<Shape>
    requires { n ≤ 16 }
    ensures shape { result ≡ shape_of n value.now }
    ensures len { IfSome result (λ shape. length shape ≡ n) }
{
    if value.len() == usize::from(n) {
        letters_of(value.as_bytes())
    } else {
        None
    }
}

/// The shape of so many letters that allows any transfers.
fn any_shape(n: u8) -> Shape
    requires { n ≤ 16 }
    ensures { result ≡ replicate n letter.X }
{
    let letters = [Letter::X; 16];
    Shape::of(&letters[..usize::from(n)])
}

fn power_of(value: &str) -> Option<Power>
    ensures { result ≡ power_of value.now }
{
    if value == "zero" {
        Some(Power::Zero)
    } else if value == "any" {
        Some(Power::Any)
    } else {
        None
    }
}

/// The shape of so many letters that the options give, or any transfers.
pub fn shape_in(options: &[String], n: u8) -> Option<Shape>
    requires { n ≤ 16 }
    ensures shape { result ≡ said_once (shape_of n) (replicate n letter.X) (values shape_key (map string_bytes options.now)) }
    ensures len { IfSome result (λ shape. length shape ≡ n) }
{
    match given_to(options, SHAPE) {
        Given::Never => Some(any_shape(n)),
        Given::Once(value) => shape_of(value, n),
        Given::Twice => None,
    }
}

/// The most points that the options give, or 4,096.
pub fn points_in(options: &[String]) -> Option<u64>
    ensures points { result ≡ said_once (number_in 1 8192) 4096 (values points_key (map string_bytes options.now)) }
    ensures some { IfSome result (λ points. 1 ≤ points) }
    ensures most { IfSome result (λ points. points ≤ 8192) }
{
    match given_to(options, POINTS) {
        Given::Never => Some(4096),
        Given::Once(value) => number_in(value, 1, 8192),
        Given::Twice => None,
    }
}

/// The most conflicts that the options give, or 100,000.
pub fn conflicts_in(options: &[String]) -> Option<u64>
    ensures { result ≡ said_once (number_in 0 18446744073709551615) 100000 (values conflicts_key (map string_bytes options.now)) }
{
    match given_to(options, CONFLICTS) {
        Given::Never => Some(100_000),
        Given::Once(value) => number_in(value, 0, u64::MAX),
        Given::Twice => None,
    }
}

/// The power that the options give, or a RAM of zeros.
pub fn power_in(options: &[String]) -> Option<Power>
    ensures { result ≡ said_once power_of power.Zero (values power_key (map string_bytes options.now)) }
{
    match given_to(options, POWER) {
        Given::Never => Some(Power::Zero),
        Given::Once(value) => power_of(value),
        Given::Twice => None,
    }
}
