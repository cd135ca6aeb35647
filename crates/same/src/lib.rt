// Are two answers the same, to the last bit?
#![tactic(auto)]

ghost use Rattle.std.specs.Prelude.{◌≡◌, true};

use steps::{Refusal, number_of, place_of};

// By length and by bits; a NaN is the same as nothing.
pub fn numbers(a: &[f32], b: &[f32]) -> bool
    ensures { result ≡ true → a.now ≡ b.now }
{
    a.len() == b.len() && a.iter().zip(b).all(|(x, y)| limits::same_bits(*x, *y))
}

pub fn words(a: &[u32], b: &[u32]) -> bool
    ensures { result ≡ true → a.now ≡ b.now }
{
    a == b
}

pub fn answers(a: Result<u32, Refusal>, b: Result<u32, Refusal>) -> bool {
    number_of(a) == number_of(b) && place_of(a) == place_of(b)
}
