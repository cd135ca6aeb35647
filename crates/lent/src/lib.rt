// Reads of lent slices that need no index in range, and the smaller of two counts.
#![tactic(auto)]

ghost use Rattle.std.specs.Prelude.{◌≡◌, min, get_or};
ghost use Rattle.geometry.specs.Geometry.{zero_f};

// Element i of any list, a row's or a record's, and 0 past the end. (A node's number is read by style::number_in, which
// alone goes by planes.)
pub fn number_at(numbers: &[f32], i: usize) -> f32
    ensures { result ≡ get_or numbers.now i zero_f }
{
    if i < numbers.len() { numbers[i] } else { 0.0 }
}

// 0 past the end.
pub fn word_at(words: &[u32], i: usize) -> u32
    ensures { result ≡ get_or words.now i 0 }
{
    if i < words.len() { words[i] } else { 0 }
}

pub fn smaller(a: usize, b: usize) -> usize
    ensures { result ≡ min a b }
{
    if a < b { a } else { b }
}
