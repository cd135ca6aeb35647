// Pieces of a text, and the numbers that are written in them.
#![tactic(auto)]

ghost use Rattle.std.specs.Prelude.{◌≡◌, true, false, ◌+◌, ◌≤◌, ◌==◌, length, drop, position, MatchOption};
ghost use Rattle.std.specs.Float.{binary32};
ghost use Rattle.std.specs.Float.Ieee.{to_bits};
ghost use Rattle.text.specs.Pieces.{split, lines_of, piece_at, starts_with, same, Starts, Ends};
ghost use Rattle.text.specs.Values.{digit_of, value_of, hex_of, float_of, number_of};

// How many separators a text has; it has one piece more.
#[tactic(auto, using(crate::proofs::PieceTurn::split_count))]
pub fn separators(s: &[u8], sep: u8) -> usize
    ensures { length (split sep s.now) ≡ result + 1 }
{
    s.iter().filter(|b| **b == sep).count()
}

// Where the first separator stands.
fn first(s: &[u8], sep: u8) -> Option<usize>
    ensures { result ≡ position (λ b. b == sep) s.now }
{
    s.iter().position(|b| *b == sep)
}

// Where the piece that starts at `from` ends: at the next separator, or at the end.
pub fn piece_end(s: &[u8], sep: u8, from: usize) -> usize
    requires { from ≤ length s.now }
    ensures { Ends sep from s.now result }
{
    match first(&s[from..], sep) {
        Some(k) => from + k,
        None => s.len(),
    }
}

// Where piece k starts: past k separators, or at the end if there are fewer.
pub fn piece_start(s: &[u8], sep: u8, k: usize) -> usize
    ensures { Starts sep k s.now result }
{
    let mut at = 0;
    for _ in 0..k {
        let end = piece_end(s, sep, at);
        if end == s.len() {
            return end;
        }
        at = end + 1;
    }
    at
}

// Piece k, empty if there is none.
#[tactic(auto, using(crate::proofs::PieceTurn::between))]
pub fn piece(s: &[u8], sep: u8, k: usize) -> &[u8]
    ensures { result.now ≡ piece_at (split sep s.now) k }
{
    let start = piece_start(s, sep, k);
    let end = piece_end(s, sep, start);
    &s[start..end]
}

// Line k without its newline, empty if there is none.
#[tactic(auto, using(crate::proofs::PieceTurn::line_piece))]
pub fn line(s: &[u8], k: usize) -> &[u8]
    ensures { result.now ≡ piece_at (lines_of s.now) k }
{
    piece(s, b'\n', k)
}

// Does a text start with these bytes?
#[tactic(auto, using(crate::proofs::PieceTurn::begins_is))]
pub fn starts_with(s: &[u8], key: &[u8]) -> bool
    ensures { result ≡ starts_with key.now s.now }
{
    s.starts_with(key)
}

// What follows the key, if the text starts with it.
#[tactic(auto, using(crate::proofs::PieceTurn::prefix_is))]
pub fn past_key<'a>(s: &'a [u8], key: &[u8]) -> Option<&'a [u8]>
    ensures { MatchOption result (starts_with key.now s.now ≡ false) (λ r. (starts_with key.now s.now ≡ true) × (r.now ≡ drop (length key.now) s.now)) }
{
    s.strip_prefix(key)
}

// Is a text these bytes and no more?
#[tactic(auto, using(crate::proofs::PieceTurn::same_is))]
pub fn is_text(s: &[u8], key: &[u8]) -> bool
    ensures { result ≡ same key.now s.now }
{
    s == key
}

// The value of a digit, 16 for what is none.
#[tactic(auto, using(std::proofs::lemmas::Bool::Decides::nat_tests), unfolding(crate::specs::Values::digit_of))]
fn digit(b: u8) -> u64
    ensures { result ≡ digit_of b }
{
    match b {
        b'0'..=b'9' => u64::from(b - b'0'),
        b'a'..=b'f' => u64::from(b - b'a' + 10),
        _ => 16,
    }
}

// Digits of a base, one at least, with a value up to the limit.
pub fn digits(s: &[u8], base: u8, limit: u32) -> Option<u32>
    ensures { result ≡ value_of base limit s.now }
{
    if s.is_empty() {
        return None;
    }
    let mut v = 0u64;
    for &b in s {
        let d = digit(b);
        if u64::from(base) <= d {
            return None;
        }
        v = v * u64::from(base) + d;
        if u64::from(limit) < v {
            return None;
        }
    }
    Some(v as u32)
}

// Eight hex digits.
#[tactic(auto, using(std::proofs::lemmas::Bool::Decides::nat_tests), unfolding(crate::specs::Values::hex_of))]
pub fn hex(s: &[u8]) -> Option<u32>
    ensures { result ≡ hex_of s.now }
{
    if s.len() != 8 {
        return None;
    }
    digits(s, 16, 0xffff_ffff)
}

// The number of a bit pattern; each NaN pattern gives the one NaN.
pub fn float_of(w: u32) -> f32
    ensures { result ≡ float_of w }
{
    if 0x7f80_0000 < w % 0x8000_0000 {
        let zero = 0.0;
        return zero / zero;
    }
    f32::from_bits(w)
}

// The number whose bit pattern is written.
#[tactic(auto, unfolding(crate::specs::Values::number_of))]
pub fn number(v: Option<u32>) -> Option<f32>
    ensures { result ≡ number_of v }
{
    v.map(float_of)
}

// The bit pattern of a number, 0x7fc00000 for a NaN.
pub fn bits_of(x: f32) -> u32
    ensures { result ≡ to_bits binary32 x }
{
    if x.is_nan() {
        return 0x7fc0_0000;
    }
    f32::to_bits(x)
}
