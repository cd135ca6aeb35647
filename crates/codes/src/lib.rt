// Test 3: the codes and units of a node.
#![tactic(auto)]

ghost use Rattle.std.specs.Prelude.{◌≡◌, ◌≤◌, ◌<◌};
ghost use Rattle.style.specs.Codes.{unit_of};
ghost use Rattle.steps.specs.Scan.{lowest, some};
ghost use Rattle.steps.specs.Page.{nodes_in};
ghost use Rattle.steps.specs.Noes.{bad_unit, bad_word, bad_safety, bad_baseline, bad_align, bad_codes, ratio_beside_fraction, bad_style};

use style::{clear_from, code, distribution, flag, number, unit, word, word_in};
use tree::NodeId;

// 3: one of a node's 22 units, of its two unit words. A shift lays the two bits of each field over one another, a
// mask takes all fields at once: unit 3 has both bits, auto has none, and fields 10 to 17 take no auto.
fn some_bad_unit(u: u32, v: u32) -> bool
    ensures { result ≡ some (λ f. bad_unit f (unit_of u v f)) 22 }
{
    if ((u & (u >> 1)) & 0x0555_5555) != 0 {
        return true;
    }
    if ((v & (v >> 1)) & 0x5555) != 0 {
        return true;
    }
    let p = u >> 20;
    if ((p | (p >> 1)) & 0x55) != 0x55 {
        return true;
    }
    ((v | (v >> 1)) & 0x55) != 0x55
}

// 3: a word that is unknown, or stands beside bits 10-11.
fn bad_word(w: u32) -> bool
    ensures { result ≡ bad_word w }
{
    let k = distribution(w);
    if k == 0 {
        return false;
    }
    if 4 < k {
        return true;
    }
    code(w, style::ALIGN) != 0
}

// 3: safe beside neither center nor end.
fn bad_safety(w: u32) -> bool
    ensures { result ≡ bad_safety w }
{
    if flag(w, style::SAFE) {
        code(w, style::ALIGN) < 2
    } else {
        false
    }
}

// 3: a baseline on a non-leaf.
fn bad_baseline(w: u32) -> bool
    ensures { result ≡ bad_baseline w }
{
    if flag(w, style::BASELINE) {
        code(w, style::KIND) != 1
    } else {
        false
    }
}

// 3: the style word from bit 13 on.
fn bad_align(w: u32) -> bool
    ensures { result ≡ bad_align w }
{
    if !clear_from(w, style::UNUSED) {
        return true;
    }
    if bad_baseline(w) {
        return true;
    }
    if bad_word(w) {
        return true;
    }
    bad_safety(w)
}

// 3, of node i's words.
fn bad_codes(words: &[u32], i: usize) -> bool
    requires { i < nodes_in words.now }
    ensures { result ≡ bad_codes words.now i }
{
    let w = word_in(words, i, style::STYLE);
    let u = word_in(words, i, style::UNITS);
    let v = word_in(words, i, style::MORE_UNITS);
    if code(w, style::KIND) == 3 {
        return true;
    }
    if code(w, style::POSITION) == 3 {
        return true;
    }
    if bad_align(w) {
        return true;
    }
    if !clear_from(u, style::UNIT_BITS) {
        return true;
    }
    if !clear_from(v, style::MORE_UNIT_BITS) {
        return true;
    }
    if some_bad_unit(u, v) {
        return true;
    }
    if i == 0 {
        return code(w, style::KIND) != 0;
    }
    false
}

// 3: a ratio beside a fraction. Most nodes have no ratio, so it is read first.
fn ratio_beside_fraction(words: &[u32], numbers: &[f32], i: usize) -> bool
    ensures { result ≡ ratio_beside_fraction words.now numbers.now i }
{
    if number(numbers, i, style::RATIO) == 0.0 {
        return false;
    }
    let u = word(words, i, style::UNITS);
    let v = word(words, i, style::MORE_UNITS);
    if unit(u, v, 1) == 2 {
        return true;
    }
    if unit(u, v, 3) == 2 {
        return true;
    }
    unit(u, v, 5) == 2
}

// 3, of node i.
fn bad_style(words: &[u32], numbers: &[f32], i: usize) -> bool
    requires { i < nodes_in words.now }
    ensures { result ≡ bad_style words.now numbers.now i }
{
    if ratio_beside_fraction(words, numbers, i) {
        return true;
    }
    bad_codes(words, i)
}

// 3: the lowest node at fault.
pub fn first_bad_style(words: &[u32], numbers: &[f32]) -> Option<NodeId>
    requires { nodes_in words.now ≤ 1024 }
    ensures { result ≡ lowest (bad_style words.now numbers.now) (nodes_in words.now) }
{
    let n = words.len() / style::WORDS;
    for i in 0..n {
        if bad_style(words, numbers, i) {
            return Some(NodeId(i as u32));
        }
    }
    None
}

// 3 by the words alone: the lowest node at fault.
pub fn first_bad_codes(words: &[u32]) -> Option<NodeId>
    requires { nodes_in words.now ≤ 1024 }
    ensures { result ≡ lowest (bad_codes words.now) (nodes_in words.now) }
{
    let n = words.len() / style::WORDS;
    for i in 0..n {
        if bad_codes(words, i) {
            return Some(NodeId(i as u32));
        }
    }
    None
}
