// Test 4: the numbers of a node, and those of the question.
#![tactic(auto)]

ghost use Rattle.std.specs.Prelude.{◌≡◌, true, false, cond, ◌-◌, ◌≤◌, ◌<◌};
ghost use Rattle.std.specs.Float.Ieee.{neg};
ghost use Rattle.geometry.specs.Geometry.{zero_f};
ghost use Rattle.style.specs.Style.{word_at, plane_of, number_at};
ghost use Rattle.steps.specs.Scan.{scan, lowest, some};
ghost use Rattle.steps.specs.Page.{nodes_in};
ghost use Rattle.steps.specs.Noes.{signed, most_of, bad_field, bad_pixels, bad_ratio, bad_numbers, bad_option, bad_question, no4};
ghost use Rattle.numbers.specs.Fields.{bad_field_at};

use limits::in_range;
use steps::{LayoutInput, Refusal};
use style::{number_in, unit, word_in};
use tree::NodeId;

// 4: not from 0 to 65,536.
fn bad_pixels(x: f32) -> bool
    ensures { result ≡ bad_pixels x }
{
    !in_range(x, 0.0, 65536.0)
}

// 4: neither 0 nor from 1/64 to 64.
fn bad_ratio(x: f32) -> bool
    ensures { result ≡ bad_ratio x }
{
    if x == 0.0 {
        return false;
    }
    !in_range(x, 0.015625, 64.0)
}

// 4: margins and insets may be negative.
fn signed(f: usize) -> bool
    ensures { result ≡ signed f }
{
    if f < style::MARGIN {
        return false;
    }
    if f < style::PADDING {
        return true;
    }
    if f < style::INSET {
        return false;
    }
    f < style::LENGTHS
}

// 4: the most that a length of this unit may be.
fn most_of(unit: u32) -> f32
    ensures { result ≡ most_of unit }
{
    if unit == 2 { 1.0 } else { 65536.0 }
}

// 4: the least that goes with the most of field f.
fn least_of(f: usize, most: f32) -> f32
    ensures { result ≡ cond (signed f) (neg most) zero_f }
{
    if signed(f) { -most } else { 0.0 }
}

// 4: field f. From 0 to 1 a length is good whatever its field and unit, and most are there: the others are asked for both.
fn bad_field(f: usize, unit: u32, x: f32) -> bool
    ensures { result ≡ bad_field f unit x }
{
    if in_range(x, 0.0, 1.0) {
        return false;
    }
    let most = most_of(unit);
    !in_range(x, least_of(f, most), most)
}

// 4: one of node i's fields from .. to.
fn some_bad_field(
    u: u32,
    v: u32,
    numbers: &[f32],
    n: usize,
    i: usize,
    from: usize,
    to: usize,
) -> bool
    requires { ((n ≡ plane_of numbers.now) × (i < n)) × ((from ≤ to) × (to ≤ 22)) }
    ensures { result ≡ scan (bad_field_at u v numbers.now i) (λ _. true) false from (to - from) }
{
    for f in from..to {
        if bad_field(f, unit(u, v, f as u32), number_in(numbers, n, i, f)) {
            return true;
        }
    }
    false
}

// 4: one of its 22 lengths: those whose units stand in the first word, and those of the second.
fn some_bad_length(words: &[u32], numbers: &[f32], n: usize, i: usize) -> bool
    requires { ((n ≡ plane_of numbers.now) × (i < n)) × (i < nodes_in words.now) }
    ensures { result ≡ some (bad_field_at (word_at words.now i 2) (word_at words.now i 3) numbers.now i) 22 }
{
    let u = word_in(words, i, style::UNITS);
    let v = word_in(words, i, style::MORE_UNITS);
    if some_bad_field(u, v, numbers, n, i, 0, style::BORDER) {
        return true;
    }
    some_bad_field(u, v, numbers, n, i, style::BORDER, style::LENGTHS)
}

// 4, of node i.
fn bad_numbers(words: &[u32], numbers: &[f32], n: usize, i: usize) -> bool
    requires { ((n ≡ plane_of numbers.now) × (i < n)) × (i < nodes_in words.now) }
    ensures { result ≡ bad_numbers words.now numbers.now i }
{
    if some_bad_length(words, numbers, n, i) {
        return true;
    }
    if bad_ratio(number_in(numbers, n, i, style::RATIO)) {
        return true;
    }
    if bad_pixels(number_in(numbers, n, i, style::SCROLLBAR)) {
        return true;
    }
    let least = number_in(numbers, n, i, style::LEAST);
    if bad_pixels(least) {
        return true;
    }
    let most = number_in(numbers, n, i, style::MOST);
    if bad_pixels(most) {
        return true;
    }
    let height = number_in(numbers, n, i, style::HEIGHT);
    if bad_pixels(height) {
        return true;
    }
    if most < least {
        return true;
    }
    !in_range(number_in(numbers, n, i, style::FIRST_BASELINE), 0.0, height)
}

// 4: the lowest node at fault. It counts nodes by the planes: then no read asks whether its node is in them.
fn first_bad_numbers(words: &[u32], numbers: &[f32]) -> Option<NodeId>
    requires { (nodes_in words.now ≤ 1024) × (nodes_in words.now ≡ plane_of numbers.now) }
    ensures { result ≡ lowest (bad_numbers words.now numbers.now) (nodes_in words.now) }
{
    let n = numbers.len() / style::NUMBERS;
    for i in 0..n {
        if bad_numbers(words, numbers, n, i) {
            return Some(NodeId(i as u32));
        }
    }
    None
}

// 4: a number of the question, where there is one.
fn bad_option(o: Option<f32>) -> bool
    ensures { result ≡ bad_option o }
{
    match o {
        None => false,
        Some(x) => bad_pixels(x),
    }
}

// 4, of the question.
fn bad_question(q: LayoutInput) -> bool
    ensures { result ≡ bad_question q }
{
    let known = q.known;
    let width = known.width;
    if bad_option(width) {
        return true;
    }
    let height = known.height;
    if bad_option(height) {
        return true;
    }
    let parent = q.parent;
    if bad_option(parent) {
        return true;
    }
    let available = q.available;
    bad_option(available.into_option())
}

// 4: the question's place is n.
fn question_place(words: &[u32]) -> u32
    requires { nodes_in words.now ≤ 1024 }
    ensures { result ≡ nodes_in words.now }
{
    (words.len() / style::WORDS) as u32
}

// 4: the nodes first, then the question.
pub fn numbers_tested(words: &[u32], numbers: &[f32], q: LayoutInput) -> Result<(), Refusal>
    requires { (nodes_in words.now ≤ 1024) × (nodes_in words.now ≡ plane_of numbers.now) }
    ensures { result ≡ no4 words.now numbers.now q }
{
    if let Some(i) = first_bad_numbers(words, numbers) {
        return Err(Refusal::Numbers(i.0));
    }
    if bad_question(q) {
        return Err(Refusal::Numbers(question_place(words)));
    }
    Ok(())
}
