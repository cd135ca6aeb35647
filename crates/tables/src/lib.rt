// The tests before any write: whatever words and numbers arrive, the first refusal that is due, and its place.
#![tactic(auto)]

mod edits;
mod needed;

ghost use Rattle.std.specs.Prelude.{◌≡◌, ◌≤◌};
ghost use Rattle.style.specs.Style.{plane_of};
ghost use Rattle.steps.specs.Page.{nodes_in};
ghost use Rattle.tables.specs.TreeCheck.{GoodTable};
ghost use Rattle.steps.specs.Noes.{bad_tables, bad_rows, bad_codes, no2, no3_by, no3, no7, page_tested, layout_tested, relayout_tested, size_tested};
ghost use Rattle.tables.specs.Early.{early_tested};
ghost use Rattle.tables.specs.Walk.{RoomTested};

use crate::edits::edits_tested;
use crate::needed::{count_needed, records_in};
use codes::{first_bad_codes, first_bad_style};
use lent::word_at;
use numbers::numbers_tested;
use shape::check_tree;
use steps::{LayoutInput, Refusal};
use style::flag;

// 1: no node, over 1,024, or not 4 words and 28 numbers for each.
fn bad_tables(words: &[u32], numbers: &[f32]) -> bool
    ensures { result ≡ bad_tables words.now numbers.now }
{
    let n = words.len() / style::WORDS;
    if n == 0 {
        return true;
    }
    if tree::MAX_NODES < n {
        return true;
    }
    if words.len() != style::WORDS * n {
        return true;
    }
    numbers.len() != style::NUMBERS * n
}

// 1: not 16 row numbers and 2 row words for each node.
pub fn bad_rows(words: &[u32], rows: &[f32], marks: &[u32]) -> bool
    requires { nodes_in words.now ≤ 1024 }
    ensures { result ≡ bad_rows words.now rows.now marks.now }
{
    let n = words.len() / style::WORDS;
    if rows.len() != style::ROW * n {
        return true;
    }
    marks.len() != style::MARKS * n
}

// 2.
pub fn tree_tested(words: &[u32]) -> Result<(), Refusal>
    ensures { result ≡ no2 words.now }
{
    match check_tree(words) {
        None => Ok(()),
        Some(i) => Err(Refusal::Tree(i)),
    }
}

// 3.
fn codes_tested(words: &[u32], numbers: &[f32]) -> Result<(), Refusal>
    requires { nodes_in words.now ≤ 1024 }
    ensures { result ≡ no3 words.now numbers.now }
{
    match first_bad_style(words, numbers) {
        None => Ok(()),
        Some(i) => Err(Refusal::Codes(i)),
    }
}

// 3 by the words alone: a ratio beside a fraction shows in the numbers only.
pub fn words_tested(words: &[u32]) -> Result<(), Refusal>
    requires { nodes_in words.now ≤ 1024 }
    ensures { result ≡ no3_by (bad_codes words.now) words.now }
{
    match first_bad_codes(words) {
        None => Ok(()),
        Some(i) => Err(Refusal::Codes(i)),
    }
}

// 5.
fn room_tested(words: &[u32], pairs: &[u32], triples: &[f32]) -> Result<(), Refusal>
    requires { GoodTable words.now }
    ensures { RoomTested words.now pairs.now triples.now result }
{
    if records_in(pairs, triples) < count_needed(words) {
        return Err(Refusal::Room);
    }
    Ok(())
}

// 7.
pub fn root_tested(marks: &[u32]) -> Result<(), Refusal>
    ensures { result ≡ no7 marks.now }
{
    if flag(word_at(marks, 1), steps::LAID) {
        return Ok(());
    }
    Err(Refusal::NotLaid)
}

// 2 to 4.
#[tactic(auto, unfolding(steps::specs::Noes::page_tested, steps::specs::Noes::and_then))]
fn page_tested(words: &[u32], numbers: &[f32], q: LayoutInput) -> Result<(), Refusal>
    requires { (nodes_in words.now ≤ 1024) × (nodes_in words.now ≡ plane_of numbers.now) }
    ensures { result ≡ page_tested words.now numbers.now q }
{
    tree_tested(words)?;
    codes_tested(words, numbers)?;
    numbers_tested(words, numbers, q)
}

// 1 to 4 of a layout and of a relayout.
pub fn early_tested(
    words: &[u32],
    numbers: &[f32],
    rows: &[f32],
    marks: &[u32],
    q: LayoutInput,
) -> Result<(), Refusal>
    ensures { result ≡ early_tested words.now numbers.now rows.now marks.now q }
{
    if bad_tables(words, numbers) {
        return Err(Refusal::Lengths);
    }
    if bad_rows(words, rows, marks) {
        return Err(Refusal::Lengths);
    }
    page_tested(words, numbers, q)
}

// The tests of a layout: 1 to 5.
pub fn layout_tested(
    words: &[u32],
    numbers: &[f32],
    rows: &[f32],
    marks: &[u32],
    pairs: &[u32],
    triples: &[f32],
    q: LayoutInput,
) -> Result<(), Refusal>
    ensures { result ≡ layout_tested words.now numbers.now rows.now marks.now pairs.now triples.now q }
{
    early_tested(words, numbers, rows, marks, q)?;
    room_tested(words, pairs, triples)
}

// The tests of a relayout: 1 to 7.
#[tactic(auto, unfolding(steps::specs::Noes::relayout_tested, steps::specs::Noes::and_then))]
pub fn relayout_tested(
    words: &[u32],
    numbers: &[f32],
    rows: &[f32],
    marks: &[u32],
    pairs: &[u32],
    triples: &[f32],
    edits: &[u32],
    q: LayoutInput,
) -> Result<(), Refusal>
    ensures { result ≡ relayout_tested words.now numbers.now rows.now marks.now pairs.now triples.now edits.now q }
{
    layout_tested(words, numbers, rows, marks, pairs, triples, q)?;
    edits_tested(edits, words.len() / style::WORDS)?;
    root_tested(marks)
}

// The tests of a size question: 1 without rows, and 2 to 4.
pub fn size_tested(words: &[u32], numbers: &[f32], q: LayoutInput) -> Result<(), Refusal>
    ensures { result ≡ size_tested words.now numbers.now q }
{
    if bad_tables(words, numbers) {
        return Err(Refusal::Lengths);
    }
    page_tested(words, numbers, q)
}
