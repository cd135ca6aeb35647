// The candidate list as a slice of records. The core writes plain slices; nothing that holds a record slice goes through it.
#![tactic(auto)]

ghost use Rattle.std.specs.Prelude.{◌≡◌, ◌++◌, ◌<◌, ◌≤◌, ◌^◌, min, length, drop, get_or};
ghost use Rattle.geometry.specs.Geometry.{zero_f};
ghost use Rattle.steps.specs.Question.{root_input};
ghost use Rattle.layout.specs.Public.{Replied};
ghost use Rattle.records.specs.Records.{record_at, records_from, count_of};
ghost use Rattle.records.specs.Results.{layout_within, relayout_within, RecordsReplied, layout_records_result, relayout_records_result};

use lent::{number_at, smaller, word_at};
use steps::{Question, Refusal};
use tree::{NodeId, Order};

// One candidate. Its node and its order are two counts, and so two types.
#[derive(Clone, Copy)]
pub struct Record {
    pub node: NodeId,
    pub order: Order,
    pub start: f32,
    pub end: f32,
    pub line: f32,
}

// Record k of the plain slices; the bound on k keeps its places from wrapping.
fn record_at(pairs: &[u32], triples: &[f32], k: usize) -> Record
    requires { k < 2 ^ 59 }
    ensures { result ≡ record_at pairs.now triples.now k }
{
    Record {
        node: NodeId(word_at(pairs, k * 2)),
        order: Order(word_at(pairs, k * 2 + 1)),
        start: number_at(triples, k * 3),
        end: number_at(triples, k * 3 + 1),
        line: number_at(triples, k * 3 + 2),
    }
}

// The first n records, from the plain slices and in their order. What is past them stays.
fn store_records(out: &mut [Record], pairs: &[u32], triples: &[f32], n: usize)
    requires { n ≤ length out.old }
    ensures { out.new ≡ records_from pairs.now triples.now n ++ drop n out.old }
{
    for k in 0..n {
        out[k] = record_at(pairs, triples, k);
    }
}

// How many records an answer comes with: none with a refusal.
#[tactic(auto, unfolding(crate::specs::Records::count_of))]
fn count_of(a: Result<u32, Refusal>) -> usize
    ensures { result ≡ count_of a }
{
    match a {
        Ok(n) => n as usize,
        Err(_) => 0,
    }
}

// A layout with the plain slices cut to k records, so that its own test of room counts those too.
fn layout_within(
    words: &[u32],
    numbers: &[f32],
    rows: &mut [f32],
    marks: &mut [u32],
    pairs: &mut [u32],
    triples: &mut [f32],
    k: usize,
    q: Question,
) -> Result<u32, Refusal>
    ensures { Replied (layout_within words.now numbers.now rows.old marks.old pairs.old triples.old k (root_input q)) result rows.new marks.new pairs.new triples.new }
{
    let m = smaller(k, smaller(pairs.len() / 2, triples.len() / 3));
    let m2 = 2 * m;
    let m3 = 3 * m;
    layout::layout(
        words,
        numbers,
        rows,
        marks,
        &mut pairs[..m2],
        &mut triples[..m3],
        q,
    )
}

// The same of a relayout.
fn relayout_within(
    words: &[u32],
    numbers: &[f32],
    rows: &mut [f32],
    marks: &mut [u32],
    pairs: &mut [u32],
    triples: &mut [f32],
    k: usize,
    edits: &[u32],
    q: Question,
) -> Result<u32, Refusal>
    ensures { Replied (relayout_within words.now numbers.now rows.old marks.old pairs.old triples.old k edits.now (root_input q)) result rows.new marks.new pairs.new triples.new }
{
    let m = smaller(k, smaller(pairs.len() / 2, triples.len() / 3));
    let m2 = 2 * m;
    let m3 = 3 * m;
    layout::relayout(
        words,
        numbers,
        rows,
        marks,
        &mut pairs[..m2],
        &mut triples[..m3],
        edits,
        q,
    )
}

// A fresh layout of a page, its candidates as records. pairs and triples are what the core writes to, and hold them too.
pub fn layout_records(
    words: &[u32],
    numbers: &[f32],
    rows: &mut [f32],
    marks: &mut [u32],
    pairs: &mut [u32],
    triples: &mut [f32],
    records: &mut [Record],
    q: Question,
) -> Result<u32, Refusal>
    ensures { RecordsReplied (layout_records_result words.now numbers.now rows.old marks.old pairs.old triples.old records.old (root_input q)) result rows.new marks.new pairs.new triples.new records.new }
{
    let a = layout_within(
        words,
        numbers,
        rows,
        marks,
        pairs,
        triples,
        records.len(),
        q,
    );
    store_records(records, pairs, triples, count_of(a));
    a
}

// A relayout from the rows as they are lent, its candidates as records.
pub fn relayout_records(
    words: &[u32],
    numbers: &[f32],
    rows: &mut [f32],
    marks: &mut [u32],
    pairs: &mut [u32],
    triples: &mut [f32],
    records: &mut [Record],
    edits: &[u32],
    q: Question,
) -> Result<u32, Refusal>
    ensures { RecordsReplied (relayout_records_result words.now numbers.now rows.old marks.old pairs.old triples.old records.old edits.now (root_input q)) result rows.new marks.new pairs.new triples.new records.new }
{
    let a = relayout_within(
        words,
        numbers,
        rows,
        marks,
        pairs,
        triples,
        records.len(),
        edits,
        q,
    );
    store_records(records, pairs, triples, count_of(a));
    a
}
