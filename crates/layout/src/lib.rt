// The public calls: layout and relayout.
#![tactic(auto)]

ghost use Rattle.std.specs.Prelude.{◌≡◌, ◌+◌, ◌*◌, ◌≤◌, length};
ghost use Rattle.steps.specs.Scan.{lowest};
ghost use Rattle.steps.specs.Noes.{bad_row};
ghost use Rattle.layout.specs.Public.{Replied, IsPage, Finishes, IsCells, Relays};
ghost use Rattle.steps.specs.Question.{root_input};
ghost use Rattle.steps.specs.Results.{layout_result, relayout_result};

use compute::compute_block_layout;
use steps::{LayoutInput, Question, Refusal, root_input};
use tree::{MAX_DEPTH, NodeId};

// Is one of the 16 numbers of row i too large?
fn row_large(rows: &[f32], i: usize) -> bool
    requires { 16 * i + 16 ≤ length rows.now }
    ensures { result ≡ bad_row rows.now i }
{
    for k in 0..style::ROW {
        if limits::too_large(rows[style::ROW * i + k]) {
            return true;
        }
    }
    false
}

// The lowest of n rows that is too large.
fn first_large(rows: &[f32], n: usize) -> Option<NodeId>
    requires few { n ≤ 1024 }
    requires long { 16 * n ≤ length rows.now }
    ensures { result ≡ lowest (bad_row rows.now) n }
{
    for i in 0..n {
        if row_large(rows, i) {
            return Some(NodeId(i as u32));
        }
    }
    None
}

// Refusal 8 with rows that turn zero, or the candidates and their count.
fn finish_page(
    words: &[u32],
    rows: &mut [f32],
    marks: &mut [u32],
    pairs: &mut [u32],
    triples: &mut [f32],
) -> Result<u32, Refusal>
    requires { IsPage words.now rows.old marks.old pairs.old triples.old }
    ensures { Finishes words.now rows.old marks.old pairs.old triples.old result rows.new marks.new pairs.new triples.new }
{
    let found = first_large(rows, words.len() / style::WORDS);
    match found {
        Some(i) => {
            rows::clear(rows);
            rows::clear_marks(marks);
            Err(Refusal::TooLarge(i))
        }
        None => {
            let n = candidates::gather(
                &words[style::WORDS..],
                &rows[style::ROW..],
                &marks[style::MARKS..],
                1,
                pairs,
                triples,
            );
            Ok(n as u32)
        }
    }
}

// The width pass, the final pass, and the end of a page.
fn relay(
    words: &[u32],
    numbers: &[f32],
    rows: &mut [f32],
    marks: &mut [u32],
    edits: &[u32],
    pairs: &mut [u32],
    triples: &mut [f32],
    q: LayoutInput,
) -> Result<u32, Refusal>
    requires { IsCells words.now numbers.now rows.old marks.old edits.now pairs.old triples.old }
    ensures { Relays words.now numbers.now rows.old marks.old edits.now pairs.old triples.old q result rows.new marks.new pairs.new triples.new }
{
    let found = probing::width_pass(words, numbers, rows, marks, edits, q);
    let _out = compute_block_layout(words, numbers, rows, marks, edits, 0, MAX_DEPTH, q, found);
    finish_page(words, rows, marks, pairs, triples)
}

// A layout, for any question that a node may be asked.
fn lay_afresh(
    words: &[u32],
    numbers: &[f32],
    rows: &mut [f32],
    marks: &mut [u32],
    pairs: &mut [u32],
    triples: &mut [f32],
    q: LayoutInput,
) -> Result<u32, Refusal>
    ensures { Replied (layout_result words.now numbers.now rows.old marks.old pairs.old triples.old q) result rows.new marks.new pairs.new triples.new }
{
    tables::layout_tested(words, numbers, rows, marks, pairs, triples, q)?;
    rows::clear(rows);
    rows::clear_marks(marks);
    relay(words, numbers, rows, marks, &words[..0], pairs, triples, q)
}

// The same from the rows as they are lent.
fn lay_again(
    words: &[u32],
    numbers: &[f32],
    rows: &mut [f32],
    marks: &mut [u32],
    pairs: &mut [u32],
    triples: &mut [f32],
    edits: &[u32],
    q: LayoutInput,
) -> Result<u32, Refusal>
    ensures { Replied (relayout_result words.now numbers.now rows.old marks.old pairs.old triples.old edits.now q) result rows.new marks.new pairs.new triples.new }
{
    tables::relayout_tested(words, numbers, rows, marks, pairs, triples, edits, q)?;
    relay(words, numbers, rows, marks, edits, pairs, triples, q)
}

// A fresh layout of a page: the rows and candidates, or a refusal.
pub fn layout(
    words: &[u32],
    numbers: &[f32],
    rows: &mut [f32],
    marks: &mut [u32],
    pairs: &mut [u32],
    triples: &mut [f32],
    q: Question,
) -> Result<u32, Refusal>
    ensures { Replied (layout_result words.now numbers.now rows.old marks.old pairs.old triples.old (root_input q)) result rows.new marks.new pairs.new triples.new }
{
    lay_afresh(words, numbers, rows, marks, pairs, triples, root_input(q))
}

// A relayout from the rows as they are lent: kept rows, laid rows and candidates, or a refusal.
pub fn relayout(
    words: &[u32],
    numbers: &[f32],
    rows: &mut [f32],
    marks: &mut [u32],
    pairs: &mut [u32],
    triples: &mut [f32],
    edits: &[u32],
    q: Question,
) -> Result<u32, Refusal>
    ensures { Replied (relayout_result words.now numbers.now rows.old marks.old pairs.old triples.old edits.now (root_input q)) result rows.new marks.new pairs.new triples.new }
{
    lay_again(
        words,
        numbers,
        rows,
        marks,
        pairs,
        triples,
        edits,
        root_input(q),
    )
}
