// Where a node's near edges stand on the page, and the tests of a call that is lent words, rows and marks alone.
#![tactic(auto)]

ghost use Rattle.std.specs.Prelude.{◌≡◌, ◌<◌};
ghost use Rattle.edges.specs.Edges.{row_number, edge_by};
ghost use Rattle.edges.specs.Tests.{bad_words, rows_tested};

use steps::Refusal;
use style::word;

// 1: no node, over 1,024, or not 4 words for each.
fn bad_words(words: &[u32]) -> bool
    ensures { result ≡ bad_words words.now }
{
    let n = words.len() / style::WORDS;
    if n == 0 {
        return true;
    }
    if tree::MAX_NODES < n {
        return true;
    }
    words.len() != style::WORDS * n
}

// 1, 2, 3 by the words alone, and 7.
#[tactic(auto, unfolding(crate::specs::Tests::rows_tested, crate::specs::Tests::laid_tested, steps::specs::Noes::and_then))]
pub fn rows_tested(words: &[u32], rows: &[f32], marks: &[u32]) -> Result<(), Refusal>
    ensures { result ≡ rows_tested words.now rows.now marks.now }
{
    if bad_words(words) {
        return Err(Refusal::Lengths);
    }
    if tables::bad_rows(words, rows, marks) {
        return Err(Refusal::Lengths);
    }
    tables::tree_tested(words)?;
    tables::words_tested(words)?;
    tables::root_tested(marks)
}

// Number f of row i, and 0 past the end.
pub fn row_number(rows: &[f32], i: usize, f: usize) -> f32
    requires { f < 16 }
    ensures { result ≡ row_number rows.now i f }
{
    if i <= rows.len() / style::ROW {
        let at = style::ROW * i + f;
        if at < rows.len() {
            return rows[at];
        }
    }
    0.0
}

// The near edge of node i on the page: its place, and down to the root the place of each lower node whose run holds it. f is 0 across and 1 down.
pub fn near_edge(words: &[u32], rows: &[f32], f: usize, i: usize) -> f32
    requires { f < 16 }
    ensures { result ≡ edge_by words.now rows.now f i }
{
    let mut edge = row_number(rows, i, f);
    for j in (0..i).rev() {
        if i - j < word(words, j, style::SIZE) as usize {
            edge = edge + row_number(rows, j, f);
        }
    }
    edge
}
