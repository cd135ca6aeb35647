// The lines of the nodes: four words for each, and numbers of the node above.
ghost use Rattle.std.specs.Prelude.{◌<◌, ◌≤◌, length, drop, MatchResult};
ghost use Rattle.text.specs.Pieces.{lines_of};
ghost use Rattle.page.specs.Body.{tables, body_line, node_step, num_step, line_number, rest, TablesFit, Turned, Ended};

use crate::PageError;
use lines::{FieldNumber, NodeWords};

// The next node's words, and how many nodes there are with it, if it is one of n.
fn put_node(
    w: NodeWords,
    n: usize,
    count: usize,
    words: &mut [u32],
    numbers: &[f32],
) -> Option<usize>
    requires { TablesFit n count words.old numbers.now }
    ensures { Turned n (node_step n (tables count words.old numbers.now) w) (tables count words.old numbers.now) result words.new numbers.now }
{
    if n <= count {
        return None;
    }
    words[style::WORDS * count] = w.size;
    words[style::WORDS * count + style::STYLE] = w.style;
    words[style::WORDS * count + style::UNITS] = w.low;
    words[style::WORDS * count + style::MORE_UNITS] = w.high;
    Some(count + 1)
}

// A number of the last node, in planes of n, if there is such a node.
fn put_number(
    x: FieldNumber,
    n: usize,
    count: usize,
    words: &[u32],
    numbers: &mut [f32],
) -> Option<usize>
    requires { TablesFit n count words.now numbers.old }
    ensures { Turned n (num_step n (tables count words.now numbers.old) x) (tables count words.now numbers.old) result words.now numbers.new }
{
    if count == 0 {
        return None;
    }
    let at = style::number_place(n, count - 1, x.field as usize);
    if at < numbers.len() {
        numbers[at] = x.value;
    }
    Some(count)
}

// One line, and how many nodes there are after it, if it is good.
#[tactic(auto, unfolding(crate::specs::Body::body_line, crate::specs::Body::node_in, crate::specs::Body::num_in))]
fn body_line(
    l: &[u8],
    n: usize,
    count: usize,
    words: &mut [u32],
    numbers: &mut [f32],
) -> Option<usize>
    requires { TablesFit n count words.old numbers.old }
    ensures { Turned n (body_line n (tables count words.old numbers.old) l.now) (tables count words.old numbers.old) result words.new numbers.new }
{
    match lines::node_line(l) {
        Some(w) => put_node(w, n, count, words, numbers),
        None => put_number(lines::num_line(l)?, n, count, words, numbers),
    }
}

// All lines, or the number of the first bad or missing one.
pub fn read_body(
    text: &[u8],
    from: usize,
    whole: bool,
    n: usize,
    words: &mut [u32],
    numbers: &mut [f32],
) -> Result<(), PageError>
    requires short { length text.now ≤ 262143 }
    requires within { from ≤ length text.now }
    requires room { TablesFit n 0 words.old numbers.old }
    ensures { let body = rest whole n 6 (tables 0 words.old numbers.old) (lines_of (drop from text.now)) in
        MatchResult result (λ _. Ended body words.old numbers.old 0 words.new numbers.new) (λ e. (0 < line_number e) × Ended body words.old numbers.old (line_number e) words.new numbers.new) }
{
    let mut at = from;
    let mut line = 6;
    let mut count = 0;
    // No `for` over `split`: it has a piece behind the last newline, and that is no line.
    while at < text.len() {
        let e = text::piece_end(text, b'\n', at);
        count = body_line(&text[at..e], n, count, words, numbers).ok_or(PageError::BadLine(line))?;
        at = e + 1;
        line += 1;
    }
    if whole && count == n {
        return Ok(());
    }
    Err(PageError::BadLine(line))
}
