// The answer of a page as text: one line each for the answer, the boxes of laid nodes and the candidates.
#![tactic(auto)]

ghost use Rattle.std.specs.Prelude.{◌≡◌, [], ◌∷◌, ◌+◌, ◌*◌, ◌<◌, ◌≤◌, length, get_or};
ghost use Rattle.std.specs.Float.{binary32};
ghost use Rattle.std.specs.Float.Ieee.{to_bits};
ghost use Rattle.geometry.specs.Geometry.{zero_f};
ghost use Rattle.steps.specs.Row.{row_at};
ghost use Rattle.print.specs.Pen.{pen, put_all};
ghost use Rattle.print.specs.Text.{glyph, decimal, hex_text, count_text, number_text, box_text, box_at, each, candidate_text, candidate_at, candidate_line, count_line, answer_text, accepted_text, page_text, bad_text};
ghost use Rattle.steps.specs.Noes.{paper};

use lent::{number_at, word_at};
use steps::{Refusal, number_of, place_of};
use tree::{NodeId, Order};

// One byte, if there is room.
pub fn put(out: &mut [u8], at: usize, b: u8) -> usize
    ensures { pen out.new result ≡ put_all (b ∷ []) (pen out.old at) }
{
    if out.len() <= at {
        return at;
    }
    out[at] = b;
    at + 1
}

// Some bytes.
pub fn put_text(out: &mut [u8], mut at: usize, s: &[u8]) -> usize
    ensures { pen out.new result ≡ put_all s.now (pen out.old at) }
{
    for &b in s {
        at = put(out, at, b);
    }
    at
}

#[tactic(auto, using(std::proofs::lemmas::Bool::Decides::nat_tests))]
fn glyph(d: u64) -> u8
    requires { d < 16 }
    ensures { result ≡ glyph d }
{
    if d < 10 {
        return b'0' + d as u8;
    }
    b'a' + (d - 10) as u8
}

// At most `places` decimal digits.
pub fn put_decimal(out: &mut [u8], at: usize, n: u64, places: usize) -> usize
    ensures { pen out.new result ≡ put_all (decimal places n) (pen out.old at) }
{
    if places == 0 {
        return at;
    }
    if n < 10 {
        return put(out, at, glyph(n));
    }
    let at = put_decimal(out, at, n / 10, places - 1);
    put(out, at, glyph(n % 10))
}

// The last `places` hex digits.
pub fn put_hex(out: &mut [u8], at: usize, w: u64, places: usize) -> usize
    ensures { pen out.new result ≡ put_all (hex_text places w) (pen out.old at) }
{
    if places == 0 {
        return at;
    }
    let at = put_hex(out, at, w / 16, places - 1);
    put(out, at, glyph(w % 16))
}

// A comma and a count.
pub fn put_count(out: &mut [u8], at: usize, n: u64) -> usize
    ensures { pen out.new result ≡ put_all (count_text n) (pen out.old at) }
{
    let at = put(out, at, b',');
    put_decimal(out, at, n, 20)
}

// A comma and a number's bit pattern.
pub fn put_number(out: &mut [u8], at: usize, x: f32) -> usize
    ensures { pen out.new result ≡ put_all (number_text x) (pen out.old at) }
{
    let at = put(out, at, b',');
    put_hex(out, at, text::bits_of(x) as u64, 8)
}

// Node, order, x, y, w, h.
fn put_box(
    out: &mut [u8],
    at: usize,
    node: NodeId,
    order: Order,
    x: f32,
    y: f32,
    w: f32,
    h: f32,
) -> usize
    ensures { pen out.new result ≡ put_all (box_text node.0 order.0 x y w h) (pen out.old at) }
{
    let at = put_text(out, at, b"box=");
    let at = put_decimal(out, at, node.0 as u64, 20);
    let at = put_count(out, at, order.0 as u64);
    let at = put_number(out, at, x);
    let at = put_number(out, at, y);
    let at = put_number(out, at, w);
    let at = put_number(out, at, h);
    put(out, at, b'\n')
}

// The line of node i, if it is laid.
#[tactic(auto, unfolding(crate::specs::Text::box_at, crate::specs::Text::box_of, steps::specs::Row::is_laid))]
fn put_node(out: &mut [u8], at: usize, i: usize, rows: &[f32], marks: &[u32]) -> usize
    requires { i < 4294967296 }
    ensures { pen out.new result ≡ put_all (box_at rows.now marks.now i) (pen out.old at) }
{
    let bits = word_at(marks, style::MARKS * i + 1);
    if style::flag(bits, 0) {
        let node = NodeId(i as u32);
        let order = Order(word_at(marks, style::MARKS * i));
        let x = number_at(rows, style::ROW * i);
        let y = number_at(rows, style::ROW * i + 1);
        let w = number_at(rows, style::ROW * i + 2);
        let h = number_at(rows, style::ROW * i + 3);
        return put_box(out, at, node, order, x, y, w, h);
    }
    at
}

// The laid ones of n nodes.
fn put_boxes(out: &mut [u8], mut at: usize, n: usize, rows: &[f32], marks: &[u32]) -> usize
    requires { n < 4294967296 }
    ensures { pen out.new result ≡ put_all (each (box_at rows.now marks.now) n) (pen out.old at) }
{
    for i in 0..n {
        at = put_node(out, at, i, rows, marks);
    }
    at
}

// Node, order, start, end, line.
fn put_record(
    out: &mut [u8],
    at: usize,
    node: NodeId,
    order: Order,
    start: f32,
    end: f32,
    line: f32,
) -> usize
    ensures { pen out.new result ≡ put_all (candidate_text node.0 order.0 start end line) (pen out.old at) }
{
    let at = put_text(out, at, b"cand=");
    let at = put_decimal(out, at, node.0 as u64, 20);
    let at = put_count(out, at, order.0 as u64);
    let at = put_number(out, at, start);
    let at = put_number(out, at, end);
    let at = put_number(out, at, line);
    put(out, at, b'\n')
}

// The line of record i.
#[tactic(auto, unfolding(crate::specs::Text::candidate_line, crate::specs::Text::candidate_at))]
fn put_candidate(out: &mut [u8], at: usize, i: usize, pairs: &[u32], triples: &[f32]) -> usize
    requires { i < 4294967296 }
    ensures { pen out.new result ≡ put_all (candidate_line (candidate_at pairs.now triples.now i)) (pen out.old at) }
{
    let node = NodeId(word_at(pairs, 2 * i));
    let order = Order(word_at(pairs, 2 * i + 1));
    let start = number_at(triples, 3 * i);
    let end = number_at(triples, 3 * i + 1);
    let line = number_at(triples, 3 * i + 2);
    put_record(out, at, node, order, start, end, line)
}

fn put_candidates(out: &mut [u8], mut at: usize, n: usize, pairs: &[u32], triples: &[f32]) -> usize
    requires { n < 4294967296 }
    ensures { pen out.new result ≡ put_all (each (λ i. candidate_line (candidate_at pairs.now triples.now i)) n) (pen out.old at) }
{
    for i in 0..n {
        at = put_candidate(out, at, i, pairs, triples);
    }
    at
}

// A key, one number, a newline.
#[tactic(auto, using(crate::proofs::PenLaws::put_append), unfolding(crate::specs::Text::count_line))]
fn put_line(out: &mut [u8], at: usize, key: &[u8], n: u64) -> usize
    ensures { pen out.new result ≡ put_all (count_line key.now n) (pen out.old at) }
{
    let at = put_text(out, at, key);
    let at = put_decimal(out, at, n, 20);
    put(out, at, b'\n')
}

// A number and a place.
pub fn put_answer(out: &mut [u8], at: usize, number: u32, place: u32) -> usize
    ensures { pen out.new result ≡ put_all (answer_text number place) (pen out.old at) }
{
    let at = put_text(out, at, b"answer=");
    let at = put_decimal(out, at, number as u64, 20);
    let at = put_count(out, at, place as u64);
    put(out, at, b'\n')
}

// The boxes and candidates of an accepted page.
#[tactic(auto, using(crate::proofs::PenLaws::put_append), unfolding(crate::specs::Text::accepted_text))]
fn put_laid(
    out: &mut [u8],
    at: usize,
    n: usize,
    rows: &[f32],
    marks: &[u32],
    count: u32,
    pairs: &[u32],
    triples: &[f32],
) -> usize
    requires { n < 4294967296 }
    ensures { pen out.new result ≡ put_all (accepted_text n rows.now marks.now count pairs.now triples.now) (pen out.old at) }
{
    let at = put_boxes(out, at, n, rows, marks);
    let at = put_line(out, at, b"candidates=", count as u64);
    put_candidates(out, at, count as usize, pairs, triples)
}

// What a page's answer prints, at the front of `out`, and how many bytes it is.
#[tactic(auto, using(crate::proofs::PenLaws::put_append), unfolding(crate::specs::Text::page_text, steps::specs::Noes::paper))]
pub fn print_answer(
    out: &mut [u8],
    answer: Result<u32, Refusal>,
    n: usize,
    rows: &[f32],
    marks: &[u32],
    pairs: &[u32],
    triples: &[f32],
) -> usize
    requires { n < 4294967296 }
    ensures { pen out.new result ≡ put_all (page_text answer n rows.now marks.now pairs.now triples.now) (pen out.old 0) }
{
    let at = put_answer(out, 0, number_of(answer), place_of(answer));
    match answer {
        Ok(count) => put_laid(out, at, n, rows, marks, count, pairs, triples),
        Err(_) => at,
    }
}

// What a bad line prints.
#[tactic(auto, unfolding(crate::specs::Text::bad_text))]
pub fn print_bad(out: &mut [u8], line: usize) -> usize
    ensures { pen out.new result ≡ put_all (bad_text line) (pen out.old 0) }
{
    put_line(out, 0, b"badline=", line as u64)
}
