// The coarse panel: each laid node as a box of whole pixels.
#![tactic(auto)]

ghost use Rattle.std.specs.Prelude.{◌≡◌, ◌||◌, ◌+◌, ◌*◌, ◌<◌, ◌≤◌, length};
ghost use Rattle.steps.specs.Scan.{lowest};
ghost use Rattle.steps.specs.Page.{nodes_in};
ghost use Rattle.steps.specs.Noes.{holds, bad_tree};
ghost use Rattle.tables.specs.Refusals.{Sound};
ghost use Rattle.edges.specs.Edges.{edge_by};
ghost use Rattle.coarse.specs.declared.CoarseRefusal.TheVariants.{Plain};
ghost use Rattle.coarse.specs.Panel.{laid_at, span_of, too_far, far_node, no_box, boxes_of};
ghost use Rattle.coarse.specs.Spans.{pixel_span, box_by, seen_by, seen_of, seen_place, box_put};
ghost use Rattle.coarse.specs.Above.{stacked, trimmed, climbed};
ghost use Rattle.coarse.specs.Coarse.{bad_out, coarse_answer, coarse_result, Coarsened};

use edges::{row_number, rows_tested};
use geometry::Line;
use pixel::{pixels_between, whole_pixel};
use steps::Refusal;
use style::{flag, word};
use tree::NodeId;

// Why coarse refuses: one of the earlier noes, or 12 with its node.
#[derive(Clone, Copy)]
pub enum CoarseRefusal {
    Plain(Refusal),
    TooFar(NodeId),
}

impl From<Refusal> for CoarseRefusal {
    ghost from_gives = { λ no refusal. refusal ≡ Plain no };

    fn from(no: Refusal) -> CoarseRefusal {
        CoarseRefusal::Plain(no)
    }
}

// A box in whole pixels.
#[derive(Clone, Copy)]
pub struct PixelBox {
    pub x: i32,
    pub y: i32,
    pub width: i32,
    pub height: i32,
}

// A node along one axis in whole pixels.
#[derive(Clone, Copy)]
pub struct PixelSpan {
    pub near: i32,
    pub size: i32,
}

// Bit 0 of row i.
fn is_laid(marks: &[u32], i: usize) -> bool
    requires { i ≤ 1024 }
    ensures { result ≡ laid_at marks.now i }
{
    flag(lent::word_at(marks, style::MARKS * i + 1), steps::LAID)
}

fn wide(x: u32) -> usize
    ensures { (result ≡ x) × (result ≤ 0xffff_ffff) }
{
    x as usize
}

// The near edge of node i, by the d nodes above it, the innermost last; f is 0 across and 1 down.
fn edge(rows: &[f32], up: &[u32; 32], d: usize, f: usize, i: usize) -> f32
    requires { (d ≤ 32) × (f < 2) }
    ensures { result ≡ climbed rows.now (stacked up.now d) f i }
{
    let mut edge = row_number(rows, i, f);
    for k in (0..d).rev() {
        edge = edge + row_number(rows, wide(up[k]), f);
    }
    edge
}

// How many of d nodes are left if those are taken off the end whose run does not hold node i.
fn still_above(words: &[u32], up: &[u32; 32], d: usize, i: usize) -> usize
    requires { d ≤ 32 }
    ensures { (result ≤ d) × (stacked up.now result ≡ trimmed (holds words.now i) (stacked up.now d)) }
{
    for k in (0..d).rev() {
        let j = wide(up[k]);
        if i < j + wide(word(words, j, style::SIZE)) {
            return k + 1;
        }
    }
    0
}

// Near and far edge of node i.
fn span(rows: &[f32], up: &[u32; 32], d: usize, f: usize, i: usize) -> Line
    requires { (d ≤ 32) × (f < 2) }
    ensures { result ≡ span_of (climbed rows.now (stacked up.now d)) rows.now f i }
{
    let near = edge(rows, up, d, f, i);
    Line {
        start: near,
        end: near + row_number(rows, i, 2 + f),
    }
}

// 12: one of the two edges is too large.
fn too_far(s: Line) -> bool
    ensures { result ≡ too_far s }
{
    if limits::too_large(s.start) {
        return true;
    }
    limits::too_large(s.end)
}

// Node i along axis f, tested and rounded at once: one body for both axes and both walks. None: an edge is too large.
fn pixel_span(rows: &[f32], up: &[u32; 32], d: usize, f: usize, i: usize) -> Option<PixelSpan>
    requires { (d ≤ 32) × (f < 2) }
    ensures { result ≡ pixel_span (span_of (climbed rows.now (stacked up.now d)) rows.now f i) }
{
    let s = span(rows, up, d, f, i);
    if too_far(s) {
        return None;
    }
    Some(PixelSpan {
        near: whole_pixel(s.start),
        size: pixels_between(s.start, s.end),
    })
}

// The box of these two.
fn on_pixels(across: PixelSpan, down: PixelSpan) -> PixelBox
    ensures { result ≡ box_by across down }
{
    PixelBox {
        x: across.near,
        y: down.near,
        width: across.size,
        height: down.size,
    }
}

// What a node that is not laid gets.
fn no_box() -> PixelBox
    ensures { result ≡ no_box }
{
    PixelBox {
        x: 0,
        y: 0,
        width: 0,
        height: 0,
    }
}

// A node that is laid.
fn seen_by(across: Option<PixelSpan>, down: Option<PixelSpan>) -> Option<PixelBox>
    ensures { result ≡ seen_by across down }
{
    let x = across?;
    let y = down?;
    Some(on_pixels(x, y))
}

// The box of node i, or None: 12. One that is not laid is never 12.
fn seen_at(rows: &[f32], marks: &[u32], up: &[u32; 32], d: usize, i: usize) -> Option<PixelBox>
    requires { (d ≤ 32) × (i ≤ 1024) }
    ensures { result ≡ seen_of (climbed rows.now (stacked up.now d)) rows.now marks.now i }
{
    if !is_laid(marks, i) {
        return Some(no_box());
    }
    seen_by(pixel_span(rows, up, d, 0, i), pixel_span(rows, up, d, 1, i))
}

// The four numbers of box i.
fn put_box(out: &mut [i32], i: usize, b: PixelBox)
    requires { 4 * i + 4 ≤ length out.old }
    ensures { out.new ≡ box_put out.old i b }
{
    let x = b.x;
    let y = b.y;
    let width = b.width;
    let height = b.height;
    out[4 * i] = x;
    out[4 * i + 1] = y;
    out[4 * i + 2] = width;
    out[4 * i + 3] = height;
}

// 12: the lowest of n nodes that is laid and has an edge too far.
fn first_too_far(words: &[u32], rows: &[f32], marks: &[u32], n: usize) -> Option<NodeId>
    requires few { n ≤ 1024 }
    requires tree { (nodes_in words.now ≡ n) × Sound (bad_tree words.now) n }
    ensures { result ≡ lowest (far_node (edge_by words.now rows.now) rows.now marks.now) n }
{
    let mut up = [0u32; 32];
    let mut d = 0usize;
    for i in 0..n {
        d = still_above(words, &up, d, i);
        let s = seen_at(rows, marks, &up, d, i);
        if s.is_none() {
            return Some(NodeId(i as u32));
        }
        up[d] = i as u32;
        d += 1;
    }
    None
}

// The boxes of n nodes, by the same way down.
fn put_boxes(words: &[u32], rows: &[f32], marks: &[u32], n: usize, out: &mut [i32])
    requires few { n ≤ 1024 }
    requires tree { (nodes_in words.now ≡ n) × Sound (bad_tree words.now) n }
    requires long { length out.old ≡ 4 * n }
    ensures { out.new ≡ boxes_of (seen_place (edge_by words.now rows.now) rows.now marks.now) 0 n }
{
    let mut up = [0u32; 32];
    let mut d = 0usize;
    for i in 0..n {
        d = still_above(words, &up, d, i);
        let s = seen_at(rows, marks, &up, d, i);
        let place = s.unwrap_or(no_box());
        put_box(out, i, place);
        up[d] = i as u32;
        d += 1;
    }
}

// 1: the output has not 4 numbers for each of n nodes.
fn bad_out(n: usize, out: &[i32]) -> bool
    requires { 4 * n ≤ 0xffff_ffff_ffff_ffff }
    ensures { result ≡ bad_out n (length out.now) }
{
    out.len() != 4 * n
}

// 1, 2, 3, 7 and 12, before any write.
fn coarse_tested(
    words: &[u32],
    rows: &[f32],
    marks: &[u32],
    out: &[i32],
) -> Result<(), CoarseRefusal>
    ensures { result ≡ coarse_answer words.now rows.now marks.now (length out.now) }
{
    let n = words.len() / style::WORDS;
    if bad_out(n, out) {
        return Err(CoarseRefusal::Plain(Refusal::Lengths));
    }
    rows_tested(words, rows, marks)?;
    if let Some(i) = first_too_far(words, rows, marks, n) {
        return Err(CoarseRefusal::TooFar(i));
    }
    Ok(())
}

// Near x, near y, width and height of each laid node in whole pixels, zeros for the others.
pub fn coarse(
    words: &[u32],
    rows: &[f32],
    marks: &[u32],
    out: &mut [i32],
) -> Result<(), CoarseRefusal>
    ensures { Coarsened (coarse_result words.now rows.now marks.now out.old) result out.new }
{
    coarse_tested(words, rows, marks, out)?;
    put_boxes(words, rows, marks, words.len() / style::WORDS, out);
    Ok(())
}
