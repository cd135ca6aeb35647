// Result rows in lent memory: 16 numbers and two words a node.
#![tactic(auto)]

ghost use Rattle.std.specs.Prelude.{◌≡◌, cond, ◌&&◌, ◌++◌, ◌+◌, ◌-◌, ◌*◌, ◌/◌, ◌%◌, ◌≤◌, ◌<◌, length, replicate, None, Some};
ghost use Rattle.std.specs.Bool.{beq};
ghost use Rattle.geometry.specs.Geometry.{zero_f};
ghost use Rattle.steps.specs.Row.{Row, bit, row_numbers, row_words, laid_row, put_at, aside_row, hidden_row, output_in, probe_of, available_kind, probe_code, with_code};
ghost use Rattle.steps.specs.Kept.{final_stands, laid_bits};
ghost use Rattle.steps.specs.Probe.{probe_stands};
ghost use Rattle.rows.specs.Store.{Becomes, Reads, OneRow, Whole, AllBecome, head_bits, probe_bits, probed_row, cleared_row};
ghost use Rattle.rows.specs.Edited.{in_run, touched};

use geometry::{Line, Point, Size};
use length::AvailableSpace;
use margin::CollapsibleMarginSet;
use steps::{LayoutInput, LayoutOutput, ProbeInput};
use tree::Order;

pub fn one(b: bool) -> u32
    ensures is { result ≡ bit b }
    ensures small { result < 2 }
{
    if b { 1 } else { 0 }
}

pub fn clear(rows: &mut [f32])
    ensures { rows.new ≡ replicate (length rows.old) zero_f }
{
    rows.fill(0.0);
}

pub fn clear_marks(marks: &mut [u32])
    ensures { marks.new ≡ replicate (length marks.old) 0 }
{
    marks.fill(0);
}

// The bits of a laid row: the old probe bits stay.
fn head_bits(old: u32, through: bool, given: bool, based: bool, lined: bool) -> u32
    ensures { result ≡ head_bits old through given based lined }
{
    1 + 2 * one(through)
        + 8 * one(given)
        + 16 * (old / 16 % 16)
        + 256 * one(based)
        + 512 * one(lined)
}

// The bits of a row below a kept node: laid and not out of flow, the others stay.
pub fn laid_bits(b: u32) -> u32
    ensures { result ≡ laid_bits b (b / 16 % 16) }
{
    1 + 2 * (b / 2 % 2) + 8 * (b / 8 % 2) + 16 * (b / 16 % 16) + 256 * (b / 256)
}

// A node's own row: the answer, the question as asked; the probe words stay.
pub fn put_head(rows: &mut [f32], marks: &mut [u32], q: LayoutInput, o: LayoutOutput)
    requires { OneRow rows.old marks.old }
    ensures { Becomes rows.old marks.old rows.new marks.new (λ r. laid_row q o (probe_of r)) }
{
    let known = q.known;
    let kw = known.width;
    let kh = known.height;
    let parent = q.parent;
    let basis = q.basis;
    let size = o.size;
    let top = o.top;
    let bottom = o.bottom;
    let baseline = o.baseline;
    rows[0] = 0.0;
    rows[1] = 0.0;
    rows[2] = size.width;
    rows[3] = size.height;
    rows[4] = top.positive;
    rows[5] = top.negative;
    rows[6] = bottom.positive;
    rows[7] = bottom.negative;
    rows[8] = kw.unwrap_or(0.0);
    rows[9] = kh.unwrap_or(0.0);
    rows[10] = parent.unwrap_or(0.0);
    rows[14] = basis.unwrap_or(0.0);
    rows[15] = baseline.unwrap_or(0.0);
    marks[0] = 0;
    marks[1] = head_bits(
        marks[1],
        o.through,
        kh.is_some(),
        basis.is_some(),
        baseline.is_some(),
    );
}

pub fn put_place(rows: &mut [f32], marks: &mut [u32], p: Point<f32>, order: Order)
    requires { OneRow rows.old marks.old }
    ensures { Becomes rows.old marks.old rows.new marks.new (put_at p order.0) }
{
    rows[0] = p.x;
    rows[1] = p.y;
    marks[0] = order.0;
}

// An out-of-flow child: its five words, zero below.
pub fn put_aside(rows: &mut [f32], marks: &mut [u32], edges: Line, line: f32, order: Order)
    requires { OneRow rows.old marks.old }
    ensures numbers { rows.new ≡ row_numbers (aside_row edges.start line edges.end order.0) ++ replicate (length rows.old - 16) zero_f }
    ensures words { marks.new ≡ row_words (aside_row edges.start line edges.end order.0) ++ replicate (length marks.old - 2) 0 }
{
    clear(rows);
    clear_marks(marks);
    rows[0] = edges.start;
    rows[1] = line;
    rows[2] = edges.end;
    marks[0] = order.0;
    marks[1] = 4;
}

// A hidden child: its order, which counts all siblings before it; zero below.
pub fn put_hidden(rows: &mut [f32], marks: &mut [u32], order: Order)
    requires { OneRow rows.old marks.old }
    ensures numbers { rows.new ≡ row_numbers (hidden_row order.0) ++ replicate (length rows.old - 16) zero_f }
    ensures words { marks.new ≡ row_words (hidden_row order.0) ++ replicate (length marks.old - 2) 0 }
{
    clear(rows);
    clear_marks(marks);
    marks[0] = order.0;
}

// A number that bit 9 says is there.
fn given(b: bool, x: f32) -> Option<f32>
    ensures { result ≡ cond b (Some x) None }
{
    if b { Some(x) } else { None }
}

// The answer that a laid row holds.
pub fn output_in(rows: &[f32], marks: &[u32]) -> LayoutOutput
    requires { OneRow rows.now marks.now }
    ensures { Reads rows.now marks.now result output_in }
{
    let size = Size {
        width: rows[2],
        height: rows[3],
    };
    let top = CollapsibleMarginSet {
        positive: rows[4],
        negative: rows[5],
    };
    let bottom = CollapsibleMarginSet {
        positive: rows[6],
        negative: rows[7],
    };
    LayoutOutput {
        size,
        top,
        bottom,
        through: style::flag(marks[1], steps::THROUGH),
        baseline: given(style::flag(marks[1], steps::BASELINE_GIVEN), rows[15]),
    }
}

fn available_kind(a: AvailableSpace) -> u32
    ensures is { result ≡ available_kind a }
    ensures small { result < 4 }
{
    match a {
        AvailableSpace::Definite(_) => 1,
        AvailableSpace::MinContent => 2,
        AvailableSpace::MaxContent => 3,
    }
}

fn probe_bits(old: u32, a: AvailableSpace, given: bool) -> u32
    ensures { result ≡ probe_bits old a given }
{
    let kind = available_kind(a);
    let b = old / 2 * 2;
    b % 16 + 16 * (1 + 2 * kind + 8 * one(given)) + 256 * (b / 256)
}

// A probe's words; the row's old answer may not be kept, so bit 0 goes.
pub fn note_probe(rows: &mut [f32], marks: &mut [u32], q: ProbeInput, answer: f32)
    requires { OneRow rows.old marks.old }
    ensures { Becomes rows.old marks.old rows.new marks.new (probed_row q answer) }
{
    let available = q.available;
    let height = q.height;
    rows[11] = available.into_option().unwrap_or(0.0);
    rows[12] = height.unwrap_or(0.0);
    rows[13] = answer;
    marks[1] = probe_bits(marks[1], available, height.is_some());
}

fn clear_bits(b: u32) -> u32
    ensures { result ≡ with_code b 0 }
{
    b % 16 + b / 256 * 256
}

// No probe words in any row of a run.
pub fn clear_probes(rows: &mut [f32], marks: &mut [u32])
    requires { Whole rows.old marks.old }
    ensures { AllBecome rows.old marks.old rows.new marks.new cleared_row }
{
    for i in 0..marks.len() / style::MARKS {
        let k = style::ROW * i + 11;
        let m = style::MARKS * i + 1;
        rows[k] = 0.0;
        rows[k + 1] = 0.0;
        rows[k + 2] = 0.0;
        marks[m] = clear_bits(marks[m]);
    }
}

fn in_run(e: usize, base: usize, n: usize) -> bool
    ensures { result ≡ in_run e base n }
{
    if base <= e {
        return e - base < n;
    }
    false
}

// Does the edit list name one of the n nodes from `base` on?
pub fn any_edit(edits: &[u32], base: usize, n: usize) -> bool
    ensures { result ≡ touched edits.now base n }
{
    for &e in edits {
        if in_run(e as usize, base, n) {
            return true;
        }
    }
    false
}

fn same_flag(a: bool, b: bool) -> bool
    ensures { result ≡ beq a b }
{
    if a { b } else { !b }
}

// A final question stands answered in a row.
pub fn final_stands(rows: &[f32], marks: &[u32], q: LayoutInput) -> bool
    requires { OneRow rows.now marks.now }
    ensures { Reads rows.now marks.now result (final_stands q) }
{
    let known = q.known;
    let kw = known.width;
    let kh = known.height;
    let parent = q.parent;
    let basis = q.basis;
    let bits = marks[1];
    style::flag(bits, steps::LAID)
        && (limits::same_bits(rows[8], kw.unwrap_or(0.0))
            && (limits::same_bits(rows[9], kh.unwrap_or(0.0))
                && (same_flag(style::flag(bits, steps::HEIGHT_GIVEN), kh.is_some())
                    && (limits::same_bits(rows[10], parent.unwrap_or(0.0))
                        && (limits::same_bits(rows[14], basis.unwrap_or(0.0))
                            && same_flag(
                                style::flag(bits, steps::BASIS_GIVEN),
                                basis.is_some(),
                            ))))))
}

// A probe stands answered in a row.
pub fn probe_stands(rows: &[f32], marks: &[u32], q: ProbeInput) -> bool
    requires { OneRow rows.now marks.now }
    ensures { Reads rows.now marks.now result (probe_stands q) }
{
    let available = q.available;
    let height = q.height;
    let bits = marks[1];
    let kind = available_kind(available);
    style::flag(bits, steps::PROBED)
        && (limits::same_bits(rows[11], available.into_option().unwrap_or(0.0))
            && (limits::same_bits(rows[12], height.unwrap_or(0.0))
                && (bits / 32 % 4 == kind
                    && same_flag(
                        style::flag(bits, steps::PROBE_HEIGHT_GIVEN),
                        height.is_some(),
                    ))))
}
