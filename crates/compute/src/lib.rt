// The final pass, in place: containers and stacks call each other (the crate's src/compute/block.rs).
#![tactic(auto)]

ghost use Rattle.std.specs.Prelude.{◌≡◌};
ghost use Rattle.rows.specs.Store.{OneRow};
ghost use Rattle.steps.specs.Stack.{Counts};
ghost use Rattle.walks.specs.Tables.{IsRows};
ghost use Rattle.compute.specs.Contract.{IsTree, IsBlock, LaidT, LaidF, AskedT, Aligned, LeafPut, Hidden, Aside, Settled, Ended, Stands};

use heights::StackOutput;
use stacking::Footing;
use steps::{Cursor, Frame, LayoutInput, LayoutOutput};
use style::Flow;
use tree::Order;

// Step M, where there is a shift.
fn align(words: &[u32], rows: &mut [f32], marks: &[u32], shift: Option<f32>)
    requires { IsRows words.now rows.old marks.now }
    ensures { Aligned words.now rows.old marks.now shift rows.new }
{
    match shift {
        None => {}
        Some(d) => walks::lower(words, rows, marks, d),
    }
}

// A leaf's own row; what stands below is zero.
fn put_leaf(rows: &mut [f32], marks: &mut [u32], input: LayoutInput, output: LayoutOutput)
    requires { OneRow rows.old marks.old }
    ensures { LeafPut rows.old marks.old input output rows.new marks.new }
{
    rows::put_head(rows, marks, input, output);
    rows::clear(&mut rows[style::ROW..]);
    rows::clear_marks(&mut marks[style::MARKS..]);
}

// May the answer in the first row be kept?
fn stands(
    rows: &[f32],
    marks: &[u32],
    edits: &[u32],
    base: usize,
    n: usize,
    input: LayoutInput,
) -> bool
    requires { OneRow rows.now marks.now }
    ensures { Stands rows.now marks.now edits.now base n input result }
{
    if rows::any_edit(edits, base, n) {
        return false;
    }
    rows::final_stands(rows, marks, input)
}

// A hidden child: its order; the cursor counts it.
fn pass_hidden(rows: &mut [f32], marks: &mut [u32], cursor: Cursor) -> Cursor
    requires room { OneRow rows.old marks.old }
    requires counts { Counts cursor }
    ensures { Hidden rows.old marks.old cursor result rows.new marks.new }
{
    rows::put_hidden(rows, marks, Order(cursor.count));
    stacking::past_hidden(cursor)
}

// A child out of the flow: its edges and line.
fn pass_aside(rows: &mut [f32], marks: &mut [u32], frame: Frame, cursor: Cursor) -> Cursor
    requires room { OneRow rows.old marks.old }
    requires counts { Counts cursor }
    ensures { Aside rows.old marks.old frame cursor result rows.new marks.new }
{
    let shown = cursor.shown;
    let edges = stacking::edges_of(frame);
    let line = stacking::line_of(frame, cursor);
    rows::put_aside(rows, marks, edges, line, shown);
    stacking::past_aside(cursor)
}

// A child that has answered: its place.
fn settle(
    rows: &mut [f32],
    marks: &mut [u32],
    frame: Frame,
    cursor: Cursor,
    footing: Footing,
    answer: LayoutOutput,
) -> Cursor
    requires room { OneRow rows.old marks.old }
    requires counts { Counts cursor }
    ensures { Settled rows.old marks.old frame cursor footing answer result rows.new marks.new }
{
    let place = stacking::place_of(frame, cursor, footing, answer);
    let shown = cursor.shown;
    rows::put_place(rows, marks, place, shown);
    stacking::stepped_past(frame, cursor, footing, answer)
}

// Steps L to N: the container's own row, and the shift of its children.
fn finish(
    words: &[u32],
    numbers: &[f32],
    rows: &mut [f32],
    marks: &mut [u32],
    base: usize,
    input: LayoutInput,
    stack: StackOutput,
) -> LayoutOutput
    requires { IsBlock words.now numbers.now rows.old marks.old base }
    ensures { Ended words.now numbers.now rows.old marks.old base input stack result rows.new marks.new }
{
    let finished = heights::finish_at(words, numbers, base, input, stack);
    let output = finished.output;
    let shift = finished.shift;
    rows::put_head(rows, marks, input, output);
    align(
        &words[style::WORDS..],
        &mut rows[style::ROW..],
        &marks[style::MARKS..],
        shift,
    );
    output
}

// One container: its frame (steps A to I), its stack, steps L to N.
#[cycle(compute_block_layout_compute_child_layout_perform_final_layout_on_in_flow_children)]
pub fn compute_block_layout(
    words: &[u32],
    numbers: &[f32],
    rows: &mut [f32],
    marks: &mut [u32],
    edits: &[u32],
    base: usize,
    depth: usize,
    input: LayoutInput,
    found: f32,
) -> LayoutOutput
    requires { IsTree words.now numbers.now rows.old marks.old edits.now base depth }
    ensures { LaidT words.now numbers.now rows.old marks.old edits.now base input found result rows.new marks.new }
{
    if reader::is_leaf(words) {
        let output = heights::leaf_at(words, numbers, base, input);
        put_leaf(rows, marks, input, output);
        return output;
    }
    let frame = frames::frame_at(words, numbers, base, input, found);
    let stack = perform_final_layout_on_in_flow_children(
        words, numbers, rows, marks, edits, base, depth, frame,
    );
    finish(words, numbers, rows, marks, base, input, stack)
}

// The stack: steps J and K. It is lent its container's own slices and begins behind the container's row.
#[cycle(compute_block_layout_compute_child_layout_perform_final_layout_on_in_flow_children)]
fn perform_final_layout_on_in_flow_children(
    words: &[u32],
    numbers: &[f32],
    rows: &mut [f32],
    marks: &mut [u32],
    edits: &[u32],
    base: usize,
    depth: usize,
    frame: Frame,
) -> StackOutput
    requires { IsTree words.now numbers.now rows.old marks.old edits.now base depth }
    ensures { LaidF words.now numbers.now rows.old marks.old edits.now base frame result rows.new marks.new }
{
    let mut cursor = stacking::start_of(frame);
    let mut child = 1usize;
    // No `for`: a step is as long as its run.
    while style::WORDS * child < words.len() {
        let end = child + style::word_in(words, child, style::SIZE) as usize;
        let w0 = style::WORDS * child;
        let w1 = style::WORDS * end;
        let r0 = style::ROW * child;
        let r1 = style::ROW * end;
        let m0 = style::MARKS * child;
        let m1 = style::MARKS * end;
        let flow = reader::flow(&words[w0..w1]);
        match flow {
            Flow::Gone => {
                cursor = pass_hidden(&mut rows[r0..r1], &mut marks[m0..m1], cursor);
            }
            Flow::Out => {
                cursor = pass_aside(&mut rows[r0..r1], &mut marks[m0..m1], frame, cursor);
            }
            Flow::In => {
                let plan = stacking::item::plan_at(&words[w0..w1], numbers, base + child, frame);
                let ask = plan.input;
                let footing = plan.footing;
                let answer = compute_child_layout(
                    &words[w0..w1],
                    numbers,
                    &mut rows[r0..r1],
                    &mut marks[m0..m1],
                    edits,
                    base + child,
                    depth - 1,
                    ask,
                );
                cursor = settle(
                    &mut rows[r0..r1],
                    &mut marks[m0..m1],
                    frame,
                    cursor,
                    footing,
                    answer,
                );
            }
        }
        child = end;
    }
    heights::stack_output(frame, cursor)
}

// What a child is answered: its old answer where that stands, else a new one.
#[cycle(compute_block_layout_compute_child_layout_perform_final_layout_on_in_flow_children)]
fn compute_child_layout(
    words: &[u32],
    numbers: &[f32],
    rows: &mut [f32],
    marks: &mut [u32],
    edits: &[u32],
    base: usize,
    depth: usize,
    input: LayoutInput,
) -> LayoutOutput
    requires { IsTree words.now numbers.now rows.old marks.old edits.now base depth }
    ensures { AskedT words.now numbers.now rows.old marks.old edits.now base input result rows.new marks.new }
{
    let n = words.len() / style::WORDS;
    if stands(rows, marks, edits, base, n, input) {
        let output = rows::output_in(rows, marks);
        walks::keep_below(
            &words[style::WORDS..],
            &mut rows[style::ROW..],
            &mut marks[style::MARKS..],
        );
        return output;
    }
    compute_block_layout(words, numbers, rows, marks, edits, base, depth, input, 0.0)
}
