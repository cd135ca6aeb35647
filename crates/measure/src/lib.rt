// The size question: what a page would measure. It is lent no rows, keeps nothing and writes nothing.
#![tactic(auto)]

ghost use Rattle.std.specs.Prelude.{◌≡◌, ◌<◌, ◌≤◌, length};
ghost use Rattle.style.specs.Style.{plane_of};
ghost use Rattle.steps.specs.SizeQuestion.{axes};
ghost use Rattle.steps.specs.Question.{root_input};
ghost use Rattle.steps.specs.Results.{size_reply, size_result};
ghost use Rattle.measure.specs.Public.{SizeReplied};
ghost use Rattle.measure.specs.Contract.{IsTree, IsForest, Width, Widened, Widest, MeasuredT, MeasuredF, Ended, Found, Whole, Rest, KnownWidth, SizeOf};

use geometry::Size;
use heights::StackOutput;
use length::AvailableSpace;
use reader::Reader;
use steps::{
    Frame, LayoutInput, LayoutOutput, ProbeInput, Question, Refusal, RequestedAxis, Want,
    root_input,
};
use style::Flow;
use tree::NodeId;

// The levels that are left below the root.
const BELOW_ROOT: usize = tree::MAX_DEPTH - 1;

// A probe of one tree: its width alone.
#[cycle(widened_widest_width_of)]
fn width_of(words: &[u32], numbers: &[f32], base: usize, depth: usize, q: ProbeInput) -> f32
    requires { IsTree words.now numbers.now base depth }
    ensures { Width words.now numbers.now base q result }
{
    let width = widths::width_at_once(words, numbers, base, q);
    match width {
        Some(w) => w,
        None => {
            let r = Reader::at(words, numbers, base);
            let a = q.available;
            let room = widths::available_inside(r, None, a);
            let most = widest(&words[style::WORDS..], numbers, base + 1, depth - 1, room);
            widths::width_from(r, None, most)
        }
    }
}

// One child of step F.
#[cycle(widened_widest_width_of)]
fn widened(
    words: &[u32],
    numbers: &[f32],
    base: usize,
    depth: usize,
    a: AvailableSpace,
    most: f32,
) -> f32
    requires { IsTree words.now numbers.now base depth }
    ensures { Widened words.now numbers.now base a most result }
{
    let r = Reader::at(words, numbers, base);
    let want = widths::want_of(r, a);
    match want {
        Want::Nothing => most,
        Want::Outer(w) => util::f32_max(most, w),
        Want::Probe(q) => {
            let w = width_of(words, numbers, base, depth, q);
            let o = widths::outer_width(r, a, w);
            util::f32_max(most, o)
        }
    }
}

// Step F: the widest of the children.
#[cycle(widened_widest_width_of)]
fn widest(words: &[u32], numbers: &[f32], base: usize, depth: usize, a: AvailableSpace) -> f32
    requires { IsForest words.now numbers.now base depth }
    ensures { Widest words.now numbers.now base a result }
{
    let mut most = 0.0;
    let mut i = 0usize;
    // No `for`: a step is as long as its run.
    while style::WORDS * i < words.len() {
        let e = i + style::word(words, i, style::SIZE) as usize;
        let i4 = style::WORDS * i;
        let e4 = style::WORDS * e;
        most = widened(&words[i4..e4], numbers, base + i, depth, a, most);
        i = e;
    }
    most
}

// Steps L to N of a container: its answer alone.
fn finish(
    words: &[u32],
    numbers: &[f32],
    base: usize,
    input: LayoutInput,
    stack: StackOutput,
) -> LayoutOutput
    requires { (4 ≤ length words.now) × (base < plane_of numbers.now) }
    ensures { Ended words.now numbers.now base input stack result }
{
    let finished = heights::finish_at(words, numbers, base, input, stack);
    finished.output
}

// One container of the final pass: its frame, its stack, and the answer alone.
#[cycle(measure_in_flow_children_measured)]
fn measured(
    words: &[u32],
    numbers: &[f32],
    base: usize,
    depth: usize,
    input: LayoutInput,
    found: f32,
) -> LayoutOutput
    requires { IsTree words.now numbers.now base depth }
    ensures { MeasuredT words.now numbers.now base input found result }
{
    if reader::is_leaf(words) {
        return heights::leaf_at(words, numbers, base, input);
    }
    let frame = frames::frame_at(words, numbers, base, input, found);
    let stack = measure_in_flow_children(words, numbers, base, depth, frame);
    finish(words, numbers, base, input, stack)
}

// The stack: steps J and K. It begins behind its container's own words.
#[cycle(measure_in_flow_children_measured)]
fn measure_in_flow_children(
    words: &[u32],
    numbers: &[f32],
    base: usize,
    depth: usize,
    frame: Frame,
) -> StackOutput
    requires { IsTree words.now numbers.now base depth }
    ensures { MeasuredF words.now numbers.now base frame result }
{
    let mut cursor = stacking::start_of(frame);
    let mut child = 1usize;
    // No `for`: a step is as long as its run.
    while style::WORDS * child < words.len() {
        let end = child + style::word_in(words, child, style::SIZE) as usize;
        let w0 = style::WORDS * child;
        let w1 = style::WORDS * end;
        let flow = reader::flow(&words[w0..w1]);
        match flow {
            Flow::Gone => {
                cursor = stacking::past_hidden(cursor);
            }
            Flow::Out => {
                cursor = stacking::past_aside(cursor);
            }
            Flow::In => {
                let plan = stacking::item::plan_at(&words[w0..w1], numbers, base + child, frame);
                let ask = plan.input;
                let footing = plan.footing;
                let answer = measured(&words[w0..w1], numbers, base + child, depth - 1, ask, 0.0);
                cursor = stacking::stepped_past(frame, cursor, footing, answer);
            }
        }
        child = end;
    }
    heights::stack_output(frame, cursor)
}

fn axes(width: f32, height: f32) -> Size<f32>
    ensures { result ≡ axes width height }
{
    Size {
        width: width,
        height: height,
    }
}

// What the width pass finds for the root; it is not run where the width is known.
fn found_width(words: &[u32], numbers: &[f32], q: LayoutInput, width: Option<f32>) -> f32
    requires { IsTree words.now numbers.now 0 32 }
    ensures { Found words.now numbers.now q width result }
{
    match width {
        Some(w) => 0.0,
        None => {
            let r = Reader::at(words, numbers, 0);
            let parent = q.parent;
            let a = q.available;
            let room = widths::available_inside(r, parent, a);
            let most = widest(&words[style::WORDS..], numbers, 1, BELOW_ROOT, room);
            widths::width_from(r, parent, most)
        }
    }
}

// Step G, and the whole layout where it does not answer.
fn size_after_width(
    words: &[u32],
    numbers: &[f32],
    q: LayoutInput,
    axis: RequestedAxis,
    found: f32,
    width: f32,
    pb: f32,
    height: Option<f32>,
) -> Size<f32>
    requires { IsTree words.now numbers.now 0 32 }
    ensures { Whole words.now numbers.now q axis found width pb height result }
{
    if let Some(h) = height {
        return axes(width, util::f32_max(h, pb));
    }
    match axis {
        RequestedAxis::Horizontal => axes(width, 0.0),
        RequestedAxis::Both => {
            let o = measured(words, numbers, 0, tree::MAX_DEPTH, q, found);
            o.size
        }
    }
}

// Steps D, F and G.
fn size_below(words: &[u32], numbers: &[f32], q: LayoutInput, axis: RequestedAxis) -> Size<f32>
    requires { IsTree words.now numbers.now 0 32 }
    ensures { Rest words.now numbers.now q axis result }
{
    let r = Reader::at(words, numbers, 0);
    let parent = q.parent;
    let asked = q.known;
    let z = sizing::sizing_without_height_basis(r, parent);
    let known = sizing::known_dimensions(r.ratio(), z, asked);
    let both = z.both;
    let width = known.width;
    let height = known.height;
    let found = found_width(words, numbers, q, width);
    let w = width.unwrap_or(found);
    let pb = both.vertical_axis_sum();
    size_after_width(words, numbers, q, axis, found, w, pb, height)
}

// Step C, with the width known.
fn size_with_width(
    words: &[u32],
    numbers: &[f32],
    q: LayoutInput,
    axis: RequestedAxis,
    width: f32,
    height: Option<f32>,
) -> Size<f32>
    requires { IsTree words.now numbers.now 0 32 }
    ensures { KnownWidth words.now numbers.now q axis width height result }
{
    if let Some(h) = height {
        return axes(width, h);
    }
    match axis {
        RequestedAxis::Horizontal => axes(width, 0.0),
        RequestedAxis::Both => size_below(words, numbers, q, axis),
    }
}

// Step C: what is known before the aspect ratio.
fn size_of(words: &[u32], numbers: &[f32], q: LayoutInput, axis: RequestedAxis) -> Size<f32>
    requires { IsTree words.now numbers.now 0 32 }
    ensures { SizeOf words.now numbers.now q axis result }
{
    let r = Reader::at(words, numbers, 0);
    let parent = q.parent;
    let asked = q.known;
    let z = sizing::sizing_without_height_basis(r, parent);
    let known = sizing::styled_based_known_dimensions(z, asked);
    let width = known.width;
    let height = known.height;
    match width {
        None => size_below(words, numbers, q, axis),
        Some(w) => size_with_width(words, numbers, q, axis, w, height),
    }
}

// 8: the answer alone is tested.
fn size_reply(s: Size<f32>) -> Result<Size<f32>, Refusal>
    ensures { result ≡ size_reply s }
{
    if limits::too_large(s.width) {
        return Err(Refusal::TooLarge(NodeId(0)));
    }
    if limits::too_large(s.height) {
        return Err(Refusal::TooLarge(NodeId(0)));
    }
    Ok(s)
}

// The size of a page, or why it is refused, for any question that a node may be asked.
fn size_or_no(
    words: &[u32],
    numbers: &[f32],
    q: LayoutInput,
    axis: RequestedAxis,
) -> Result<Size<f32>, Refusal>
    ensures { result ≡ size_result words.now numbers.now q axis }
{
    tables::size_tested(words, numbers, q)?;
    size_reply(size_of(words, numbers, q, axis))
}

// The size of a page, or why it is refused. Nothing is asked of what is lent.
pub fn size_question(
    words: &[u32],
    numbers: &[f32],
    q: Question,
    axis: RequestedAxis,
) -> Result<Size<f32>, Refusal>
    ensures { SizeReplied (size_result words.now numbers.now (root_input q) axis) result }
{
    size_or_no(words, numbers, root_input(q), axis)
}
