// Steps K to N: a container's height and its answer (the end of the crate's compute_inner); a leaf's answer.
#![tactic(auto)]

ghost use Rattle.std.specs.Prelude.{◌≡◌, ◌||◌, ◌<◌, ◌≤◌, length};
ghost use Rattle.style.specs.Style.{plane_of, measure_at, style_at};
ghost use Rattle.style.specs.declared.Style.{Style};
ghost use Rattle.steps.specs.declared.LayoutInput.{LayoutInput};
ghost use Rattle.steps.specs.declared.Frame.{Frame};
ghost use Rattle.steps.specs.declared.Cursor.{Cursor};
ghost use Rattle.heights.specs.Tail.{tail_of};
ghost use Rattle.heights.specs.Leaves.{stack_leaves};
ghost use Rattle.steps.specs.Stack.{at_top};
ghost use Rattle.steps.specs.Baseline.{shifted, block_baseline};
ghost use Rattle.steps.specs.Through.{step_n, passed_out, output_of, finished, leaf_output};
ghost use Rattle.steps.specs.Height.{extra_of, step_k, step_l, held_open, still_own_end, step_m};

use geometry::Size;
use length::ResolveOrZero;
use margin::CollapsibleMarginSet;
use reader::Reader;
use steps::{Cursor, Finished, Frame, LayoutInput, LayoutOutput};
use style::{AlignContent, Measure};
use util::MaybeMath;

// What the stack leaves to steps L to N. Of the children, as block.rs has it: their height (step K), the set above, the set
// below, whether all shown ones are through, the first baseline. Of the frame, which is not held while they are laid out: its
// width and known height, the insets above and below together, the limits of its height, and what its edges do.
#[derive(Clone, Copy)]
pub struct StackOutput {
    pub content: f32,
    pub top: CollapsibleMarginSet,
    pub bottom: CollapsibleMarginSet,
    pub allThrough: bool,
    pub baseline: Option<f32>,
    pub width: f32,
    pub height: Option<f32>,
    pub insets: f32,
    pub floor: f32,
    pub minHeight: Option<f32>,
    pub maxHeight: Option<f32>,
    pub ownStart: bool,
    pub ownEnd: bool,
    pub hollow: bool,
}

// What steps M and N ask of a style, with its margins resolved.
#[derive(Clone, Copy)]
pub struct Tail {
    pub align: AlignContent,
    pub safe: bool,
    pub contained: bool,
    pub top: f32,
    pub bottom: f32,
}

fn ends_or_tops(frame: Frame, cursor: Cursor) -> bool
    ensures { result ≡ (frame.ownEnd || at_top frame cursor) }
{
    if frame.ownEnd {
        true
    } else {
        stacking::at_top(frame, cursor)
    }
}

fn extra_of(frame: Frame, cursor: Cursor) -> f32
    ensures { result ≡ extra_of frame cursor }
{
    let strut = cursor.strut;
    util::pick(ends_or_tops(frame, cursor), 0.0, strut.resolve())
}

// Step K.
fn intrinsic_outer_height(frame: Frame, cursor: Cursor) -> f32
    ensures { result ≡ step_k frame cursor }
{
    let inset = frame.inset;
    let extra = extra_of(frame, cursor);
    util::f32_max(0.0, (cursor.y + extra) + inset.bottom)
}

// Step K, and what steps L to N ask of stack and frame besides.
pub fn stack_output(frame: Frame, cursor: Cursor) -> StackOutput
    ensures { result ≡ stack_leaves frame cursor }
{
    let inset = frame.inset;
    let height = frame.height;
    let minHeight = frame.minHeight;
    let maxHeight = frame.maxHeight;
    let top = cursor.top;
    let bottom = cursor.strut;
    let baseline = cursor.baseline;
    StackOutput {
        content: intrinsic_outer_height(frame, cursor),
        top,
        bottom,
        allThrough: cursor.allThrough,
        baseline,
        width: frame.width,
        height,
        insets: inset.vertical_axis_sum(),
        floor: frame.floor,
        minHeight,
        maxHeight,
        ownStart: frame.ownStart,
        ownEnd: frame.ownEnd,
        hollow: frame.hollow,
    }
}

// Step L.
fn container_outer_height(stack: StackOutput) -> f32
    ensures { (f : Frame) (c : Cursor) → stack ≡ stack_leaves f c → result ≡ step_l f (step_k f c) }
{
    let height = stack.height;
    let lo = stack.minHeight;
    let hi = stack.maxHeight;
    util::f32_max(
        height.unwrap_or(util::maybe_clamp(stack.content, lo, hi)),
        stack.floor,
    )
}

fn height_constrained_by_min_height(lo: Option<f32>, height: f32) -> bool
    ensures { result ≡ held_open lo height }
{
    match lo {
        None => false,
        Some(m) => { if 0.0 < m { height <= m } else { false } }
    }
}

fn own_bottom_margin_collapses_with_children(stack: StackOutput, height: f32) -> bool
    ensures { (f : Frame) (c : Cursor) → stack ≡ stack_leaves f c → result ≡ still_own_end f height }
{
    let lo = stack.minHeight;
    if stack.ownEnd {
        !height_constrained_by_min_height(lo, height)
    } else {
        false
    }
}

// Step M.
fn group_offset(tail: Tail, stack: StackOutput, height: f32) -> Option<f32>
    ensures { (s : Style) (q : LayoutInput) (f : Frame) (c : Cursor) → tail ≡ tail_of s q → stack ≡ stack_leaves f c → result ≡ step_m s f height (step_k f c) }
{
    let align = tail.align;
    let safe = tail.safe;
    let inner = height - stack.insets;
    let content = stack.content - stack.insets;
    alignment::compute_block_align_content_offset(align, safe, inner - content)
}

// Step N.
fn can_be_collapsed_through(stack: StackOutput, height: f32) -> bool
    ensures { (f : Frame) (c : Cursor) → stack ≡ stack_leaves f c → result ≡ step_n f c height }
{
    if stack.hollow {
        if height == 0.0 {
            return stack.allThrough;
        }
    }
    false
}

fn passed_out(passed: bool, set: CollapsibleMarginSet, own: f32) -> CollapsibleMarginSet
    ensures { result ≡ passed_out passed set own }
{
    if passed {
        set
    } else {
        CollapsibleMarginSet::from_margin(own)
    }
}

// Step M moves a baseline too.
fn shifted(b: Option<f32>, shift: Option<f32>) -> Option<f32>
    ensures { result ≡ shifted b shift }
{
    match shift {
        None => b,
        Some(d) => b.maybe_add(d),
    }
}

// A container's baseline, of the first one found in its stack.
fn block_baseline(tail: Tail, b: Option<f32>, shift: Option<f32>) -> Option<f32>
    ensures { (s : Style) (q : LayoutInput) → tail ≡ tail_of s q → result ≡ block_baseline s b shift }
{
    if tail.contained {
        None
    } else {
        shifted(b, shift)
    }
}

fn output_of(tail: Tail, stack: StackOutput, height: f32, shift: Option<f32>) -> LayoutOutput
    ensures { (s : Style) (q : LayoutInput) (f : Frame) (c : Cursor) → tail ≡ tail_of s q → stack ≡ stack_leaves f c → result ≡ output_of s q f c height shift }
{
    let top = stack.top;
    let bottom = stack.bottom;
    let baseline = stack.baseline;
    let own_end = own_bottom_margin_collapses_with_children(stack, height);
    let size = Size {
        width: stack.width,
        height,
    };
    LayoutOutput {
        size,
        top: passed_out(stack.ownStart, top, tail.top),
        bottom: passed_out(own_end, bottom, tail.bottom),
        through: can_be_collapsed_through(stack, height),
        baseline: block_baseline(tail, baseline, shift),
    }
}

// Steps L to N.
fn finish(tail: Tail, stack: StackOutput) -> Finished
    ensures { (s : Style) (q : LayoutInput) (f : Frame) (c : Cursor) → tail ≡ tail_of s q → stack ≡ stack_leaves f c → result ≡ finished s q f c }
{
    let height = container_outer_height(stack);
    let shift = group_offset(tail, stack, height);
    Finished {
        output: output_of(tail, stack, height, shift),
        shift,
    }
}

// The tail of the first node here.
fn tail_at(words: &[u32], numbers: &[f32], base: usize, input: LayoutInput) -> Tail
    requires { (4 ≤ length words.now) × (base < plane_of numbers.now) }
    ensures { result ≡ tail_of (style_at words.now 0 numbers.now base) input }
{
    let r = Reader::at(words, numbers, base);
    let parent = input.parent;
    Tail {
        align: style::align_of(r.style),
        safe: style::flag(r.style, style::SAFE),
        contained: style::flag(r.style, style::CONTAINED),
        top: r.margin_top().resolve_or_zero(parent),
        bottom: r.margin_bottom().resolve_or_zero(parent),
    }
}

// Steps L to N of the first node here, whose style was not held.
pub fn finish_at(
    words: &[u32],
    numbers: &[f32],
    base: usize,
    input: LayoutInput,
    stack: StackOutput,
) -> Finished
    requires { (4 ≤ length words.now) × (base < plane_of numbers.now) }
    ensures { (f : Frame) (c : Cursor) → stack ≡ stack_leaves f c → result ≡ finished (style_at words.now 0 numbers.now base) input f c }
{
    finish(tail_at(words, numbers, base, input), stack)
}

// A leaf's answer.
pub fn leaf_output(m: Measure, input: LayoutInput) -> LayoutOutput
    ensures { result ≡ leaf_output m input }
{
    let known = input.known;
    let kw = known.width;
    let kh = known.height;
    let available = input.available;
    let baseline = m.baseline;
    let size = Size {
        width: kw.unwrap_or(widths::leaf_width(m, available)),
        height: kh.unwrap_or(m.height),
    };
    LayoutOutput {
        size,
        top: CollapsibleMarginSet::zero(),
        bottom: CollapsibleMarginSet::zero(),
        through: false,
        baseline,
    }
}

// The answer of the first node here, leaf j: of its style it asks its table alone.
pub fn leaf_at(words: &[u32], numbers: &[f32], j: usize, input: LayoutInput) -> LayoutOutput
    ensures { result ≡ leaf_output (measure_at words.now 0 numbers.now j) input }
{
    leaf_output(style::measure_at(words, 0, numbers, j), input)
}
