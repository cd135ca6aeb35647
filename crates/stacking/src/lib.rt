// Step J: a child's place, and the cursor past it (the crate's perform_final_layout_on_in_flow_children).
#![tactic(auto)]

pub mod item;

ghost use Rattle.std.specs.Prelude.{◌≡◌, cond, ◌+◌, ◌<◌};
ghost use Rattle.steps.specs.Baseline.{at_place, baseline_past};
ghost use Rattle.style.specs.Style.{plane_of, style_at};
ghost use Rattle.steps.specs.Stack.{inner_width, start_of, question_to, item_of, top_margins, bottom_margins, at_top, gap_of, free_of, share_of, place_x, place_y, place_of, past_through, past_box, stepped, line_of, edges_of, past_aside, past_hidden, Counts};
ghost use Rattle.steps.specs.declared.Sizing.{Sizing};
ghost use Rattle.stacking.specs.Footing.{footing_of, item_with};

use geometry::{Line, Point, Rect};
use margin::CollapsibleMarginSet;
use steps::{Cursor, Frame, LayoutInput, LayoutOutput};
use tree::Order;

// What is held of a child while it is laid out: margins (auto counts 0), which side margins are auto, the relative offset.
#[derive(Clone, Copy)]
pub struct Footing {
    pub margin: Rect<f32>,
    pub left: bool,
    pub right: bool,
    pub offset: Point<f32>,
}

// A child's question, and its footing.
#[derive(Clone, Copy)]
pub struct Plan {
    pub input: LayoutInput,
    pub footing: Footing,
}

pub fn container_inner_width(frame: Frame) -> f32
    ensures { result ≡ inner_width frame }
{
    let inset = frame.inset;
    frame.width - inset.horizontal_axis_sum()
}

pub fn start_of(frame: Frame) -> Cursor
    ensures { result ≡ start_of frame }
{
    let inset = frame.inset;
    Cursor {
        y: inset.top,
        strut: CollapsibleMarginSet::zero(),
        top: CollapsibleMarginSet::zero(),
        first: true,
        allThrough: true,
        baseline: None,
        shown: Order(0),
        count: 0,
    }
}

fn top_margin_set(footing: Footing, answer: LayoutOutput) -> CollapsibleMarginSet
    ensures { (z : Sizing) → result ≡ top_margins (item_with z footing) answer }
{
    let m = footing.margin;
    let t = answer.top;
    t.collapse_with_margin(m.top)
}

fn bottom_margin_set(footing: Footing, answer: LayoutOutput) -> CollapsibleMarginSet
    ensures { (z : Sizing) → result ≡ bottom_margins (item_with z footing) answer }
{
    let m = footing.margin;
    let b = answer.bottom;
    b.collapse_with_margin(m.bottom)
}

pub fn at_top(frame: Frame, cursor: Cursor) -> bool
    ensures { result ≡ at_top frame cursor }
{
    if cursor.first { frame.ownStart } else { false }
}

fn gap_of(frame: Frame, cursor: Cursor, t: CollapsibleMarginSet) -> f32
    ensures { result ≡ gap_of frame cursor t }
{
    let strut = cursor.strut;
    util::pick(
        at_top(frame, cursor),
        0.0,
        strut.collapse_with_set(t).resolve(),
    )
}

fn free_x_space(frame: Frame, footing: Footing, w: f32) -> f32
    ensures { (z : Sizing) → result ≡ free_of frame (item_with z footing) w }
{
    let margin = footing.margin;
    let inner = container_inner_width(frame);
    util::f32_max(0.0, (inner - w) - margin.horizontal_axis_sum())
}

fn x_axis_auto_margin_size(own: bool, other: bool, margin: f32, free: f32) -> f32
    ensures { result ≡ share_of own other margin free }
{
    util::pick(own, util::pick(other, free / 2.0, free), margin)
}

fn place_x(frame: Frame, footing: Footing, w: f32) -> f32
    ensures { (z : Sizing) → result ≡ place_x frame (item_with z footing) w }
{
    let margin = footing.margin;
    let inset = frame.inset;
    let offset = footing.offset;
    let free = free_x_space(frame, footing, w);
    if frame.rtl {
        (((frame.width - inset.right)
            - x_axis_auto_margin_size(footing.right, footing.left, margin.right, free))
            - w)
            + offset.x
    } else {
        (inset.left + x_axis_auto_margin_size(footing.left, footing.right, margin.left, free))
            + offset.x
    }
}

fn place_y(frame: Frame, cursor: Cursor, footing: Footing, answer: LayoutOutput) -> f32
    ensures { (z : Sizing) → result ≡ place_y frame cursor (item_with z footing) answer }
{
    let offset = footing.offset;
    let gap = gap_of(frame, cursor, top_margin_set(footing, answer));
    (cursor.y + gap) + offset.y
}

// Where a child stands.
pub fn place_of(frame: Frame, cursor: Cursor, footing: Footing, answer: LayoutOutput) -> Point<f32>
    ensures { (z : Sizing) → result ≡ place_of frame cursor (item_with z footing) answer }
{
    let size = answer.size;
    Point {
        x: place_x(frame, footing, size.width),
        y: place_y(frame, cursor, footing, answer),
    }
}

fn next_shown(order: Order) -> Order
    requires { order.0 < 4294967295 }
    ensures { result ≡ record { 0 = order.0 + 1 } }
{
    Order(order.0 + 1)
}

fn past_through(
    cursor: Cursor,
    t: CollapsibleMarginSet,
    b: CollapsibleMarginSet,
    baseline: Option<f32>,
) -> Cursor
    requires { Counts cursor }
    ensures { result ≡ past_through cursor t b baseline }
{
    let strut = cursor.strut;
    let top = cursor.top;
    let shown = cursor.shown;
    Cursor {
        y: cursor.y,
        strut: strut.collapse_with_set(t).collapse_with_set(b),
        top: pick_set(
            cursor.first,
            top.collapse_with_set(t).collapse_with_set(b),
            top,
        ),
        first: cursor.first,
        allThrough: cursor.allThrough,
        baseline,
        shown: next_shown(shown),
        count: cursor.count + 1,
    }
}

fn pick_set(c: bool, a: CollapsibleMarginSet, b: CollapsibleMarginSet) -> CollapsibleMarginSet
    ensures { result ≡ cond c a b }
{
    if c { a } else { b }
}

fn past_box(
    frame: Frame,
    cursor: Cursor,
    t: CollapsibleMarginSet,
    b: CollapsibleMarginSet,
    h: f32,
    baseline: Option<f32>,
) -> Cursor
    requires { Counts cursor }
    ensures { result ≡ past_box frame cursor t b h baseline }
{
    let top = cursor.top;
    let shown = cursor.shown;
    let gap = gap_of(frame, cursor, t);
    Cursor {
        y: (cursor.y + gap) + h,
        strut: b,
        top: pick_set(cursor.first, top.collapse_with_set(t), top),
        first: false,
        allThrough: false,
        baseline,
        shown: next_shown(shown),
        count: cursor.count + 1,
    }
}

// A child's baseline in its container: its place is worked out only where it has one.
fn baseline_at(frame: Frame, cursor: Cursor, footing: Footing, answer: LayoutOutput) -> Option<f32>
    ensures { (z : Sizing) → result ≡ at_place (place_y frame cursor (item_with z footing) answer) answer.baseline }
{
    let own = answer.baseline;
    match own {
        None => None,
        Some(b) => Some(place_y(frame, cursor, footing, answer) + b),
    }
}

// The first baseline past a child.
fn baseline_past(
    frame: Frame,
    cursor: Cursor,
    footing: Footing,
    answer: LayoutOutput,
) -> Option<f32>
    ensures { (z : Sizing) → result ≡ baseline_past cursor.baseline (place_y frame cursor (item_with z footing) answer) answer.baseline }
{
    let first = cursor.baseline;
    match first {
        None => baseline_at(frame, cursor, footing, answer),
        Some(b) => Some(b),
    }
}

// The cursor past an in-flow child.
pub fn stepped_past(frame: Frame, cursor: Cursor, footing: Footing, answer: LayoutOutput) -> Cursor
    requires { Counts cursor }
    ensures { (z : Sizing) → result ≡ stepped frame cursor (item_with z footing) answer }
{
    let size = answer.size;
    let t = top_margin_set(footing, answer);
    let b = bottom_margin_set(footing, answer);
    let baseline = baseline_past(frame, cursor, footing, answer);
    if answer.through {
        past_through(cursor, t, b, baseline)
    } else {
        past_box(frame, cursor, t, b, size.height, baseline)
    }
}

// The line of an out-of-flow child.
pub fn line_of(frame: Frame, cursor: Cursor) -> f32
    ensures { result ≡ line_of frame cursor }
{
    let strut = cursor.strut;
    cursor.y + util::pick(at_top(frame, cursor), 0.0, strut.resolve())
}

// The inner edges.
pub fn edges_of(frame: Frame) -> Line
    ensures { result ≡ edges_of frame }
{
    let inset = frame.inset;
    Line {
        start: inset.left,
        end: frame.width - inset.right,
    }
}

pub fn past_aside(cursor: Cursor) -> Cursor
    requires { Counts cursor }
    ensures { result ≡ past_aside cursor }
{
    let strut = cursor.strut;
    let top = cursor.top;
    let baseline = cursor.baseline;
    let shown = cursor.shown;
    Cursor {
        y: cursor.y,
        strut,
        top,
        first: cursor.first,
        allThrough: cursor.allThrough,
        baseline,
        shown: next_shown(shown),
        count: cursor.count + 1,
    }
}

pub fn past_hidden(cursor: Cursor) -> Cursor
    requires { Counts cursor }
    ensures { result ≡ past_hidden cursor }
{
    let strut = cursor.strut;
    let top = cursor.top;
    let baseline = cursor.baseline;
    let shown = cursor.shown;
    Cursor {
        y: cursor.y,
        strut,
        top,
        first: cursor.first,
        allThrough: cursor.allThrough,
        baseline,
        shown,
        count: cursor.count + 1,
    }
}
