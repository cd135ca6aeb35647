// Step J: a child's item and question, and what its place will ask of it.
ghost use Rattle.std.specs.Prelude.{◌≡◌, List, ◌<◌, ◌≤◌, length, Float};
ghost use Rattle.style.specs.Style.{plane_of, style_at};
ghost use Rattle.reader.specs.Reader.{style_in, style_of};
ghost use Rattle.steps.specs.Stack.{neg_opt, offset_x, relative_offset, offset_by, item_of, asked_width, asked_height, child_input, question_to};
ghost use Rattle.stacking.specs.Footing.{footing_of};

use crate::{Footing, Plan, container_inner_width};
use geometry::{Point, Rect, Size};
use length::{AvailableSpace, Length, MaybeResolve, ResolveOrZero};
use reader::Reader;
use steps::{BlockItem, Frame, LayoutInput};
use style::Position;
use util::MaybeMath;

#[tactic(auto, unfolding(steps::specs::Stack::neg_opt))]
fn negated(o: Option<f32>) -> Option<f32>
    ensures { result ≡ neg_opt o }
{
    o.map(|x| -x)
}

fn offset_x(left: Option<f32>, right: Option<f32>, rtl: bool) -> f32
    ensures { result ≡ offset_x left right rtl }
{
    if rtl {
        negated(right).or(left).unwrap_or(0.0)
    } else {
        left.or(negated(right)).unwrap_or(0.0)
    }
}

fn resolve_relative_offset(
    i: Rect<Length>,
    rtl: bool,
    basis: Option<f32>,
    height: Option<f32>,
) -> Point<f32>
    ensures { result ≡ relative_offset i rtl basis height }
{
    let top = i.top;
    let right = i.right;
    let bottom = i.bottom;
    let left = i.left;
    Point {
        x: offset_x(left.maybe_resolve(basis), right.maybe_resolve(basis), rtl),
        y: top
            .maybe_resolve(height)
            .or(negated(bottom.maybe_resolve(height)))
            .unwrap_or(0.0),
    }
}

fn offset_by(
    p: Position,
    i: Rect<Length>,
    rtl: bool,
    basis: Option<f32>,
    height: Option<f32>,
) -> Point<f32>
    ensures { result ≡ offset_by p i rtl basis height }
{
    match p {
        Position::Static => Point { x: 0.0, y: 0.0 },
        Position::Relative => resolve_relative_offset(i, rtl, basis, height),
        Position::Absolute => Point { x: 0.0, y: 0.0 },
    }
}

// A child's item, of its style.
fn item_of(frame: Frame, r: Reader) -> BlockItem
    ensures { result ≡ item_of frame (style_of r.entry) }
{
    let height = frame.heightBasis;
    let margin = r.margin();
    let left = margin.left;
    let right = margin.right;
    let position = style::position_of(r.style);
    let inset = r.inset();
    let inner = container_inner_width(frame);
    BlockItem {
        sizing: sizing::sizing_of(r, Some(inner), height),
        margin: margin.resolve_or_zero(Some(inner)),
        left: left.is_auto(),
        right: right.is_auto(),
        offset: offset_by(position, inset, frame.rtl, Some(inner), height),
    }
}

fn asked_width(frame: Frame, item: BlockItem) -> f32
    ensures { result ≡ asked_width frame item }
{
    let margin = item.margin;
    let z = item.sizing;
    let both = z.both;
    let size = z.size;
    let min = z.min;
    let max = z.max;
    let w = size.width;
    let lo = min.width;
    let hi = max.width;
    let stretched = container_inner_width(frame) - margin.horizontal_axis_sum();
    util::f32_max(
        util::maybe_clamp(w.unwrap_or(stretched), lo, hi),
        both.horizontal_axis_sum(),
    )
}

fn asked_height(item: BlockItem) -> Option<f32>
    ensures { result ≡ asked_height item }
{
    let z = item.sizing;
    let both = z.both;
    let size = z.size;
    let min = z.min;
    let max = z.max;
    let h = size.height;
    let lo = min.height;
    let hi = max.height;
    h.maybe_clamp(lo, hi).maybe_max(both.vertical_axis_sum())
}

// The final question that a container puts to a child, of its item.
fn child_input(frame: Frame, r: Reader, item: BlockItem) -> LayoutInput
    ensures { (xs : List Float) → result ≡ child_input frame (style_in r.entry xs) item }
{
    let plain = frames::is_in_same_bfc(r.style);
    let basis = frame.heightBasis;
    let width = asked_width(frame, item);
    let known = Size {
        width: Some(width),
        height: asked_height(item),
    };
    LayoutInput {
        known,
        parent: Some(container_inner_width(frame)),
        basis,
        definiteHeight: true,
        available: AvailableSpace::MaxContent,
        collapseStart: plain,
        collapseEnd: plain,
        nested: true,
    }
}

// What is held of an item.
fn footing_of(item: BlockItem) -> Footing
    ensures { result ≡ footing_of item }
{
    let margin = item.margin;
    let offset = item.offset;
    Footing {
        margin,
        left: item.left,
        right: item.right,
        offset,
    }
}

// The plan of the first node here, a child with this frame around it. Its style and its item end with this call.
pub fn plan_at(words: &[u32], numbers: &[f32], base: usize, frame: Frame) -> Plan
    requires { (4 ≤ length words.now) × (base < plane_of numbers.now) }
    ensures input { result.input ≡ question_to frame (style_at words.now 0 numbers.now base) }
    ensures footing { result.footing ≡ footing_of (item_of frame (style_at words.now 0 numbers.now base)) }
{
    let r = Reader::at(words, numbers, base);
    let i = item_of(frame, r);
    Plan {
        input: child_input(frame, r, i),
        footing: footing_of(i),
    }
}
