// Step I: a container's frame (the crate's compute_inner up to its items).
#![tactic(auto)]

ghost use Rattle.std.specs.Prelude.{◌≡◌, not, List, ℕ, ◌<◌, ◌≤◌, length, Float};
ghost use Rattle.style.specs.Flow.{is_in};
ghost use Rattle.style.specs.Style.{plane_of, style_at};
ghost use Rattle.style.specs.declared.Style.{Style};
ghost use Rattle.reader.specs.Reader.{style_by, style_of};
ghost use Rattle.steps.specs.Context.{clips, is_normal, new_context, plain_block};
ghost use Rattle.steps.specs.Through.{open_box, hollow_box};
ghost use Rattle.steps.specs.HeightBasis.{definite_of, basis_below};
ghost use Rattle.steps.specs.Edges.{adjoins, own_end_of, step_i, frame_of};

use geometry::{Rect, Size};
use reader::Reader;
use steps::{Frame, LayoutInput, Sizing};
use style::{AlignContent, Flow, Overflow};
use util::MaybeMath;

#[tactic(auto, unfolding(steps::specs::Context::clips))]
fn is_scroll_container(o: Overflow) -> bool
    ensures { result ≡ clips o }
{
    matches!(o, Overflow::Hidden | Overflow::Scroll)
}

#[tactic(auto, unfolding(steps::specs::Context::is_normal))]
fn is_align_normal(a: AlignContent) -> bool
    ensures { result ≡ is_normal a }
{
    matches!(a, AlignContent::Normal)
}

// Step I: a new context. The style word tells.
fn establishes_new_bfc(style: u32) -> bool
    ensures { (first second : ℕ) (xs : List Float) (j : ℕ) → result ≡ new_context (style_by style first second xs j) }
{
    let o = style::overflow_of(style);
    let ox = o.x;
    let oy = o.y;
    let align = style::align_of(style);
    if is_scroll_container(ox) {
        return true;
    }
    if is_scroll_container(oy) {
        return true;
    }
    if is_align_normal(align) {
        return style::flag(style, style::CONTAINED);
    }
    true
}

#[tactic(auto, unfolding(style::specs::Flow::is_in))]
fn is_in(f: Flow) -> bool
    ensures { result ≡ is_in f }
{
    matches!(f, Flow::In)
}

// Step I: an in-flow block without new context. The style word tells, whoever reads it.
pub fn is_in_same_bfc(style: u32) -> bool
    ensures { (first second : ℕ) (xs : List Float) (j : ℕ) → result ≡ plain_block (style_by style first second xs j) }
{
    let kind = style::kind_of(style);
    if is_in(style::flow_at(style)) {
        if style::is_leaf(kind) {
            return false;
        }
        return !establishes_new_bfc(style);
    }
    false
}

// An edge of a box that is a plain block or not.
fn children_margins_adjoin_own_edge(plain: bool, flag: bool, padding: f32, border: f32) -> bool
    ensures { (s : Style) → plain_block s ≡ plain → result ≡ adjoins s flag padding border }
{
    if flag {
        if plain {
            if padding == 0.0 {
                return border == 0.0;
            }
        }
    }
    false
}

// A padding or a border above 0, over the content or under it.
fn has_vertical_edges(padding: Rect<f32>, border: Rect<f32>) -> bool
    ensures { not result ≡ open_box padding border }
{
    if 0.0 < padding.top {
        return true;
    }
    if 0.0 < padding.bottom {
        return true;
    }
    if 0.0 < border.top {
        return true;
    }
    0.0 < border.bottom
}

// Does the box itself keep margins from passing through, whatever its height and its children?
fn has_styles_preventing_being_collapsed_through(
    plain: bool,
    nested: bool,
    padding: Rect<f32>,
    border: Rect<f32>,
) -> bool
    ensures { (s : Style) → plain_block s ≡ plain → not result ≡ hollow_box s nested padding border }
{
    if nested {
        if plain {
            return has_vertical_edges(padding, border);
        }
    }
    true
}

// Own end: the end adjoins and step A gave no height.
fn own_end_margins_collapse_with_children(
    plain: bool,
    flag: bool,
    padding: f32,
    border: f32,
    height: Option<f32>,
) -> bool
    ensures { (s : Style) → plain_block s ≡ plain → result ≡ own_end_of s flag padding border height }
{
    if children_margins_adjoin_own_edge(plain, flag, padding, border) {
        return !height.is_some();
    }
    false
}

// A known height that was not asked is definite, and one that is called so.
fn definite_of(q: LayoutInput, height: Option<f32>) -> Option<f32>
    ensures { result ≡ definite_of q height }
{
    let asked = q.known;
    let ah = asked.height;
    if ah.is_some() {
        if q.definiteHeight {
            return height;
        }
        return None;
    }
    height
}

// What a fraction of a child's height is a part of.
fn basis_below(q: LayoutInput, known: Size<Option<f32>>, inset: Rect<f32>) -> Option<f32>
    ensures { result ≡ basis_below q known inset }
{
    let height = known.height;
    definite_of(q, height).maybe_sub(inset.vertical_axis_sum())
}

fn framed_by(r: Reader, q: LayoutInput, z: Sizing, known: Size<Option<f32>>, width: f32) -> Frame
    ensures { result ≡ step_i (style_of r.entry) q z known width }
{
    let padding = z.padding;
    let border = z.border;
    let both = z.both;
    let size = z.size;
    let min = z.min;
    let max = z.max;
    let height = known.height;
    let sh = size.height;
    let lo = min.height;
    let hi = max.height;
    let plain = is_in_same_bfc(r.style);
    let inset = sizing::content_box_inset(r, both);
    let prevented = has_styles_preventing_being_collapsed_through(plain, q.nested, padding, border);
    Frame {
        width,
        height,
        inset,
        floor: both.vertical_axis_sum(),
        minHeight: lo,
        maxHeight: hi,
        heightBasis: basis_below(q, known, inset),
        ownStart: children_margins_adjoin_own_edge(plain, q.collapseStart, padding.top, border.top),
        ownEnd: own_end_margins_collapse_with_children(
            plain,
            q.collapseEnd,
            padding.bottom,
            border.bottom,
            sh,
        ),
        hollow: !prevented,
        rtl: style::flag(r.style, style::RTL),
    }
}

// Steps A, B, D, E and I.
fn frame_of(r: Reader, q: LayoutInput, found: f32) -> Frame
    ensures { result ≡ frame_of (style_of r.entry) q found }
{
    let parent = q.parent;
    let asked = q.known;
    let basis = q.basis;
    let z = sizing::sizing_of(r, parent, basis);
    let known = sizing::known_dimensions(r.ratio(), z, asked);
    let w = known.width;
    framed_by(r, q, z, known, w.unwrap_or(found))
}

// The frame of the first node here, whose style is read part by part.
pub fn frame_at(words: &[u32], numbers: &[f32], base: usize, q: LayoutInput, found: f32) -> Frame
    requires { (4 ≤ length words.now) × (base < plane_of numbers.now) }
    ensures { result ≡ frame_of (style_at words.now 0 numbers.now base) q found }
{
    frame_of(Reader::at(words, numbers, base), q, found)
}
