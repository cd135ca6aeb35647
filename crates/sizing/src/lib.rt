// Steps A to E of one box: its sizes and insets (the crate's compute_block_layout and the start of compute_inner).
#![tactic(auto)]

ghost use Rattle.std.specs.Prelude.{◌≡◌};
ghost use Rattle.geometry.specs.Geometry.{across};
ghost use Rattle.style.specs.declared.Style.{Style};
ghost use Rattle.reader.specs.Reader.{style_of};
ghost use Rattle.steps.specs.Sizing.{box_size, sizing_of, step_a, decided, known_axis, step_b, filled, step_d, known_of, bar_of, gutter, insets};

use geometry::{Rect, Size};
use length::{Length, MaybeResolve, ResolveOrZero};
use reader::Reader;
use steps::Sizing;
use style::Overflow;
use util::{MaybeMath, MaybeSize};

// A size against its two bases, for any style with this ratio and this box.
fn box_size(
    content: bool,
    ratio: Option<f32>,
    l: Size<Length>,
    basis: Option<f32>,
    height: Option<f32>,
    both: Rect<f32>,
) -> Size<Option<f32>>
    ensures { (s : Style) → s.content ≡ content → s.ratio ≡ ratio → result ≡ box_size s l basis height both }
{
    let plain = l
        .maybe_resolve(Size {
            width: basis,
            height,
        })
        .maybe_apply_aspect_ratio(ratio);
    if content {
        plain.maybe_add(both.sum_axes())
    } else {
        plain
    }
}

// Step A.
pub fn sizing_of(r: Reader, basis: Option<f32>, height: Option<f32>) -> Sizing
    ensures { result ≡ sizing_of (style_of r.entry) basis height }
{
    let padding = r.padding().resolve_or_zero(basis);
    let border = r.border().resolve_or_zero(basis);
    let both = padding.add(border);
    let content = style::flag(r.style, style::CONTENT_BOX);
    let ratio = r.ratio();
    let size = r.size();
    let min = r.min();
    let max = r.max();
    Sizing {
        padding,
        border,
        both,
        size: box_size(content, ratio, size, basis, height, both),
        min: box_size(content, ratio, min, basis, height, both),
        max: box_size(content, ratio, max, basis, height, both),
    }
}

// Step A where no height has a basis.
pub fn sizing_without_height_basis(r: Reader, basis: Option<f32>) -> Sizing
    ensures { result ≡ step_a (style_of r.entry) basis }
{
    sizing_of(r, basis, None)
}

// Step A's padding+border on the left, and on the right.
fn left_of(r: Reader, basis: Option<f32>) -> f32
    ensures { result ≡ (step_a (style_of r.entry) basis).both.left }
{
    r.padding_left().resolve_or_zero(basis) + r.border_left().resolve_or_zero(basis)
}

fn right_of(r: Reader, basis: Option<f32>) -> f32
    ensures { result ≡ (step_a (style_of r.entry) basis).both.right }
{
    r.padding_right().resolve_or_zero(basis) + r.border_right().resolve_or_zero(basis)
}

// Step A's padding+border across.
pub fn both_across(r: Reader, basis: Option<f32>) -> f32
    ensures { result ≡ across (step_a (style_of r.entry) basis).both }
{
    left_of(r, basis) + right_of(r, basis)
}

// Step B: min where max <= min.
fn min_max_definite_size(lo: Option<f32>, hi: Option<f32>) -> Option<f32>
    ensures { result ≡ decided lo hi }
{
    match lo {
        None => None,
        Some(a) => match hi {
            None => None,
            Some(b) => { if b <= a { Some(a) } else { None } }
        },
    }
}

fn known_axis(
    asked: Option<f32>,
    size: Option<f32>,
    lo: Option<f32>,
    hi: Option<f32>,
    pb: f32,
) -> Option<f32>
    ensures { result ≡ known_axis asked size lo hi pb }
{
    asked
        .or(min_max_definite_size(lo, hi).or(size.maybe_clamp(lo, hi)))
        .maybe_max(pb)
}

// Step B.
pub fn styled_based_known_dimensions(z: Sizing, asked: Size<Option<f32>>) -> Size<Option<f32>>
    ensures { result ≡ step_b z asked }
{
    let both = z.both;
    let size = z.size;
    let min = z.min;
    let max = z.max;
    let aw = asked.width;
    let ah = asked.height;
    let sw = size.width;
    let sh = size.height;
    let lw = min.width;
    let lh = min.height;
    let hw = max.width;
    let hh = max.height;
    Size {
        width: known_axis(aw, sw, lw, hw, both.horizontal_axis_sum()),
        height: known_axis(ah, sh, lh, hh, both.vertical_axis_sum()),
    }
}

fn fill_axes(z: Sizing, known: Size<Option<f32>>, f: Size<Option<f32>>) -> Size<Option<f32>>
    ensures { result ≡ filled z known f }
{
    let min = z.min;
    let max = z.max;
    let kw = known.width;
    let kh = known.height;
    let fw = f.width;
    let fh = f.height;
    let lw = min.width;
    let lh = min.height;
    let hw = max.width;
    let hh = max.height;
    Size {
        width: kw.or(fw.maybe_clamp(lw, hw)),
        height: kh.or(fh.maybe_clamp(lh, hh)),
    }
}

// Step D, for any style with this ratio.
pub fn known_by_ratio(ratio: Option<f32>, z: Sizing, known: Size<Option<f32>>) -> Size<Option<f32>>
    ensures { (s : Style) → s.ratio ≡ ratio → result ≡ step_d s z known }
{
    fill_axes(z, known, known.maybe_apply_aspect_ratio(ratio))
}

// Steps B and D.
pub fn known_dimensions(
    ratio: Option<f32>,
    z: Sizing,
    asked: Size<Option<f32>>,
) -> Size<Option<f32>>
    ensures { (s : Style) → s.ratio ≡ ratio → result ≡ known_of s z asked }
{
    known_by_ratio(ratio, z, styled_based_known_dimensions(z, asked))
}

#[tactic(auto, unfolding(steps::specs::Sizing::bar_of))]
fn bar(o: Overflow, x: f32) -> f32
    ensures { result ≡ bar_of o x }
{
    match o {
        Overflow::Visible | Overflow::Clip | Overflow::Hidden => 0.0,
        Overflow::Scroll => x,
    }
}

fn scrollbar_gutter(r: Reader) -> Rect<f32>
    ensures { result ≡ gutter (style_of r.entry) }
{
    let o = style::overflow_of(r.style);
    let ox = o.x;
    let oy = o.y;
    let rtl = style::flag(r.style, style::RTL);
    let width = r.scrollbar();
    let side = bar(oy, width);
    let bottom = bar(ox, width);
    Rect {
        top: 0.0,
        right: util::pick(rtl, 0.0, side),
        bottom,
        left: util::pick(rtl, side, 0.0),
    }
}

// Step E: padding+border plus gutter.
pub fn content_box_inset(r: Reader, both: Rect<f32>) -> Rect<f32>
    ensures { result ≡ insets (style_of r.entry) both }
{
    both.add(scrollbar_gutter(r))
}

// Step E's insets across.
pub fn inset_across(r: Reader, basis: Option<f32>) -> f32
    ensures { result ≡ across (insets (style_of r.entry) (step_a (style_of r.entry) basis).both) }
{
    let bar = scrollbar_gutter(r);
    let left = left_of(r, basis) + bar.left;
    let right = right_of(r, basis) + bar.right;
    left + right
}
