// Step F: what an unknown width wants of the children (the crate's determine_content_based_container_width), and a leaf's width.
#![tactic(auto)]

ghost use Rattle.std.specs.Prelude.{◌≡◌, ◌<◌, ◌≤◌, length, None};
ghost use Rattle.style.specs.Style.{plane_of, style_at};
ghost use Rattle.geometry.specs.Geometry.{across};
ghost use Rattle.reader.specs.Reader.{style_of};
ghost use Rattle.steps.specs.declared.Sizing.{Sizing};
ghost use Rattle.steps.specs.Width.{side_margins, outer_of, outer_width, want_by, want_sized, want_in, want_of, content_width, leaf_width};
ghost use Rattle.steps.specs.Probe.{probe_known, space_in, found_width};
ghost use Rattle.widths.specs.AtOnce.{width_at_once};

use geometry::{Rect, Size};
use length::{AvailableSpace, ResolveOrZero};
use reader::Reader;
use steps::{ProbeInput, Sizing, Want};
use style::{Flow, Measure};
use util::MaybeMath;

fn side_margins(r: Reader, basis: Option<f32>) -> f32
    ensures { result ≡ side_margins (style_of r.entry) basis }
{
    r.margin_left().resolve_or_zero(basis) + r.margin_right().resolve_or_zero(basis)
}

// Of a box with this padding+border across.
fn outer_of(both: f32, margins: f32, width: f32) -> f32
    ensures { (z : Sizing) → across z.both ≡ both → result ≡ outer_of z margins width }
{
    util::f32_max(width, both) + margins
}

// Step F: a child's outer width, once its width is found.
pub fn outer_width(r: Reader, a: AvailableSpace, width: f32) -> f32
    ensures { result ≡ outer_width (style_of r.entry) a width }
{
    outer_of(
        sizing::both_across(r, None),
        side_margins(r, a.into_option()),
        width,
    )
}

fn want_probe(z: Sizing, margins: f32, a: AvailableSpace) -> Want
    ensures { result ≡ want_by z margins a None }
{
    let size = z.size;
    let min = z.min;
    let max = z.max;
    let h = size.height;
    let lo = min.height;
    let hi = max.height;
    Want::Probe(ProbeInput {
        height: h.maybe_clamp(lo, hi),
        available: a.maybe_sub(margins),
    })
}

fn want_by(z: Sizing, margins: f32, a: AvailableSpace, width: Option<f32>) -> Want
    ensures { result ≡ want_by z margins a width }
{
    let both = z.both;
    match width {
        None => want_probe(z, margins, a),
        Some(w) => Want::Outer(outer_of(both.horizontal_axis_sum(), margins, w)),
    }
}

fn want_sized(z: Sizing, margins: f32, a: AvailableSpace) -> Want
    ensures { result ≡ want_sized z margins a }
{
    let size = z.size;
    let min = z.min;
    let max = z.max;
    let w = size.width;
    let lo = min.width;
    let hi = max.width;
    want_by(z, margins, a, w.maybe_clamp(lo, hi))
}

fn want_in(f: Flow, r: Reader, a: AvailableSpace) -> Want
    ensures { result ≡ want_in f (style_of r.entry) a }
{
    match f {
        Flow::Gone => Want::Nothing,
        Flow::Out => Want::Nothing,
        Flow::In => want_sized(
            sizing::sizing_without_height_basis(r, None),
            side_margins(r, a.into_option()),
            a,
        ),
    }
}

// Step F: what is wanted of a child.
pub fn want_of(r: Reader, a: AvailableSpace) -> Want
    ensures { result ≡ want_of (style_of r.entry) a }
{
    want_in(style::flow_at(r.style), r, a)
}

fn content_width(z: Sizing, inset: Rect<f32>, most: f32) -> f32
    ensures { result ≡ content_width z inset most }
{
    let both = z.both;
    let min = z.min;
    let max = z.max;
    let lo = min.width;
    let hi = max.width;
    util::f32_max(
        util::maybe_clamp(most + inset.horizontal_axis_sum(), lo, hi),
        both.horizontal_axis_sum(),
    )
}

// Step F: a definite available width first loses the insets.
pub fn available_inside(r: Reader, parent: Option<f32>, a: AvailableSpace) -> AvailableSpace
    ensures { result ≡ space_in (style_of r.entry) parent a }
{
    a.maybe_sub(sizing::inset_across(r, parent))
}

// Step F: the width that the widest child gives.
pub fn width_from(r: Reader, parent: Option<f32>, most: f32) -> f32
    ensures { result ≡ found_width (style_of r.entry) parent most }
{
    let z = sizing::sizing_without_height_basis(r, parent);
    let both = z.both;
    content_width(z, sizing::content_box_inset(r, both), most)
}

// The known sizes of a probed block.
pub fn probe_known(r: Reader, q: ProbeInput) -> Size<Option<f32>>
    ensures { result ≡ probe_known (style_of r.entry) q }
{
    let height = q.height;
    sizing::known_dimensions(
        r.ratio(),
        sizing::sizing_without_height_basis(r, None),
        Size {
            width: None,
            height,
        },
    )
}

pub fn leaf_width(m: Measure, a: AvailableSpace) -> f32
    ensures { result ≡ leaf_width m a }
{
    match a {
        AvailableSpace::Definite(x) => { util::maybe_clamp(x, Some(m.least), Some(m.most)) }
        AvailableSpace::MinContent => m.least,
        AvailableSpace::MaxContent => m.most,
    }
}

// A probe's width without step F below: a leaf's, or one that steps B and D give.
pub fn width_at_once(words: &[u32], numbers: &[f32], base: usize, q: ProbeInput) -> Option<f32>
    requires { (4 ≤ length words.now) × (base < plane_of numbers.now) }
    ensures { result ≡ width_at_once (style_at words.now 0 numbers.now base) q }
{
    if reader::is_leaf(words) {
        let a = q.available;
        let w = leaf_width(style::measure_at(words, 0, numbers, base), a);
        return Some(w);
    }
    let r = Reader::at(words, numbers, base);
    let known = probe_known(r, q);
    known.width
}
