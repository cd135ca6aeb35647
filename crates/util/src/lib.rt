// larger and smaller, and arithmetic on numbers that may be missing (the crate's src/util/sys.rs and its MaybeMath).
#![tactic(auto)]

ghost use Rattle.std.specs.Prelude.{◌≡◌, cond};
ghost use Rattle.util.specs.Math.{larger, smaller, capped, floored, clamped};
ghost use Rattle.util.specs.Maybe.{add_opt, sub_opt, clamp_opt, floor_opt, ratio_width, ratio_height, ratio_fills, add_size};

use geometry::Size;

// A branch with no join: both are worked out, one is taken.
pub fn pick(c: bool, a: f32, b: f32) -> f32
    ensures { result ≡ cond c a b }
{
    if c { a } else { b }
}

pub fn f32_max(a: f32, b: f32) -> f32
    ensures { result ≡ larger a b }
{
    if a < b { b } else { a }
}

pub fn f32_min(a: f32, b: f32) -> f32
    ensures { result ≡ smaller a b }
{
    if b < a { b } else { a }
}

pub fn maybe_min(x: f32, hi: Option<f32>) -> f32
    ensures { result ≡ capped x hi }
{
    match hi {
        None => x,
        Some(m) => f32_min(x, m),
    }
}

pub fn maybe_max(x: f32, lo: Option<f32>) -> f32
    ensures { result ≡ floored x lo }
{
    match lo {
        None => x,
        Some(m) => f32_max(x, m),
    }
}

pub fn maybe_clamp(x: f32, lo: Option<f32>, hi: Option<f32>) -> f32
    ensures { result ≡ clamped x lo hi }
{
    maybe_max(maybe_min(x, hi), lo)
}

// Arithmetic that leaves a missing number missing.
pub trait MaybeMath: Sized {
    fn maybe_add(self, x: f32) -> Self;

    fn maybe_sub(self, x: f32) -> Self;

    fn maybe_clamp(self, lo: Option<f32>, hi: Option<f32>) -> Self;

    fn maybe_max(self, x: f32) -> Self;
}

impl MaybeMath for Option<f32> {
    fn maybe_add(self, x: f32) -> Option<f32>
        ensures { result ≡ add_opt self x }
    {
        self.map(|a| a + x)
    }

    fn maybe_sub(self, x: f32) -> Option<f32>
        ensures { result ≡ sub_opt self x }
    {
        self.map(|a| a - x)
    }

    fn maybe_clamp(self, lo: Option<f32>, hi: Option<f32>) -> Option<f32>
        ensures { result ≡ clamp_opt self lo hi }
    {
        self.map(|a| maybe_clamp(a, lo, hi))
    }

    fn maybe_max(self, x: f32) -> Option<f32>
        ensures { result ≡ floor_opt self x }
    {
        self.map(|a| f32_max(a, x))
    }
}

// The width that a height gives, and the height that a width gives.
fn width_from(height: Option<f32>, ratio: f32) -> Option<f32>
    ensures { result ≡ ratio_width height ratio }
{
    height.map(|h| h * ratio)
}

fn height_from(width: Option<f32>, ratio: f32) -> Option<f32>
    ensures { result ≡ ratio_height width ratio }
{
    width.map(|w| w / ratio)
}

// A size of which a side may be missing.
pub trait MaybeSize: Sized {
    fn maybe_apply_aspect_ratio(self, ratio: Option<f32>) -> Self;

    fn maybe_add(self, s: Size<f32>) -> Self;
}

impl MaybeSize for Size<Option<f32>> {
    fn maybe_apply_aspect_ratio(self, ratio: Option<f32>) -> Size<Option<f32>>
        ensures { result ≡ ratio_fills self ratio }
    {
        let width = self.width;
        let height = self.height;
        match ratio {
            None => Size { width, height },
            Some(q) => Size {
                width: width.or(width_from(height, q)),
                height: height.or(height_from(width, q)),
            },
        }
    }

    fn maybe_add(self, s: Size<f32>) -> Size<Option<f32>>
        ensures { result ≡ add_size self s }
    {
        let width = self.width;
        let height = self.height;
        Size {
            width: width.maybe_add(s.width),
            height: height.maybe_add(s.height),
        }
    }
}
