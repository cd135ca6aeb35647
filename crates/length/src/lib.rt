// Lengths and the available width, resolved (the crate's style/dimension, style/available_space.rs and util/resolve.rs).
#![tactic(auto)]

ghost use Rattle.std.specs.Prelude.{◌≡◌};
ghost use Rattle.length.specs.Length.{scaled, resolved, resolved_or_zero, is_auto, resolved_rect, resolved_size};
ghost use Rattle.length.specs.Available.{available_less, definite};

use geometry::{Rect, Size};

#[derive(Clone, Copy)]
pub enum Length {
    Auto,
    Pixels(f32),
    Fraction(f32),
}

#[derive(Clone, Copy)]
pub enum AvailableSpace {
    Definite(f32),
    MinContent,
    MaxContent,
}

// What is none where it is auto or lacks its basis.
pub trait MaybeResolve<In, Out>: Sized {
    fn maybe_resolve(self, basis: In) -> Out;
}

// The same with 0 for none.
pub trait ResolveOrZero<Out>: Sized {
    fn resolve_or_zero(self, basis: Option<f32>) -> Out;
}

#[tactic(auto, unfolding(crate::specs::Length::scaled))]
fn scale(f: f32, basis: Option<f32>) -> Option<f32>
    ensures { result ≡ scaled f basis }
{
    basis.map(|b| f * b)
}

impl Length {
    #[tactic(auto, unfolding(crate::specs::Length::is_auto))]
    pub fn is_auto(self) -> bool
        ensures { result ≡ is_auto self }
    {
        matches!(self, Length::Auto)
    }
}

impl MaybeResolve<Option<f32>, Option<f32>> for Length {
    #[tactic(auto, unfolding(crate::specs::Length::resolved))]
    fn maybe_resolve(self, basis: Option<f32>) -> Option<f32>
        ensures { result ≡ resolved self basis }
    {
        match self {
            Length::Auto => None,
            Length::Pixels(x) => Some(x),
            Length::Fraction(f) => scale(f, basis),
        }
    }
}

impl ResolveOrZero<f32> for Length {
    #[tactic(auto, unfolding(crate::specs::Length::resolved_or_zero))]
    fn resolve_or_zero(self, basis: Option<f32>) -> f32
        ensures { result ≡ resolved_or_zero self basis }
    {
        self.maybe_resolve(basis).unwrap_or(0.0)
    }
}

impl ResolveOrZero<Rect<f32>> for Rect<Length> {
    #[tactic(auto, unfolding(crate::specs::Length::resolved_rect))]
    fn resolve_or_zero(self, basis: Option<f32>) -> Rect<f32>
        ensures { result ≡ resolved_rect self basis }
    {
        Rect {
            top: self.top.resolve_or_zero(basis),
            right: self.right.resolve_or_zero(basis),
            bottom: self.bottom.resolve_or_zero(basis),
            left: self.left.resolve_or_zero(basis),
        }
    }
}

impl MaybeResolve<Size<Option<f32>>, Size<Option<f32>>> for Size<Length> {
    #[tactic(auto, unfolding(crate::specs::Length::resolved_size))]
    fn maybe_resolve(self, basis: Size<Option<f32>>) -> Size<Option<f32>>
        ensures { result ≡ resolved_size self basis.width basis.height }
    {
        Size {
            width: self.width.maybe_resolve(basis.width),
            height: self.height.maybe_resolve(basis.height),
        }
    }
}

impl AvailableSpace {
    #[tactic(auto, unfolding(crate::specs::Available::available_less))]
    pub fn maybe_sub(self, x: f32) -> AvailableSpace
        ensures { result ≡ available_less self x }
    {
        match self {
            AvailableSpace::Definite(a) => AvailableSpace::Definite(a - x),
            AvailableSpace::MinContent => AvailableSpace::MinContent,
            AvailableSpace::MaxContent => AvailableSpace::MaxContent,
        }
    }

    #[tactic(auto, unfolding(crate::specs::Available::definite))]
    pub fn into_option(self) -> Option<f32>
        ensures { result ≡ definite self }
    {
        match self {
            AvailableSpace::Definite(a) => Some(a),
            AvailableSpace::MinContent => None,
            AvailableSpace::MaxContent => None,
        }
    }
}
