// Collapsible margins (the crate's src/tree/layout.rs).
#![tactic(auto)]

ghost use Rattle.std.specs.Prelude.{◌≡◌};
ghost use Rattle.margin.specs.Margin.{no_margins, set_of, joined, joined_with, sum_of};

use util::{f32_max, f32_min};

#[derive(Clone, Copy)]
pub struct CollapsibleMarginSet {
    pub positive: f32,
    pub negative: f32,
}

impl CollapsibleMarginSet {
    pub fn zero() -> Self
        ensures { result ≡ no_margins }
    {
        CollapsibleMarginSet {
            positive: 0.0,
            negative: 0.0,
        }
    }

    pub fn from_margin(m: f32) -> Self
        ensures { result ≡ set_of m }
    {
        CollapsibleMarginSet {
            positive: f32_max(0.0, m),
            negative: f32_min(0.0, m),
        }
    }

    pub fn collapse_with_set(self, other: CollapsibleMarginSet) -> Self
        ensures { result ≡ joined self other }
    {
        CollapsibleMarginSet {
            positive: f32_max(self.positive, other.positive),
            negative: f32_min(self.negative, other.negative),
        }
    }

    pub fn collapse_with_margin(self, m: f32) -> Self
        ensures { result ≡ joined_with self m }
    {
        self.collapse_with_set(CollapsibleMarginSet::from_margin(m))
    }

    pub fn resolve(self) -> f32
        ensures { result ≡ sum_of self }
    {
        self.positive + self.negative
    }
}
