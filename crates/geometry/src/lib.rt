// Sizes, places and sides by value, of any kind of value (the crate's src/geometry.rs, the part that block layout uses).
#![tactic(auto)]

ghost use Rattle.std.specs.Prelude.{◌≡◌};
ghost use Rattle.geometry.specs.Geometry.{across, down, sum_axes, plus};

#[derive(Clone, Copy)]
pub struct Size<T> {
    pub width: T,
    pub height: T,
}

#[derive(Clone, Copy)]
pub struct Point<T> {
    pub x: T,
    pub y: T,
}

#[derive(Clone, Copy)]
pub struct Line {
    pub start: f32,
    pub end: f32,
}

#[derive(Clone, Copy)]
pub struct Rect<T> {
    pub top: T,
    pub right: T,
    pub bottom: T,
    pub left: T,
}

impl Rect<f32> {
    pub fn horizontal_axis_sum(self) -> f32
        ensures { result ≡ across self }
    {
        self.left + self.right
    }

    pub fn vertical_axis_sum(self) -> f32
        ensures { result ≡ down self }
    {
        self.top + self.bottom
    }

    pub fn sum_axes(self) -> Size<f32>
        ensures { result ≡ sum_axes self }
    {
        Size {
            width: self.left + self.right,
            height: self.top + self.bottom,
        }
    }

    pub fn add(self, other: Rect<f32>) -> Rect<f32>
        ensures { result ≡ plus self other }
    {
        Rect {
            top: self.top + other.top,
            right: self.right + other.right,
            bottom: self.bottom + other.bottom,
            left: self.left + other.left,
        }
    }
}
