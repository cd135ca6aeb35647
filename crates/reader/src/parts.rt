// What a reader reads, part by part.
ghost use Rattle.std.specs.Prelude.{◌≡◌, ◌<◌, ◌≤◌, length};
ghost use Rattle.style.specs.Codes.{code_at, length_of};
ghost use Rattle.style.specs.Style.{word_at, plane_of, number_at, style_at};
ghost use Rattle.style.specs.Fields.{size_in, rect_in};
ghost use Rattle.reader.specs.Reader.{style_of};

use crate::Reader;
use geometry::{Rect, Size};
use length::Length;

impl<'a> Reader<'a> {
    // A reader of the first node of these words, whose numbers are those of node j.
    pub fn at(words: &[u32], numbers: &'a [f32], j: usize) -> Reader<'a>
        requires { (4 ≤ length words.now) × (j < plane_of numbers.now) }
        ensures reads { result.numbers.now ≡ numbers.now }
        ensures style { style_of result ≡ style_at words.now 0 numbers.now j }
    {
        Reader {
            style: style::word_in(words, 0, style::STYLE),
            first: style::word_in(words, 0, style::UNITS),
            second: style::word_in(words, 0, style::MORE_UNITS),
            numbers,
            plane: numbers.len() / style::NUMBERS,
            node: j,
        }
    }

    // Number f.
    fn number(self, f: usize) -> f32
        requires { f < 28 }
        ensures { result ≡ number_at self.entry.numbers.now self.entry.node f }
    {
        style::number_in(self.numbers, self.plane, self.node, f)
    }

    // Field f, whose unit stands at k of a unit word.
    fn length(self, units: u32, k: u32, f: usize) -> Length
        requires { (k < 16) × (f < 28) }
        ensures { result ≡ length_of (code_at units k) (number_at self.entry.numbers.now self.entry.node f) }
    {
        style::length_from(style::code(units, k), self.number(f))
    }

    // Fields f and f + 1, whose units stand from k on.
    #[tactic(auto, unfolding(style::specs::Fields::size_in))]
    fn pair(self, units: u32, k: u32, f: usize) -> Size<Length>
        requires { (k < 15) × (f < 26) }
        ensures { result ≡ size_in units k self.entry.numbers.now self.entry.node f }
    {
        Size {
            width: self.length(units, k, f),
            height: self.length(units, k + 1, f + 1),
        }
    }

    // Four fields likewise.
    #[tactic(auto, unfolding(style::specs::Fields::rect_in))]
    fn sides(self, units: u32, k: u32, f: usize) -> Rect<Length>
        requires { (k < 13) × (f < 24) }
        ensures { result ≡ rect_in units k self.entry.numbers.now self.entry.node f }
    {
        Rect {
            top: self.length(units, k, f),
            right: self.length(units, k + 1, f + 1),
            bottom: self.length(units, k + 2, f + 2),
            left: self.length(units, k + 3, f + 3),
        }
    }

    #[tactic(auto, unfolding(crate::specs::Reader::style_by))]
    pub fn size(self) -> Size<Length>
        ensures { result ≡ (style_of self.entry).size }
    {
        self.pair(self.first, 0, 0)
    }

    #[tactic(auto, unfolding(crate::specs::Reader::style_by))]
    pub fn min(self) -> Size<Length>
        ensures { result ≡ (style_of self.entry).min }
    {
        self.pair(self.first, 2, 2)
    }

    #[tactic(auto, unfolding(crate::specs::Reader::style_by))]
    pub fn max(self) -> Size<Length>
        ensures { result ≡ (style_of self.entry).max }
    {
        self.pair(self.first, 4, 4)
    }

    #[tactic(auto, unfolding(crate::specs::Reader::style_by))]
    pub fn margin(self) -> Rect<Length>
        ensures { result ≡ (style_of self.entry).margin }
    {
        self.sides(self.first, 6, style::MARGIN)
    }

    #[tactic(auto, unfolding(crate::specs::Reader::style_by))]
    pub fn padding(self) -> Rect<Length>
        ensures { result ≡ (style_of self.entry).padding }
    {
        self.sides(self.first, 10, style::PADDING)
    }

    #[tactic(auto, unfolding(crate::specs::Reader::style_by))]
    pub fn border(self) -> Rect<Length>
        ensures { result ≡ (style_of self.entry).border }
    {
        self.sides(self.second, 0, style::BORDER)
    }

    #[tactic(auto, unfolding(crate::specs::Reader::style_by))]
    pub fn inset(self) -> Rect<Length>
        ensures { result ≡ (style_of self.entry).inset }
    {
        self.sides(self.second, 4, style::INSET)
    }

    // One side alone.
    #[tactic(auto, unfolding(crate::specs::Reader::style_by, style::specs::Fields::rect_in))]
    pub fn margin_top(self) -> Length
        ensures { result ≡ (style_of self.entry).margin.top }
    {
        self.length(self.first, 6, 6)
    }

    #[tactic(auto, unfolding(crate::specs::Reader::style_by, style::specs::Fields::rect_in))]
    pub fn margin_right(self) -> Length
        ensures { result ≡ (style_of self.entry).margin.right }
    {
        self.length(self.first, 7, 7)
    }

    #[tactic(auto, unfolding(crate::specs::Reader::style_by, style::specs::Fields::rect_in))]
    pub fn margin_bottom(self) -> Length
        ensures { result ≡ (style_of self.entry).margin.bottom }
    {
        self.length(self.first, 8, 8)
    }

    #[tactic(auto, unfolding(crate::specs::Reader::style_by, style::specs::Fields::rect_in))]
    pub fn margin_left(self) -> Length
        ensures { result ≡ (style_of self.entry).margin.left }
    {
        self.length(self.first, 9, 9)
    }

    #[tactic(auto, unfolding(crate::specs::Reader::style_by, style::specs::Fields::rect_in))]
    pub fn padding_right(self) -> Length
        ensures { result ≡ (style_of self.entry).padding.right }
    {
        self.length(self.first, 11, 11)
    }

    #[tactic(auto, unfolding(crate::specs::Reader::style_by, style::specs::Fields::rect_in))]
    pub fn padding_left(self) -> Length
        ensures { result ≡ (style_of self.entry).padding.left }
    {
        self.length(self.first, 13, 13)
    }

    #[tactic(auto, unfolding(crate::specs::Reader::style_by, style::specs::Fields::rect_in))]
    pub fn border_right(self) -> Length
        ensures { result ≡ (style_of self.entry).border.right }
    {
        self.length(self.second, 1, 15)
    }

    #[tactic(auto, unfolding(crate::specs::Reader::style_by, style::specs::Fields::rect_in))]
    pub fn border_left(self) -> Length
        ensures { result ≡ (style_of self.entry).border.left }
    {
        self.length(self.second, 3, 17)
    }

    #[tactic(auto, unfolding(crate::specs::Reader::style_by))]
    pub fn ratio(self) -> Option<f32>
        ensures { result ≡ (style_of self.entry).ratio }
    {
        style::ratio_from(self.number(style::RATIO))
    }

    #[tactic(auto, unfolding(crate::specs::Reader::style_by))]
    pub fn scrollbar(self) -> f32
        ensures { result ≡ (style_of self.entry).scrollbar }
    {
        self.number(style::SCROLLBAR)
    }
}
