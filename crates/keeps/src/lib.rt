// Whether the rows of a page keep their order: a yes or no by its tables alone.
#![tactic(auto)]

ghost use Rattle.std.specs.Prelude.{◌≡◌, ◌<◌};
ghost use Rattle.style.specs.Style.{rect_at, style_at};
ghost use Rattle.order.specs.Class.{fair, whole, still, unshifted, fair_down, whole_down, steady, keeps_order};

use length::Length;
use style::{AlignContent, Position, align_of, length_at, position_of, word};

// A margin that is auto, or pixels not below 0.
fn fair(l: Length) -> bool
    ensures { result ≡ fair l }
{
    match l {
        Length::Auto => true,
        Length::Pixels(x) => !(x < 0.0),
        Length::Fraction(_) => false,
    }
}

// A padding or a border that is auto or pixels.
#[tactic(auto, unfolding(order::specs::Class::whole))]
fn whole(l: Length) -> bool
    ensures { result ≡ whole l }
{
    matches!(l, Length::Auto | Length::Pixels(_))
}

// Not relative.
#[tactic(auto, unfolding(order::specs::Class::still))]
fn still(p: Position) -> bool
    ensures { result ≡ still p }
{
    matches!(p, Position::Static | Position::Absolute)
}

// Normal and start, and the words that act as start.
#[tactic(auto, unfolding(order::specs::Class::unshifted))]
fn unshifted(a: AlignContent) -> bool
    ensures { result ≡ unshifted a }
{
    matches!(
        a,
        AlignContent::Normal
            | AlignContent::Start
            | AlignContent::SpaceBetween
            | AlignContent::Stretch
    )
}

// Of the top and of the bottom of node i; the four fields of its margin begin with f.
fn fair_down(words: &[u32], numbers: &[f32], i: usize, f: usize) -> bool
    requires { f < 20 }
    ensures { result ≡ fair_down (rect_at words.now i numbers.now i f) }
{
    fair(length_at(words, i, numbers, i, f)) && fair(length_at(words, i, numbers, i, f + 2))
}

// Of its padding or its border likewise.
fn whole_down(words: &[u32], numbers: &[f32], i: usize, f: usize) -> bool
    requires { f < 20 }
    ensures { result ≡ whole_down (rect_at words.now i numbers.now i f) }
{
    whole(length_at(words, i, numbers, i, f)) && whole(length_at(words, i, numbers, i, f + 2))
}

// All of it, of node i. What is not lent reads as 0: a reader asks for a node whose numbers are there.
fn steady(words: &[u32], numbers: &[f32], i: usize) -> bool
    ensures { result ≡ steady (style_at words.now i numbers.now i) }
{
    let w = word(words, i, style::STYLE);
    fair_down(words, numbers, i, style::MARGIN)
        && (whole_down(words, numbers, i, style::PADDING)
            && (whole_down(words, numbers, i, style::BORDER)
                && (still(position_of(w)) && unshifted(align_of(w)))))
}

// Of every node. Tables that a layout refuses have an answer too: a read past their end gives 0.
pub fn keeps_order(words: &[u32], numbers: &[f32]) -> bool
    ensures { result ≡ keeps_order words.now numbers.now }
{
    let n = words.len() / style::WORDS;
    for i in 0..n {
        if !steady(words, numbers, i) {
            return false;
        }
    }
    true
}
