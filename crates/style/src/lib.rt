// A node's style out of its words and numbers (the crate's src/style/*.rs).
#![tactic(auto)]

mod decode;

ghost use Rattle.std.specs.Prelude.{◌≡◌, ◌+◌, ◌*◌, ◌^◌, ◌<◌, ◌≤◌, length};
ghost use Rattle.style.specs.Codes.{code_at, flag_at, clear_from, kind_of, position_of, overflow_of, distribution_at, align_of, distributed, align_at, overflow_xy, unit_of, length_of, ratio_of, baseline_of};
ghost use Rattle.style.specs.Flow.{flow_by, flow_at, is_leaf};
ghost use Rattle.style.specs.Style.{word_at, plane_of, number_place, number_at, length_at, measure_at};

use crate::decode::distributed;
use geometry::{Point, Rect, Size};
use length::Length;

// The lent tables: how many words, numbers, row numbers and marks a node has.
pub const WORDS: usize = 4;

pub const NUMBERS: usize = 28;

pub const ROW: usize = 16;

pub const MARKS: usize = 2;

// Words of a node.
pub const SIZE: usize = 0;

pub const STYLE: usize = 1;

pub const UNITS: usize = 2;

pub const MORE_UNITS: usize = 3;

// Codes of the style word: two bits at twice the place.
pub const KIND: u32 = 0;

pub const POSITION: u32 = 2;

pub const OVERFLOW_X: u32 = 3;

pub const OVERFLOW_Y: u32 = 4;

pub const ALIGN: u32 = 5;

// Bits of the style word. From UNUSED on none is set.
pub const CONTENT_BOX: u32 = 2;

pub const RTL: u32 = 3;

pub const CONTAINED: u32 = 12;

pub const DISTRIBUTION: u32 = 13;

pub const BASELINE: u32 = 16;

pub const SAFE: u32 = 17;

pub const UNUSED: u32 = 18;

// Bits of the two unit words that are in use: 14 units and 8.
pub const UNIT_BITS: u32 = 28;

pub const MORE_UNIT_BITS: u32 = 16;

// Numbers of a node: 22 lengths, of which the first 14 have their units in the first unit word, and six others.
pub const MARGIN: usize = 6;

pub const PADDING: usize = 10;

pub const BORDER: usize = 14;

pub const INSET: usize = 18;

pub const LENGTHS: usize = 22;

pub const RATIO: usize = 22;

pub const SCROLLBAR: usize = 23;

pub const LEAST: usize = 24;

pub const MOST: usize = 25;

pub const HEIGHT: usize = 26;

pub const FIRST_BASELINE: usize = 27;

#[derive(Clone, Copy)]
pub enum Kind {
    Block,
    Leaf,
    Hidden,
}

#[derive(Clone, Copy)]
pub enum Position {
    Static,
    Relative,
    Absolute,
}

// How a node takes part: not at all, as a candidate, in the stack.
#[derive(Clone, Copy)]
pub enum Flow {
    Gone,
    Out,
    In,
}

#[derive(Clone, Copy)]
pub enum Overflow {
    Visible,
    Clip,
    Hidden,
    Scroll,
}

#[derive(Clone, Copy)]
pub enum AlignContent {
    Normal,
    Start,
    Center,
    End,
    SpaceBetween,
    SpaceAround,
    SpaceEvenly,
    Stretch,
}

// A leaf's table: its widths under min-content and max-content, its height, and the first baseline that it shows.
#[derive(Clone, Copy)]
pub struct Measure {
    pub least: f32,
    pub most: f32,
    pub height: f32,
    pub baseline: Option<f32>,
}

// The whole of it. No code builds one: each step reads the part that it asks for, and the definitions speak of the whole.
#[derive(Clone, Copy)]
pub struct Style {
    pub kind: Kind,
    pub content: bool,
    pub rtl: bool,
    pub position: Position,
    pub overflow: Point<Overflow>,
    pub align: AlignContent,
    pub safe: bool,
    pub contained: bool,
    pub size: Size<Length>,
    pub min: Size<Length>,
    pub max: Size<Length>,
    pub margin: Rect<Length>,
    pub padding: Rect<Length>,
    pub border: Rect<Length>,
    pub inset: Rect<Length>,
    pub ratio: Option<f32>,
    pub scrollbar: f32,
    pub measure: Measure,
}

// The two bits at 2f.
pub fn code(w: u32, f: u32) -> u32
    requires { f ≤ 15 }
    ensures { result ≡ code_at w f }
{
    (w >> (2 * f)) & 3
}

pub fn flag(w: u32, k: u32) -> bool
    requires { k < 32 }
    ensures { result ≡ flag_at w k }
{
    ((w >> k) & 1) == 1
}

// The three bits at 13.
pub fn distribution(w: u32) -> u32
    ensures { result ≡ distribution_at w }
{
    (w >> DISTRIBUTION) & 7
}

// No bit from k on is set.
pub fn clear_from(w: u32, k: u32) -> bool
    requires { k < 32 }
    ensures { result ≡ clear_from w k }
{
    w >> k == 0
}

pub fn length_from(k: u32, x: f32) -> Length
    ensures { result ≡ length_of k x }
{
    match k {
        0 => Length::Auto,
        1 => Length::Pixels(x),
        2 => Length::Fraction(x),
        _ => Length::Auto,
    }
}

pub fn ratio_from(x: f32) -> Option<f32>
    ensures { result ≡ ratio_of x }
{
    if x == 0.0 { None } else { Some(x) }
}

// The unit of field f, of the two unit words.
pub fn unit(u: u32, v: u32, f: u32) -> u32
    requires { f < 22 }
    ensures { result ≡ unit_of u v f }
{
    if f < 14 { code(u, f) } else { code(v, f - 14) }
}

// Word k of node i, one of these words.
pub fn word_in(words: &[u32], i: usize, k: usize) -> u32
    requires { i * 4 + k < length words.now }
    ensures { result ≡ word_at words.now i k }
{
    words[i * WORDS + k]
}

// Word k of node i, and 0 past the end.
pub fn word(words: &[u32], i: usize, k: usize) -> u32
    requires { k < 4 }
    ensures { result ≡ word_at words.now i k }
{
    if i <= words.len() / WORDS {
        let at = i * WORDS + k;
        if at < words.len() {
            return words[at];
        }
    }
    0
}

// Where number f of node i stands, in planes of n. Nothing else knows the order.
pub fn number_place(n: usize, i: usize, f: usize) -> usize
    requires { number_place n i f < 2 ^ 64 }
    ensures { result ≡ number_place n i f }
{
    f * n + i
}

// Number f of node i, one of these nodes, in planes of n.
pub fn number_in(numbers: &[f32], n: usize, i: usize, f: usize) -> f32
    requires { ((n ≡ plane_of numbers.now) × (i < n)) × (f < 28) }
    ensures { result ≡ number_at numbers.now i f }
{
    let at = number_place(n, i, f);
    numbers[at]
}

// The same of any node, and 0 past the last.
pub fn number(numbers: &[f32], i: usize, f: usize) -> f32
    requires { f < 28 }
    ensures { result ≡ number_at numbers.now i f }
{
    let n = numbers.len() / NUMBERS;
    if i < n {
        return number_in(numbers, n, i, f);
    }
    0.0
}

// Field f of the node at i of the words and at j of the numbers.
pub fn length_at(words: &[u32], i: usize, numbers: &[f32], j: usize, f: usize) -> Length
    requires { f < 22 }
    ensures { result ≡ length_at words.now i numbers.now j f }
{
    let u = word(words, i, UNITS);
    let v = word(words, i, MORE_UNITS);
    length_from(unit(u, v, f as u32), number(numbers, j, f))
}

pub fn kind_of(w: u32) -> Kind
    ensures { result ≡ kind_of (code_at w 0) }
{
    Kind::from(code(w, KIND))
}

pub fn position_of(w: u32) -> Position
    ensures { result ≡ position_of (code_at w 2) }
{
    Position::from(code(w, POSITION))
}

#[tactic(auto, unfolding(crate::specs::Codes::align_at))]
pub fn align_of(w: u32) -> AlignContent
    ensures { result ≡ align_at w }
{
    distributed(distribution(w), AlignContent::from(code(w, ALIGN)))
}

#[tactic(auto, unfolding(crate::specs::Codes::overflow_xy))]
pub fn overflow_of(w: u32) -> Point<Overflow>
    ensures { result ≡ overflow_xy w }
{
    Point {
        x: Overflow::from(code(w, OVERFLOW_X)),
        y: Overflow::from(code(w, OVERFLOW_Y)),
    }
}

// What a leaf shows as its baseline: number 27, unless it has none or is contained.
fn baseline_of(w: u32, x: f32) -> Option<f32>
    ensures { result ≡ baseline_of w x }
{
    if flag(w, BASELINE) {
        if !flag(w, CONTAINED) {
            return Some(x);
        }
    }
    None
}

// A leaf's table: of the node at i of the words and at j of the numbers.
pub fn measure_at(words: &[u32], i: usize, numbers: &[f32], j: usize) -> Measure
    ensures { result ≡ measure_at words.now i numbers.now j }
{
    let w = word(words, i, STYLE);
    Measure {
        least: number(numbers, j, LEAST),
        most: number(numbers, j, MOST),
        height: number(numbers, j, HEIGHT),
        baseline: baseline_of(w, number(numbers, j, FIRST_BASELINE)),
    }
}

#[tactic(auto, unfolding(crate::specs::Flow::flow_by))]
fn flow_by(k: Kind, p: Position) -> Flow
    ensures { result ≡ flow_by k p }
{
    match k {
        Kind::Block | Kind::Leaf => Flow::from(p),
        Kind::Hidden => Flow::Gone,
    }
}

// How a node takes part, by its style word alone.
pub fn flow_at(w: u32) -> Flow
    ensures { result ≡ flow_at w }
{
    flow_by(kind_of(w), position_of(w))
}

#[tactic(auto, unfolding(crate::specs::Flow::is_leaf))]
pub fn is_leaf(k: Kind) -> bool
    ensures { result ≡ is_leaf k }
{
    matches!(k, Kind::Leaf)
}
