// One line of the page file: its key and the values after it.
#![tactic(auto)]

ghost use Rattle.std.specs.Prelude.{◌≡◌};
ghost use Rattle.text.specs.Values.{hex_of, value_of};
ghost use Rattle.lines.specs.Lines.{field_of, flag_of, known_field, nodes_line, parent_line, avail_text, avail_line, known_text, known_line, flags_text, flags_line, node_text, node_line, num_text, num_line};

use geometry::Size;
use length::AvailableSpace;
use text::hex;

// The three flags of lines=.
#[derive(Clone, Copy)]
pub struct Flags {
    pub collapseStart: bool,
    pub collapseEnd: bool,
    pub definiteHeight: bool,
}

// The four words of a node.
#[derive(Clone, Copy)]
pub struct NodeWords {
    pub size: u32,
    pub style: u32,
    pub low: u32,
    pub high: u32,
}

// A field and its number.
#[derive(Clone, Copy)]
pub struct FieldNumber {
    pub field: u32,
    pub value: f32,
}

// Field k as eight hex digits.
pub fn hex_field(s: &[u8], k: usize) -> Option<u32>
    ensures { result ≡ hex_of (field_of s.now k) }
{
    hex(text::piece(s, b',', k))
}

// Field k as a decimal number up to the limit.
pub fn decimal_field(s: &[u8], k: usize, limit: u32) -> Option<u32>
    ensures { result ≡ value_of 10 limit (field_of s.now k) }
{
    text::digits(text::piece(s, b',', k), 10, limit)
}

// A known size: none, or a bit pattern.
#[tactic(auto, unfolding(crate::specs::Lines::known_field, crate::specs::Lines::known_hex))]
pub fn known_size(s: &[u8]) -> Option<Option<f32>>
    ensures { result ≡ known_field s.now }
{
    if text::is_text(s, b"none") {
        return Some(None);
    }
    Some(Some(text::float_of(hex(s)?)))
}

// Field k as a known size.
fn known_size_field(s: &[u8], k: usize) -> Option<Option<f32>>
    ensures { result ≡ known_field (field_of s.now k) }
{
    known_size(text::piece(s, b',', k))
}

// Field k as a flag: one digit, 0 or 1.
#[tactic(auto, unfolding(crate::specs::Lines::flag_of))]
fn flag_field(s: &[u8], k: usize) -> Option<u32>
    ensures { result ≡ flag_of (field_of s.now k) }
{
    let digit = text::piece(s, b',', k);
    if digit.len() != 1 {
        return None;
    }
    text::digits(digit, 10, 1)
}

// nodes=
#[tactic(auto, unfolding(crate::specs::Lines::nodes_line))]
pub fn nodes_line(s: &[u8], limit: u32) -> Option<u32>
    ensures { result ≡ nodes_line limit s.now }
{
    text::digits(text::past_key(s, b"nodes=")?, 10, limit)
}

// parent=
#[tactic(auto, unfolding(crate::specs::Lines::parent_line))]
pub fn parent_line(s: &[u8]) -> Option<f32>
    ensures { result ≡ parent_line s.now }
{
    text::number(hex(text::past_key(s, b"parent=")?))
}

// What avail= says: min, max or a bit pattern.
#[tactic(auto, unfolding(crate::specs::Lines::avail_text, crate::specs::Lines::definite_of))]
pub fn avail_text(s: &[u8]) -> Option<AvailableSpace>
    ensures { result ≡ avail_text s.now }
{
    if text::is_text(s, b"min") {
        return Some(AvailableSpace::MinContent);
    }
    if text::is_text(s, b"max") {
        return Some(AvailableSpace::MaxContent);
    }
    Some(AvailableSpace::Definite(text::float_of(hex(s)?)))
}

// avail=
#[tactic(auto, unfolding(crate::specs::Lines::avail_line))]
pub fn avail_line(s: &[u8]) -> Option<AvailableSpace>
    ensures { result ≡ avail_line s.now }
{
    avail_text(text::past_key(s, b"avail=")?)
}

// What known= says: two known sizes.
#[tactic(auto, unfolding(crate::specs::Lines::known_text, crate::specs::Lines::known_line_of))]
fn known_text(s: &[u8]) -> Option<Size<Option<f32>>>
    ensures { result ≡ known_text s.now }
{
    if text::separators(s, b',') != 1 {
        return None;
    }
    Some(Size {
        width: known_size_field(s, 0)?,
        height: known_size_field(s, 1)?,
    })
}

// known=
#[tactic(auto, unfolding(crate::specs::Lines::known_line))]
pub fn known_line(s: &[u8]) -> Option<Size<Option<f32>>>
    ensures { result ≡ known_line s.now }
{
    known_text(text::past_key(s, b"known=")?)
}

// What lines= says: three flags.
#[tactic(auto, unfolding(crate::specs::Lines::flags_text, crate::specs::Lines::flags_of))]
fn flags_text(s: &[u8]) -> Option<Flags>
    ensures { result ≡ flags_text s.now }
{
    if text::separators(s, b',') != 2 {
        return None;
    }
    Some(Flags {
        collapseStart: flag_field(s, 0)? == 1,
        collapseEnd: flag_field(s, 1)? == 1,
        definiteHeight: flag_field(s, 2)? == 1,
    })
}

// lines=
#[tactic(auto, unfolding(crate::specs::Lines::flags_line))]
pub fn flags_line(s: &[u8]) -> Option<Flags>
    ensures { result ≡ flags_line s.now }
{
    flags_text(text::past_key(s, b"lines=")?)
}

// What node= says: four words.
#[tactic(auto, unfolding(crate::specs::Lines::node_text, crate::specs::Lines::words_of, crate::specs::Lines::units_of))]
fn node_text(s: &[u8]) -> Option<NodeWords>
    ensures { result ≡ node_text s.now }
{
    if text::separators(s, b',') != 3 {
        return None;
    }
    Some(NodeWords {
        size: hex_field(s, 0)?,
        style: hex_field(s, 1)?,
        low: hex_field(s, 2)?,
        high: hex_field(s, 3)?,
    })
}

// node=
#[tactic(auto, unfolding(crate::specs::Lines::node_line))]
pub fn node_line(s: &[u8]) -> Option<NodeWords>
    ensures { result ≡ node_line s.now }
{
    node_text(text::past_key(s, b"node=")?)
}

// What num= says: a field and a bit pattern.
#[tactic(auto, unfolding(crate::specs::Lines::num_text, crate::specs::Lines::num_of))]
pub fn num_text(s: &[u8]) -> Option<FieldNumber>
    ensures { result ≡ num_text s.now }
{
    if text::separators(s, b',') != 1 {
        return None;
    }
    Some(FieldNumber {
        field: decimal_field(s, 0, 27)?,
        value: text::float_of(hex_field(s, 1)?),
    })
}

// num=
#[tactic(auto, unfolding(crate::specs::Lines::num_line))]
pub fn num_line(s: &[u8]) -> Option<FieldNumber>
    ensures { result ≡ num_line s.now }
{
    num_text(text::past_key(s, b"num=")?)
}
