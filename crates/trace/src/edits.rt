// Lines that edit a node: number= and word=.
ghost use Rattle.std.specs.Prelude.{◌≡◌};
ghost use Rattle.trace.specs.Event.{number_text, word_text};

use crate::past_comma;
use day::Event;
use sheet::{NodeNumber, NodeWord};
use tree::NodeId;

// What number= says: one of n nodes, then a field and a bit pattern as num= has them.
#[tactic(auto, using(std::proofs::lemmas::Bool::Decides::nat_tests), unfolding(crate::specs::Event::number_text, crate::specs::Event::number_event))]
pub fn number_text(s: &[u8], n: usize) -> Option<Event>
    ensures { result ≡ number_text n s.now }
{
    let node = lines::decimal_field(s, 0, 0xffff_ffff)?;
    let x = lines::num_text(past_comma(s))?;
    if n <= node as usize {
        return None;
    }
    Some(Event::Number(NodeNumber {
        node: NodeId(node),
        field: x.field,
        value: x.value,
    }))
}

// What word= says: one of n nodes, a word from 1 to 3, a bit pattern.
#[tactic(auto, using(std::proofs::lemmas::Bool::Decides::nat_tests), unfolding(crate::specs::Event::word_text, crate::specs::Event::word_event))]
pub fn word_text(s: &[u8], n: usize) -> Option<Event>
    ensures { result ≡ word_text n s.now }
{
    if text::separators(s, b',') != 2 {
        return None;
    }
    let node = lines::decimal_field(s, 0, 0xffff_ffff)?;
    let word = lines::decimal_field(s, 1, 3)?;
    let bits = lines::hex_field(s, 2)?;
    if n <= node as usize || word == 0 {
        return None;
    }
    Some(Event::Word(NodeWord {
        node: NodeId(node),
        word,
        bits,
    }))
}
