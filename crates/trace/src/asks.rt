// A line that edits the question: ask=, which number of it, and the number as the page file writes it.
ghost use Rattle.std.specs.Prelude.{◌≡◌};
ghost use Rattle.trace.specs.Event.{ask_by, ask_text};

use crate::past_comma;
use day::{Ask, Event};

// Number k of the question, as it is written.
#[tactic(auto, using(std::proofs::lemmas::Bool::Decides::nat_tests), unfolding(crate::specs::Event::ask_by, crate::specs::Event::width_event, crate::specs::Event::height_event, crate::specs::Event::parent_event, crate::specs::Event::available_event))]
fn ask_by(k: u32, s: &[u8]) -> Option<Event>
    ensures { result ≡ ask_by k s.now }
{
    match k {
        0 => Some(Event::Ask(Ask::Width(lines::known_size(s)?))),
        1 => Some(Event::Ask(Ask::Height(lines::known_size(s)?))),
        2 => Some(Event::Ask(Ask::Parent(text::number(text::hex(s))?))),
        _ => Some(Event::Ask(Ask::Available(lines::avail_text(s)?))),
    }
}

// What ask= says.
#[tactic(auto, unfolding(crate::specs::Event::ask_text, crate::specs::Event::ask_event))]
pub fn ask_text(s: &[u8]) -> Option<Event>
    ensures { result ≡ ask_text s.now }
{
    ask_by(lines::decimal_field(s, 0, 3)?, past_comma(s))
}
