// Questions and events out of words.
ghost use Rattle.std.specs.Prelude.{◌≡◌};

use day::{Ask, Event, State};
use geometry::Size;
use length::AvailableSpace;
use reading::word_at;
use sheet::{NodeNumber, NodeWord};
use steps::Question;
use tree::NodeId;

// A number that is there if the flag is not 0.
fn known(flag: u32, bits: u32) -> Option<f32> {
    if flag == 0 {
        return None;
    }
    Some(text::float_of(bits))
}

// 0: definite, 1: min-content, else max-content.
fn available(kind: u32, bits: u32) -> AvailableSpace {
    match kind {
        0 => AvailableSpace::Definite(text::float_of(bits)),
        1 => AvailableSpace::MinContent,
        _ => AvailableSpace::MaxContent,
    }
}

// A panel at the start of its day: ten words for its question, an empty list.
pub fn start_of(words: &[u32]) -> State
    ensures { result.count ≡ 0 }
{
    let width = known(word_at(words, 0), word_at(words, 1));
    let height = known(word_at(words, 2), word_at(words, 3));
    let question = Question {
        known: Size { width, height },
        parent: text::float_of(word_at(words, 4)),
        definiteHeight: word_at(words, 9) != 0,
        available: available(word_at(words, 5), word_at(words, 6)),
        collapseStart: word_at(words, 7) != 0,
        collapseEnd: word_at(words, 8) != 0,
    };
    State { question, count: 0 }
}

// Number k of the question: width, height, parent, available.
fn ask(k: u32, kind: u32, bits: u32) -> Ask {
    match k {
        0 => Ask::Width(known(kind, bits)),
        1 => Ask::Height(known(kind, bits)),
        2 => Ask::Parent(text::float_of(bits)),
        _ => Ask::Available(available(kind, bits)),
    }
}

// An event of five words: its kind, its panel, three more. 0: a number, 1: a word, 2: the question, 3: a relayout, else a layout.
pub fn event_of(words: &[u32]) -> Event {
    let a = word_at(words, 2);
    let b = word_at(words, 3);
    let c = word_at(words, 4);
    match word_at(words, 0) {
        0 => Event::Number(NodeNumber {
            node: NodeId(a),
            field: b,
            value: text::float_of(c),
        }),
        1 => Event::Word(NodeWord {
            node: NodeId(a),
            word: b,
            bits: c,
        }),
        2 => Event::Ask(ask(a, b, c)),
        3 => Event::Relayout,
        _ => Event::Layout,
    }
}
