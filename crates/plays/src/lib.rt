// Events of two panels out of words, one after the other, each with its answer on a line.
#![tactic(auto)]

mod events;

use day::{Event, State};
use events::event_of;
pub use events::start_of;
use reading::{split, word_at};
use std::io::{Stdout, Write};
use steps::{Refusal, number_of, place_of};

// How a panel stands, and what it is lent.
#[derive(Drop)]
pub struct Panel<'a> {
    pub state: State,
    pub rows: &'a mut [f32],
    pub marks: &'a mut [u32],
    pub pairs: &'a mut [u32],
    pub triples: &'a mut [f32],
    pub list: &'a mut [u32],
}

// The number of an answer and its place, on a line.
fn show(mut to: Stdout, a: Result<u32, Refusal>) {
    let _ = writeln!(to, "{} {}", number_of(a), place_of(a));
}

// An event of one panel, and its answer.
fn turn(
    to: Stdout,
    event: Event,
    words: &mut [u32],
    numbers: &mut [f32],
    panel: &mut Panel,
    other: &mut Panel,
) {
    let t = panels::step(
        event,
        panel.state,
        other.state.count,
        words,
        numbers,
        panel.rows,
        panel.marks,
        panel.pairs,
        panel.triples,
        panel.list,
        other.list,
    );
    show(to, t.answer);
    panel.state = t.state;
    other.state.count = t.other;
}

// So many events of five words, each of the panel that its second word names; what stands behind them.
pub fn play<'a>(
    to: Stdout,
    events: &'a [u32],
    count: usize,
    words: &mut [u32],
    numbers: &mut [f32],
    hall: &mut Panel,
    kitchen: &mut Panel,
) -> &'a [u32] {
    let mut rest = events;
    for _ in 0..count {
        let (event, behind) = split(rest, 5);
        if word_at(event, 1) == 0 {
            turn(to, event_of(event), words, numbers, hall, kitchen);
        } else {
            turn(to, event_of(event), words, numbers, kitchen, hall);
        }
        rest = behind;
    }
    rest
}
