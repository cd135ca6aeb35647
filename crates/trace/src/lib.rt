// The trace file: a page file, then a line that says how many events there are, then a line for each.
#![tactic(auto)]

mod asks;
mod check;
mod edits;

ghost use Rattle.std.specs.Prelude.{◌≡◌, ◌≤◌, length, drop};
ghost use Rattle.text.specs.Pieces.{bit, past};
ghost use Rattle.page.specs.File.{ReadAs};
ghost use Rattle.trace.specs.Event.{do_text, event_line};
ghost use Rattle.trace.specs.File.{starts_events, Begins, trace_of, trace_file};

use crate::asks::ask_text;
use crate::check::check_events;
use crate::edits::{number_text, word_text};
use day::Event;
use page::{Head, PageError};

// Where the line events= starts, and its number.
#[derive(Clone, Copy)]
pub struct Start {
    pub at: usize,
    pub line: usize,
}

// What follows the first comma, empty if there is none.
#[tactic(auto, using(crate::proofs::Lines::past_first))]
fn past_comma(s: &[u8]) -> &[u8]
    ensures { result.now ≡ past 44 1 s.now }
{
    &s[text::piece_start(s, b',', 1)..]
}

// What do= says.
#[tactic(auto, unfolding(crate::specs::Event::do_text))]
fn do_text(s: &[u8]) -> Option<Event>
    ensures { result ≡ do_text s.now }
{
    if text::is_text(s, b"relayout") {
        return Some(Event::Relayout);
    }
    if text::is_text(s, b"layout") {
        return Some(Event::Layout);
    }
    None
}

// One line of a trace whose page has n nodes.
#[tactic(auto, unfolding(crate::specs::Event::event_line))]
pub fn event_line(s: &[u8], n: usize) -> Option<Event>
    ensures { result ≡ event_line n s.now }
{
    if let Some(rest) = text::past_key(s, b"number=") {
        return number_text(rest, n);
    }
    if let Some(rest) = text::past_key(s, b"word=") {
        return word_text(rest, n);
    }
    if let Some(rest) = text::past_key(s, b"ask=") {
        return ask_text(rest);
    }
    do_text(text::past_key(s, b"do=")?)
}

// Does a line that starts with events= start at place i?
#[tactic(auto, using(text::specs::Laws::from_on), unfolding(crate::specs::File::starts_events))]
fn starts_events(text: &[u8], i: usize, fresh: bool) -> bool
    requires { i ≤ length text.now }
    ensures { result ≡ starts_events fresh (drop i text.now) }
{
    fresh && text::starts_with(&text[i..], b"events=")
}

fn one(b: bool) -> usize
    ensures { (result ≡ bit b) × (result ≤ 1) }
{
    if b { 1 } else { 0 }
}

// Where the events start: the page is what stands before.
pub fn events_start(text: &[u8]) -> Start
    requires { length text.now ≤ 524287 }
    ensures { Begins text.now result }
{
    let mut i = 0usize;
    let mut line = 1usize;
    let mut fresh = true;
    // Not `position`: the line's number goes along.
    while i < text.len() {
        if starts_events(text, i, fresh) {
            return Start { at: i, line };
        }
        line += one(fresh);
        fresh = text[i] == 10;
        i += 1;
    }
    Start { at: i, line }
}

// The page of a trace, if its events are good.
fn with_events(
    text: &[u8],
    whole: bool,
    s: Start,
    words: &mut [u32],
    numbers: &mut [f32],
) -> Result<Head, PageError>
    requires short { length text.now ≤ 524287 }
    requires begins { Begins text.now s }
    ensures { ReadAs (trace_of whole (length words.old) (length numbers.old) text.now) result words.new numbers.new }
{
    let at = s.at;
    let h = page::read_page(&text[..at], words, numbers)?;
    check_events(&text[at..], whole, h.count as usize, s.line)?;
    Ok(h)
}

fn read_text(
    text: &[u8],
    whole: bool,
    words: &mut [u32],
    numbers: &mut [f32],
) -> Result<Head, PageError>
    requires { length text.now ≤ 524287 }
    ensures { ReadAs (trace_of whole (length words.old) (length numbers.old) text.now) result words.new numbers.new }
{
    let s = events_start(text);
    with_events(text, whole, s, words, numbers)
}

// The page of a trace file, or the number of the first bad line of page and events. Nothing runs before.
pub fn read_trace(text: &[u8], words: &mut [u32], numbers: &mut [f32]) -> Result<Head, PageError>
    ensures { ReadAs (trace_file (length words.old) (length numbers.old) text.now) result words.new numbers.new }
{
    let end = text.len().min(524287);
    read_text(&text[..end], text.len() <= 524287, words, numbers)
}
