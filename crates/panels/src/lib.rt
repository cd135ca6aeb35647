// Two panels over one node table: an event of one of them. The other lends its list and nothing else.
#![tactic(auto)]

ghost use Rattle.std.specs.Prelude.{◌≡◌};
ghost use Rattle.sheet.specs.Sheet.{sheet, number_edit, word_edit};
ghost use Rattle.day.specs.Day.{day};
ghost use Rattle.panels.specs.Panels.{listed, seen, panel_result, PanelReplied};

use day::{Event, State};
use sheet::{NodeNumber, NodeWord};
use steps::Refusal;

// What an event answers, the state of its panel after it, and how many edits the other's list holds.
#[derive(Clone, Copy)]
pub struct PanelTurn {
    pub answer: Result<u32, Refusal>,
    pub state: State,
    pub other: usize,
}

// The node of an edit of a number, if there is such a number.
fn note_number(
    x: NodeNumber,
    count: usize,
    words: &[u32],
    numbers: &[f32],
    list: &mut [u32],
) -> usize
    ensures { (list.new, result) ≡ listed (number_edit x (sheet words.now numbers.now list.old count)) }
{
    let n = words.len() / style::WORDS;
    let id = x.node;
    let node = id.0 as usize;
    let field = x.field as usize;
    if n <= node {
        return count;
    }
    if numbers.len() / n <= field {
        return count;
    }
    sheet::note(id, count, list)
}

// The node of an edit of a word, if there is such a word.
fn note_word(x: NodeWord, count: usize, words: &[u32], numbers: &[f32], list: &mut [u32]) -> usize
    ensures { (list.new, result) ≡ listed (word_edit x (sheet words.now numbers.now list.old count)) }
{
    let n = words.len() / style::WORDS;
    let id = x.node;
    let node = id.0 as usize;
    let word = x.word as usize;
    if n <= node {
        return count;
    }
    if word == 0 {
        return count;
    }
    if 3 < word {
        return count;
    }
    sheet::note(id, count, list)
}

// What the other panel sees of an event: the node of an edit, in its list.
fn note_other(e: Event, count: usize, words: &[u32], numbers: &[f32], list: &mut [u32]) -> usize
    ensures { (list.new, result) ≡ listed (seen e (sheet words.now numbers.now list.old count)) }
{
    match e {
        Event::Number(x) => note_number(x, count, words, numbers, list),
        Event::Word(x) => note_word(x, count, words, numbers, list),
        Event::Ask(_) => count,
        Event::Relayout => count,
        Event::Layout => count,
    }
}

// One event of a panel. Its page, its rows and its list end as the event leaves them; the other's list takes an edit of the table.
pub fn step(
    e: Event,
    s: State,
    other: usize,
    words: &mut [u32],
    numbers: &mut [f32],
    rows: &mut [f32],
    marks: &mut [u32],
    pairs: &mut [u32],
    triples: &mut [f32],
    list: &mut [u32],
    others: &mut [u32],
) -> PanelTurn
    ensures { PanelReplied (panel_result e (day s words.old numbers.old rows.old marks.old pairs.old triples.old list.old) (sheet words.old numbers.old others.old other)) result words.new numbers.new rows.new marks.new pairs.new triples.new list.new others.new }
{
    let count = note_other(e, other, words, numbers, others);
    let t = day::step(e, s, words, numbers, rows, marks, pairs, triples, list);
    let answer = t.answer;
    let state = t.state;
    PanelTurn {
        answer,
        state,
        other: count,
    }
}
