// What a display did in a day, one event at a time: an edit of its page or of its question, a relayout, a layout.
#![tactic(auto)]

ghost use Rattle.std.specs.Prelude.{◌≡◌, List, ℕ};
ghost use Rattle.day.specs.Day.{with_numbers, asked, count_after, done_turn, day, left, layout_event, relayout_event, event_result, EventReplied};

use geometry::Size;
use length::AvailableSpace;
use lent::smaller;
use sheet::{NodeNumber, NodeWord, edit_number, edit_word};
use steps::{Question, Refusal};

// A number of the question.
#[derive(Clone, Copy)]
pub enum Ask {
    Width(Option<f32>),
    Height(Option<f32>),
    Parent(f32),
    Available(AvailableSpace),
}

#[derive(Clone, Copy)]
pub enum Event {
    Number(NodeNumber),
    Word(NodeWord),
    Ask(Ask),
    Relayout,
    Layout,
}

// The question, and how many edits the list holds.
#[derive(Clone, Copy)]
pub struct State {
    pub question: Question,
    pub count: usize,
}

// What an event answers, and the state after it.
#[derive(Clone, Copy)]
pub struct Turn {
    pub answer: Result<u32, Refusal>,
    pub state: State,
}

// The question with other numbers. The three flags are no numbers.
fn with(q: Question, known: Size<Option<f32>>, parent: f32, available: AvailableSpace) -> Question
    ensures { result ≡ with_numbers q known parent available }
{
    Question {
        known,
        parent,
        definiteHeight: q.definiteHeight,
        available,
        collapseStart: q.collapseStart,
        collapseEnd: q.collapseEnd,
    }
}

// One number of the question anew.
fn ask_anew(a: Ask, q: Question) -> Question
    ensures { result ≡ asked a q }
{
    let known = q.known;
    let available = q.available;
    match a {
        Ask::Width(width) => {
            let height = known.height;
            with(q, Size { width, height }, q.parent, available)
        }
        Ask::Height(height) => {
            let width = known.width;
            with(q, Size { width, height }, q.parent, available)
        }
        Ask::Parent(parent) => with(q, known, parent, available),
        Ask::Available(available) => with(q, known, q.parent, available),
    }
}

// An accepted call empties the list, a refused one leaves it.
#[tactic(auto, unfolding(crate::specs::Day::count_after))]
fn count_after(answer: Result<u32, Refusal>, count: usize) -> usize
    ensures { result ≡ count_after answer count }
{
    match answer {
        Ok(_) => 0,
        Err(_) => count,
    }
}

// An edit answers 0.
fn done(question: Question, count: usize) -> Turn
    ensures { result ≡ done_turn question count }
{
    let state = State { question, count };
    Turn {
        answer: Ok(0),
        state,
    }
}

// A layout.
fn lay(
    s: State,
    words: &[u32],
    numbers: &[f32],
    rows: &mut [f32],
    marks: &mut [u32],
    pairs: &mut [u32],
    triples: &mut [f32],
) -> Turn
    ensures { (l : List ℕ) → left result words.now numbers.now rows.new marks.new pairs.new triples.new l ≡ layout_event (day s words.now numbers.now rows.old marks.old pairs.old triples.old l) }
{
    let question = s.question;
    let answer = layout::layout(words, numbers, rows, marks, pairs, triples, question);
    let count = count_after(answer, s.count);
    let state = State { question, count };
    Turn { answer, state }
}

// A relayout, with the list as it stands.
fn relay(
    s: State,
    words: &[u32],
    numbers: &[f32],
    rows: &mut [f32],
    marks: &mut [u32],
    pairs: &mut [u32],
    triples: &mut [f32],
    list: &[u32],
) -> Turn
    ensures { left result words.now numbers.now rows.new marks.new pairs.new triples.new list.now ≡ relayout_event (day s words.now numbers.now rows.old marks.old pairs.old triples.old list.now) }
{
    let question = s.question;
    let k = smaller(s.count, list.len());
    let answer = layout::relayout(
        words,
        numbers,
        rows,
        marks,
        pairs,
        triples,
        &list[..k],
        question,
    );
    let count = count_after(answer, s.count);
    let state = State { question, count };
    Turn { answer, state }
}

// One event. The page, its rows and its list end as it leaves them.
pub fn step(
    e: Event,
    s: State,
    words: &mut [u32],
    numbers: &mut [f32],
    rows: &mut [f32],
    marks: &mut [u32],
    pairs: &mut [u32],
    triples: &mut [f32],
    list: &mut [u32],
) -> Turn
    ensures { EventReplied (event_result e (day s words.old numbers.old rows.old marks.old pairs.old triples.old list.old)) result words.new numbers.new rows.new marks.new pairs.new triples.new list.new }
{
    let question = s.question;
    match e {
        Event::Number(x) => {
            let count = edit_number(x, s.count, words, numbers, list);
            done(question, count)
        }
        Event::Word(x) => {
            let count = edit_word(x, s.count, words, list);
            done(question, count)
        }
        Event::Ask(a) => done(ask_anew(a, question), s.count),
        Event::Relayout => relay(s, words, numbers, rows, marks, pairs, triples, list),
        Event::Layout => lay(s, words, numbers, rows, marks, pairs, triples),
    }
}
