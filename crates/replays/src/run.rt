// The events of a trace, line by line.
ghost use Rattle.std.specs.Prelude.{◌≡◌, ◌≤◌, length, drop};
ghost use Rattle.text.specs.Pieces.{lines_of};
ghost use Rattle.print.specs.Pen.{pen};
ghost use Rattle.trace.specs.Event.{event_line, event_of, events_of};
ghost use Rattle.day.specs.Day.{day};
ghost use Rattle.replays.specs.Output.{RunOf};

use crate::Ran;
use steps::{number_of, place_of};

// One line: its event is done, and its answer printed.
fn run_line(
    l: &[u8],
    n: usize,
    r: Ran,
    words: &mut [u32],
    numbers: &mut [f32],
    rows: &mut [f32],
    marks: &mut [u32],
    pairs: &mut [u32],
    triples: &mut [f32],
    list: &mut [u32],
    out: &mut [u8],
) -> Ran
    ensures { RunOf (event_of (event_line n l.now)) (day r.state words.old numbers.old rows.old marks.old pairs.old triples.old list.old) (pen out.old r.at) (day result.state words.new numbers.new rows.new marks.new pairs.new triples.new list.new) (pen out.new result.at) }
{
    match trace::event_line(l, n) {
        None => r,
        Some(e) => {
            let s = r.state;
            let t = day::step(e, s, words, numbers, rows, marks, pairs, triples, list);
            let answer = t.answer;
            let state = t.state;
            let at = print::put_answer(out, r.at, number_of(answer), place_of(answer));
            Ran { state, at }
        }
    }
}

// All lines from `from` on.
pub fn run(
    text: &[u8],
    from: usize,
    n: usize,
    start: Ran,
    words: &mut [u32],
    numbers: &mut [f32],
    rows: &mut [f32],
    marks: &mut [u32],
    pairs: &mut [u32],
    triples: &mut [f32],
    list: &mut [u32],
    out: &mut [u8],
) -> Ran
    requires { length text.now ≤ 524287 }
    ensures { RunOf (events_of n (lines_of (drop from text.now))) (day start.state words.old numbers.old rows.old marks.old pairs.old triples.old list.old) (pen out.old start.at) (day result.state words.new numbers.new rows.new marks.new pairs.new triples.new list.new) (pen out.new result.at) }
{
    let mut i = from;
    let mut r = start;
    // No `for` over `split`: it has a piece behind the last newline, and that is no line.
    while i < text.len() {
        let e = text::piece_end(text, b'\n', i);
        r = run_line(
            &text[i..e],
            n,
            r,
            words,
            numbers,
            rows,
            marks,
            pairs,
            triples,
            list,
            out,
        );
        i = e + 1;
    }
    r
}
