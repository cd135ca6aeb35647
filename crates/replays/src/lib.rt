// A trace file in, the answer of each event and the last rows as text out.
#![tactic(auto)]

mod run;

ghost use Rattle.std.specs.Prelude.{◌≡◌, ◌*◌, ◌≤◌, length, drop};
ghost use Rattle.text.specs.Pieces.{lines_of};
ghost use Rattle.print.specs.Pen.{pen, put_all};
ghost use Rattle.trace.specs.Event.{events_of};
ghost use Rattle.trace.specs.File.{event_part, trace_events};
ghost use Rattle.day.specs.Day.{day};
ghost use Rattle.pages.specs.Output.{Shown};
ghost use Rattle.replays.specs.Output.{day_text, start_of, Fits, Lent, replay_text};

use crate::run::run;
use day::State;
use page::Head;
use rowtext::put_rows;
use steps::Question;

// How many numbers a node has.
const FIELDS: usize = 28;

// The state, and where the next byte of the output goes.
#[derive(Clone, Copy)]
pub struct Ran {
    pub state: State,
    pub at: usize,
}

// A day in tables that are cut to size: the answers, and the rows at its end. `lines` starts with the line events=.
fn replay_cut(
    lines: &[u8],
    question: Question,
    n: usize,
    words: &mut [u32],
    numbers: &mut [f32],
    rows: &mut [f32],
    marks: &mut [u32],
    pairs: &mut [u32],
    triples: &mut [f32],
    list: &mut [u32],
    out: &mut [u8],
) -> usize
    requires few { n ≤ 512 }
    requires short { length lines.now ≤ 524287 }
    ensures { pen out.new result ≡ put_all (day_text n (events_of n (drop 1 (lines_of lines.now))) (day (record { question = question; count = 0 }) words.old numbers.old rows.old marks.old pairs.old triples.old list.old)) (pen out.old 0) }
{
    let e = text::piece_end(lines, b'\n', 0);
    let state = State { question, count: 0 };
    let r = run(
        lines,
        e + 1,
        n,
        Ran { state, at: 0 },
        words,
        numbers,
        rows,
        marks,
        pairs,
        triples,
        list,
        out,
    );
    put_rows(out, r.at, n, rows, marks)
}

// Cuts zeroed memory for 512 nodes to the size of the page.
fn replay_in(
    lines: &[u8],
    h: Head,
    words: &mut [u32],
    numbers: &mut [f32],
    rows: &mut [f32],
    marks: &mut [u32],
    pairs: &mut [u32],
    triples: &mut [f32],
    list: &mut [u32],
    out: &mut [u8],
) -> usize
    requires short { length lines.now ≤ 524287 }
    requires fits { Fits h.count words.old numbers.old }
    requires lent { Lent rows.old marks.old pairs.old triples.old list.old }
    ensures { pen out.new result ≡ put_all (day_text h.count (events_of h.count (drop 1 (lines_of lines.now))) (start_of h words.old numbers.old)) (pen out.old 0) }
{
    let n = h.count as usize;
    let q = h.question;
    replay_cut(
        lines,
        q,
        n,
        &mut words[..4 * n],
        &mut numbers[..FIELDS * n],
        &mut rows[..16 * n],
        &mut marks[..2 * n],
        &mut pairs[..2 * n],
        &mut triples[..3 * n],
        list,
        out,
    )
}

// Zero rows, an empty list, and a record for each node.
fn replay_lines(
    lines: &[u8],
    h: Head,
    words: &mut [u32],
    numbers: &mut [f32],
    out: &mut [u8],
) -> usize
    requires short { length lines.now ≤ 524287 }
    requires fits { Fits h.count words.old numbers.old }
    ensures { pen out.new result ≡ put_all (day_text h.count (events_of h.count (drop 1 (lines_of lines.now))) (start_of h words.old numbers.old)) (pen out.old 0) }
{
    let mut rows = [0.0f32; 8192];
    let mut marks = [0u32; 1024];
    let mut pairs = [0u32; 1024];
    let mut triples = [0.0f32; 1536];
    let mut list = [0u32; 4096];
    replay_in(
        lines,
        h,
        words,
        numbers,
        &mut rows,
        &mut marks,
        &mut pairs,
        &mut triples,
        &mut list,
        out,
    )
}

// The events of a trace that was read.
fn replay_text(
    text: &[u8],
    h: Head,
    words: &mut [u32],
    numbers: &mut [f32],
    out: &mut [u8],
) -> usize
    requires short { length text.now ≤ 524287 }
    requires fits { Fits h.count words.old numbers.old }
    ensures { pen out.new result ≡ put_all (day_text h.count (events_of h.count (drop 1 (event_part text.now))) (start_of h words.old numbers.old)) (pen out.old 0) }
{
    let s = trace::events_start(text);
    let at = s.at;
    replay_lines(&text[at..], h, words, numbers, out)
}

// The same of the part of the file that is read.
fn replay_part(
    text: &[u8],
    h: Head,
    words: &mut [u32],
    numbers: &mut [f32],
    out: &mut [u8],
) -> usize
    requires { Fits h.count words.old numbers.old }
    ensures { pen out.new result ≡ put_all (day_text h.count (trace_events h.count text.now) (start_of h words.old numbers.old)) (pen out.old 0) }
{
    let end = text.len().min(524287);
    replay_text(&text[..end], h, words, numbers, out)
}

// Writes what a trace file gives to the front of `out`, and says how many bytes it is.
pub fn replay_output(text: &[u8], out: &mut [u8]) -> usize
    ensures { Shown (replay_text text.now) out.old out.new result }
{
    let mut words = [0u32; 2048];
    let mut numbers = [0.0f32; 16384];
    match trace::read_trace(text, &mut words, &mut numbers) {
        Err(bad) => pages::print_error(out, bad),
        Ok(h) => replay_part(text, h, &mut words, &mut numbers, out),
    }
}
