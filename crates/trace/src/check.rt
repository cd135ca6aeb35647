// The lines from events= on: is each an event, and are there as many as it says?
ghost use Rattle.std.specs.Prelude.{◌≡◌, ◌≤◌, length, drop, MatchResult};
ghost use Rattle.page.specs.declared.PageError.TheVariants.{BadLine};
ghost use Rattle.text.specs.Pieces.{lines_of};
ghost use Rattle.trace.specs.Event.{is_event, event_line};
ghost use Rattle.trace.specs.File.{events_line, bad_event, bad_in};

use crate::event_line;
use page::PageError;

#[tactic(auto, using(crate::proofs::Lines::some_event))]
fn is_event(s: &[u8], n: usize) -> bool
    ensures { result ≡ is_event (event_line n s.now) }
{
    event_line(s, n).is_some()
}

// The number of the first line that is no event, missing or too many, if there is one.
fn check_lines(
    text: &[u8],
    from: usize,
    whole: bool,
    n: usize,
    count: usize,
    first: usize,
) -> Result<(), PageError>
    requires short { length text.now ≤ 524287 }
    requires low { first ≤ 1048576 }
    ensures { let bad = bad_event whole n count first (lines_of (drop from text.now)) in
        MatchResult result (λ _. bad ≡ 0) (λ e. (e ≡ BadLine bad) × (first ≤ bad)) }
{
    let mut at = from;
    let mut line = first;
    let mut left = count;
    // No `for` over `split`: it has a piece behind the last newline, and that is no line.
    while at < text.len() {
        let e = text::piece_end(text, b'\n', at);
        if left == 0 || !is_event(&text[at..e], n) {
            return Err(PageError::BadLine(line));
        }
        at = e + 1;
        line += 1;
        left -= 1;
    }
    if whole && left == 0 {
        return Ok(());
    }
    Err(PageError::BadLine(line))
}

// How many events there are.
#[tactic(auto, unfolding(crate::specs::File::events_line))]
fn events_line(s: &[u8]) -> Option<u32>
    ensures { result ≡ events_line s.now }
{
    text::digits(text::past_key(s, b"events=")?, 10, 4096)
}

// The number of the first bad line, if there is one; the first line has the number `line`.
pub fn check_events(text: &[u8], whole: bool, n: usize, line: usize) -> Result<(), PageError>
    requires short { length text.now ≤ 524287 }
    requires low { line ≤ 524288 }
    ensures { let bad = bad_in whole n line (lines_of text.now) in
        MatchResult result (λ _. bad ≡ 0) (λ e. (e ≡ BadLine bad) × (line ≤ bad)) }
{
    let e = text::piece_end(text, b'\n', 0);
    match events_line(&text[..e]) {
        None => Err(PageError::BadLine(line)),
        Some(count) => check_lines(text, e + 1, whole, n, count as usize, line + 1),
    }
}
