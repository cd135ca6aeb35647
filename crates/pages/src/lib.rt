// A page file in, the answer as text out.
#![tactic(auto)]

ghost use Rattle.std.specs.Prelude.{◌≡◌, ◌*◌, ◌≤◌, ◌<◌, length};
ghost use Rattle.print.specs.Pen.{pen, put_all};
ghost use Rattle.print.specs.Text.{bad_text};
ghost use Rattle.page.specs.Body.{line_number};
ghost use Rattle.steps.specs.Question.{root_input};
ghost use Rattle.steps.specs.Results.{layout_result};
ghost use Rattle.pages.specs.Output.{reply_text, laid_page_text, file_text, output_text, Lent, Fits, Shown};

use page::{Head, PageError};
use steps::Question;

// A layout of tables that are cut to size, and its text.
fn lay_cut(
    q: Question,
    n: usize,
    words: &[u32],
    numbers: &[f32],
    rows: &mut [f32],
    marks: &mut [u32],
    pairs: &mut [u32],
    triples: &mut [f32],
    out: &mut [u8],
) -> usize
    requires { n ≤ 512 }
    ensures { pen out.new result ≡ put_all (reply_text n (layout_result words.now numbers.now rows.old marks.old pairs.old triples.old (root_input q))) (pen out.old 0) }
{
    let answer = layout::layout(words, numbers, rows, marks, pairs, triples, q);
    print::print_answer(out, answer, n, rows, marks, pairs, triples)
}

// Cuts zeroed memory for 512 nodes to the size of the page.
fn lay_in(
    h: Head,
    words: &[u32],
    numbers: &[f32],
    rows: &mut [f32],
    marks: &mut [u32],
    pairs: &mut [u32],
    triples: &mut [f32],
    out: &mut [u8],
) -> usize
    requires fits { Fits h.count words.now numbers.now }
    requires lent { Lent rows.old marks.old pairs.old triples.old }
    ensures { pen out.new result ≡ put_all (laid_page_text h words.now numbers.now) (pen out.old 0) }
{
    let n = h.count as usize;
    let q = h.question;
    lay_cut(
        q,
        n,
        &words[..4 * n],
        &numbers[..28 * n],
        &mut rows[..16 * n],
        &mut marks[..2 * n],
        &mut pairs[..2 * n],
        &mut triples[..3 * n],
        out,
    )
}

// A layout of a page that was read.
fn lay(h: Head, words: &[u32], numbers: &[f32], out: &mut [u8]) -> usize
    requires { Fits h.count words.now numbers.now }
    ensures { pen out.new result ≡ put_all (laid_page_text h words.now numbers.now) (pen out.old 0) }
{
    let mut rows = [0.0f32; 8192];
    let mut marks = [0u32; 1024];
    let mut pairs = [0u32; 1024];
    let mut triples = [0.0f32; 1536];
    lay_in(
        h,
        words,
        numbers,
        &mut rows,
        &mut marks,
        &mut pairs,
        &mut triples,
        out,
    )
}

// What a file that is no page prints.
pub fn print_error(out: &mut [u8], bad: PageError) -> usize
    ensures { pen out.new result ≡ put_all (bad_text (line_number bad)) (pen out.old 0) }
{
    match bad {
        PageError::BadLine(line) => print::print_bad(out, line),
    }
}

// Writes what a page file gives to the front of `out`, and says how many bytes it is.
pub fn page_output(text: &[u8], out: &mut [u8]) -> usize
    ensures { Shown (output_text text.now) out.old out.new result }
{
    let mut words = [0u32; 2048];
    let mut numbers = [0.0f32; 14336];
    match page::read_page(text, &mut words, &mut numbers) {
        Err(bad) => print_error(out, bad),
        Ok(h) => lay(h, &words, &numbers, out),
    }
}
