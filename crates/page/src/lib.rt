// The page file: bytes to node tables and a question, or the number of the first bad or missing line.
#![tactic(auto)]

mod body;
mod heading;

ghost use Rattle.std.specs.Prelude.{◌≡◌, ◌*◌, ◌≤◌, min, length, Ok};
ghost use Rattle.page.specs.File.{node_limit, page_file, file_of, file_from, ReadAs, Blank};

use crate::body::read_body;
use crate::heading::read_head;
use steps::Question;

// What the first five lines say: how many nodes, and the question.
#[derive(Clone, Copy)]
pub struct Head {
    pub count: u32,
    pub question: Question,
}

// Why a file is no page: the number of its first bad or missing line.
#[derive(Clone, Copy)]
pub enum PageError {
    BadLine(usize),
}

// How many nodes the lent tables can take, 512 at most.
#[tactic(auto, unfolding(crate::specs::File::node_limit))]
fn node_limit(words: &[u32], numbers: &[f32]) -> u32
    ensures { result ≡ node_limit (length words.now) (length numbers.now) }
{
    (words.len() / style::WORDS)
        .min(numbers.len() / style::NUMBERS)
        .min(512) as u32
}

// The nodes of a page whose first five lines are good.
fn read_nodes(
    text: &[u8],
    whole: bool,
    h: Head,
    words: &mut [u32],
    numbers: &mut [f32],
) -> Result<Head, PageError>
    requires short { length text.now ≤ 262143 }
    requires blank { Blank words.old numbers.old }
    requires room { h.count ≤ node_limit (length words.old) (length numbers.old) }
    ensures { ReadAs (file_from whole (length words.old) (length numbers.old) text.now (Ok h)) result words.new numbers.new }
{
    let n = h.count as usize;
    let at = text::piece_start(text, b'\n', 5);
    match read_body(text, at, whole, n, words, numbers) {
        Ok(()) => Ok(h),
        Err(bad) => {
            rows::clear_marks(words);
            rows::clear(numbers);
            Err(bad)
        }
    }
}

fn read_text(
    text: &[u8],
    whole: bool,
    words: &mut [u32],
    numbers: &mut [f32],
) -> Result<Head, PageError>
    requires { length text.now ≤ 262143 }
    ensures { ReadAs (file_of whole (length words.old) (length numbers.old) text.now) result words.new numbers.new }
{
    rows::clear_marks(words);
    rows::clear(numbers);
    let limit = node_limit(words, numbers);
    let h = read_head(text, limit)?;
    read_nodes(text, whole, h, words, numbers)
}

// A page file. The tables end as written, zero past the last node, and all zero if a line is bad.
pub fn read_page(text: &[u8], words: &mut [u32], numbers: &mut [f32]) -> Result<Head, PageError>
    ensures { ReadAs (page_file (length words.old) (length numbers.old) text.now) result words.new numbers.new }
{
    let end = text.len().min(262143);
    read_text(&text[..end], text.len() <= 262143, words, numbers)
}
