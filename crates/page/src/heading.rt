// The first five lines, one after the other.
ghost use Rattle.std.specs.Prelude.{◌≡◌};
ghost use Rattle.text.specs.Pieces.{lines_of};
ghost use Rattle.page.specs.Head.{head_of};

use crate::{Head, PageError};
use steps::Question;

// How many nodes there are, and the question.
#[tactic(auto, unfolding(crate::specs::Head::head_of, crate::specs::Head::count_in, crate::specs::Head::parent_in, crate::specs::Head::known_in, crate::specs::Head::avail_in, crate::specs::Head::flags_in, crate::specs::Head::head_question))]
pub fn read_head(text: &[u8], limit: u32) -> Result<Head, PageError>
    ensures { result ≡ head_of limit (lines_of text.now) }
{
    let count = lines::nodes_line(text::line(text, 0), limit).ok_or(PageError::BadLine(1))?;
    let parent = lines::parent_line(text::line(text, 1)).ok_or(PageError::BadLine(2))?;
    let known = lines::known_line(text::line(text, 2)).ok_or(PageError::BadLine(3))?;
    let available = lines::avail_line(text::line(text, 3)).ok_or(PageError::BadLine(4))?;
    let flags = lines::flags_line(text::line(text, 4)).ok_or(PageError::BadLine(5))?;
    let question = Question {
        known,
        parent,
        definiteHeight: flags.definiteHeight,
        available,
        collapseStart: flags.collapseStart,
        collapseEnd: flags.collapseEnd,
    };
    Ok(Head { count, question })
}
