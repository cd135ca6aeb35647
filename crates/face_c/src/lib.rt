// The exports for C: each is the call of the same name in face, with its clauses.
#![tactic(auto)]

ghost use Rattle.std.specs.Prelude.{◌≡◌};
ghost use Rattle.steps.specs.Question.{root_input};
ghost use Rattle.steps.specs.Row.{bit};
ghost use Rattle.steps.specs.Results.{layout_result, relayout_result, size_result};
ghost use Rattle.asked.specs.Question.{plain_question, axis_of, as_profile};
ghost use Rattle.asked.specs.Halves.{Halves};
ghost use Rattle.face.specs.Answered.{IndexAnswered, Scrolled, CoarseAnswered};
ghost use Rattle.face.specs.AsProfile.{AnsweredAs, SizedAs};
ghost use Rattle.index.specs.Index.{index_result};
ghost use Rattle.scroll.specs.Scroll.{scroll_answer};
ghost use Rattle.coarse.specs.Coarse.{coarse_result};
ghost use Rattle.order.specs.Class.{keeps_order};
ghost use Rattle.profiled.specs.Profiled.{profile_paper, yes_or_no, profiled_layout_result, profiled_relayout_result, profiled_size_result};

// A fresh layout of a page.
#[unsafe(no_mangle)]
pub extern "C" fn mearrasot_layout(
    words: &[u32],
    numbers: &[f32],
    rows: &mut [f32],
    marks: &mut [u32],
    pairs: &mut [u32],
    triples: &mut [f32],
    width: f32,
    height: f32,
    parent: f32,
    available: f32,
    how: u32,
) -> u64
    ensures { AnsweredAs (as_profile how) (layout_result words.now numbers.now rows.old marks.old pairs.old triples.old (root_input (plain_question width height parent available how))) (profiled_layout_result words.now numbers.now rows.old marks.old pairs.old triples.old (root_input (plain_question width height parent available how))) result rows.new marks.new pairs.new triples.new }
{
    face::mearrasot_layout(
        words, numbers, rows, marks, pairs, triples, width, height, parent, available, how,
    )
}

// A relayout from the rows as they are lent.
#[unsafe(no_mangle)]
pub extern "C" fn mearrasot_relayout(
    words: &[u32],
    numbers: &[f32],
    rows: &mut [f32],
    marks: &mut [u32],
    pairs: &mut [u32],
    triples: &mut [f32],
    edits: &[u32],
    width: f32,
    height: f32,
    parent: f32,
    available: f32,
    how: u32,
) -> u64
    ensures { AnsweredAs (as_profile how) (relayout_result words.now numbers.now rows.old marks.old pairs.old triples.old edits.now (root_input (plain_question width height parent available how))) (profiled_relayout_result words.now numbers.now rows.old marks.old pairs.old triples.old edits.now (root_input (plain_question width height parent available how))) result rows.new marks.new pairs.new triples.new }
{
    face::mearrasot_relayout(
        words, numbers, rows, marks, pairs, triples, edits, width, height, parent, available, how,
    )
}

// The size of a page, written to `size`: 0x0 if it is refused.
#[unsafe(no_mangle)]
pub extern "C" fn mearrasot_size(
    words: &[u32],
    numbers: &[f32],
    size: &mut [f32; 2],
    width: f32,
    height: f32,
    parent: f32,
    available: f32,
    how: u32,
) -> u64
    ensures { SizedAs (as_profile how) (size_result words.now numbers.now (root_input (plain_question width height parent available how)) (axis_of how)) (profiled_size_result words.now numbers.now (root_input (plain_question width height parent available how)) (axis_of how)) result size.new }
{
    face::mearrasot_size(words, numbers, size, width, height, parent, available, how)
}

// The vertical index of a list of leaves.
#[unsafe(no_mangle)]
pub extern "C" fn mearrasot_index(
    words: &[u32],
    rows: &[f32],
    marks: &[u32],
    list: &[u32],
    tops: &mut [f32],
    bottoms: &mut [f32],
    running: &mut [f32],
) -> u64
    ensures { IndexAnswered (index_result words.now rows.now marks.now list.now tops.old bottoms.old running.old) result tops.new bottoms.new running.new }
{
    face::mearrasot_index(words, rows, marks, list, tops, bottoms, running)
}

// The first position of the index whose bottom is a greater number than y, written to `found`: all ones if there is none.
#[unsafe(no_mangle)]
pub extern "C" fn mearrasot_scroll(running: &[f32], y: f32, found: &mut [u64; 1]) -> u64
    ensures { Scrolled (scroll_answer running.now y) found.old result found.new }
{
    face::mearrasot_scroll(running, y, found)
}

// Each laid node as a box of whole pixels.
#[unsafe(no_mangle)]
pub extern "C" fn mearrasot_coarse(
    words: &[u32],
    rows: &[f32],
    marks: &[u32],
    out: &mut [i32],
) -> u64
    ensures { CoarseAnswered (coarse_result words.now rows.now marks.now out.old) result out.new }
{
    face::mearrasot_coarse(words, rows, marks, out)
}

// Whether the rows of a page keep their order: 1 for yes, 0 for no.
#[unsafe(no_mangle)]
pub extern "C" fn mearrasot_keeps_order(words: &[u32], numbers: &[f32]) -> u64
    ensures { result ≡ bit (keeps_order words.now numbers.now) }
{
    face::mearrasot_keeps_order(words, numbers)
}

// Whether a page and a question are of the profile: 0 for yes, else the number and place of the no.
#[unsafe(no_mangle)]
pub extern "C" fn mearrasot_in_profile(
    words: &[u32],
    numbers: &[f32],
    width: f32,
    height: f32,
    parent: f32,
    available: f32,
    how: u32,
) -> u64
    ensures { Halves (profile_paper (yes_or_no words.now numbers.now (root_input (plain_question width height parent available how)))) result }
{
    face::mearrasot_in_profile(words, numbers, width, height, parent, available, how)
}
