// The public calls: plain numbers and slices in, one word of two halves out. face_c exports them for C.
#![tactic(auto)]

ghost use Rattle.std.specs.Prelude.{◌≡◌, List, [], ◌∷◌, ℕ, Ok};
ghost use Rattle.steps.specs.Question.{root_input};
ghost use Rattle.steps.specs.Row.{bit};
ghost use Rattle.steps.specs.Results.{layout_result, relayout_result, size_result};
ghost use Rattle.asked.specs.Question.{plain_question, axis_of, as_profile};
ghost use Rattle.asked.specs.Halves.{Halves};
ghost use Rattle.face.specs.Answered.{IndexAnswered, Scrolled, found_in, CoarseAnswered};
ghost use Rattle.face.specs.AsProfile.{AnsweredAs, SizedAs, SizedProfile};
ghost use Rattle.index.specs.Index.{index_result};
ghost use Rattle.scroll.specs.Scroll.{scroll_answer};
ghost use Rattle.coarse.specs.Coarse.{coarse_result};
ghost use Rattle.order.specs.Class.{keeps_order};
ghost use Rattle.profiled.specs.Profiled.{profile_paper, yes_or_no, profiled_layout_result, profiled_relayout_result, profiled_size_result};

use asked::{
    as_profile, axis, halves, packed, packed_coarse, packed_index, packed_profile, question,
};
use steps::{Question, RequestedAxis};

// A fresh layout of a page.
pub fn mearrasot_layout(
    words: &[u32],
    numbers: &[f32],
    rows: &mut [f32],
    marks: &mut [u32],
    pairs: &mut [u32],
    triples: &mut [f32],
    width: f32,
    height: f32,
    parent: f32,
    available: f32,
    how: u32,
) -> u64
    ensures { AnsweredAs (as_profile how) (layout_result words.now numbers.now rows.old marks.old pairs.old triples.old (root_input (plain_question width height parent available how))) (profiled_layout_result words.now numbers.now rows.old marks.old pairs.old triples.old (root_input (plain_question width height parent available how))) result rows.new marks.new pairs.new triples.new }
{
    let q = question(width, height, parent, available, how);
    if as_profile(how) {
        let a = profiled::layout_profiled(words, numbers, rows, marks, pairs, triples, q);
        return packed_profile(a);
    }
    let a = layout::layout(words, numbers, rows, marks, pairs, triples, q);
    packed(a)
}

// A relayout from the rows as they are lent.
pub fn mearrasot_relayout(
    words: &[u32],
    numbers: &[f32],
    rows: &mut [f32],
    marks: &mut [u32],
    pairs: &mut [u32],
    triples: &mut [f32],
    edits: &[u32],
    width: f32,
    height: f32,
    parent: f32,
    available: f32,
    how: u32,
) -> u64
    ensures { AnsweredAs (as_profile how) (relayout_result words.now numbers.now rows.old marks.old pairs.old triples.old edits.now (root_input (plain_question width height parent available how))) (profiled_relayout_result words.now numbers.now rows.old marks.old pairs.old triples.old edits.now (root_input (plain_question width height parent available how))) result rows.new marks.new pairs.new triples.new }
{
    let q = question(width, height, parent, available, how);
    if as_profile(how) {
        let a = profiled::relayout_profiled(words, numbers, rows, marks, pairs, triples, edits, q);
        return packed_profile(a);
    }
    let a = layout::relayout(words, numbers, rows, marks, pairs, triples, edits, q);
    packed(a)
}

// The size of a page asked as profile, written to `out`.
fn size_as_profile(
    words: &[u32],
    numbers: &[f32],
    out: &mut [f32; 2],
    q: Question,
    axis: RequestedAxis,
) -> u64
    ensures { SizedProfile (profiled_size_result words.now numbers.now (root_input q) axis) result out.new }
{
    let a = profiled::size_profiled(words, numbers, q, axis);
    match a {
        Ok(s) => {
            *out = [s.width, s.height];
            halves(0, 0)
        }
        Err(no) => {
            *out = [0.0, 0.0];
            packed_profile(Err(no))
        }
    }
}

// The size of a page, written to `size`: 0x0 if it is refused.
pub fn mearrasot_size(
    words: &[u32],
    numbers: &[f32],
    size: &mut [f32; 2],
    width: f32,
    height: f32,
    parent: f32,
    available: f32,
    how: u32,
) -> u64
    ensures { SizedAs (as_profile how) (size_result words.now numbers.now (root_input (plain_question width height parent available how)) (axis_of how)) (profiled_size_result words.now numbers.now (root_input (plain_question width height parent available how)) (axis_of how)) result size.new }
{
    let q = question(width, height, parent, available, how);
    if as_profile(how) {
        return size_as_profile(words, numbers, size, q, axis(how));
    }
    let a = measure::size_question(words, numbers, q, axis(how));
    match a {
        Ok(s) => {
            *size = [s.width, s.height];
            packed(Ok(0))
        }
        Err(no) => {
            *size = [0.0, 0.0];
            packed(Err(no))
        }
    }
}

// The vertical index of a list of leaves.
pub fn mearrasot_index(
    words: &[u32],
    rows: &[f32],
    marks: &[u32],
    list: &[u32],
    tops: &mut [f32],
    bottoms: &mut [f32],
    running: &mut [f32],
) -> u64
    ensures { IndexAnswered (index_result words.now rows.now marks.now list.now tops.old bottoms.old running.old) result tops.new bottoms.new running.new }
{
    let a = index::make_index(words, rows, marks, list, tops, bottoms, running);
    packed_index(a)
}

// A position as a word: all ones if there is none.
#[tactic(auto, unfolding(crate::specs::Answered::found_in))]
fn place_word(place: Option<usize>) -> u64
    ensures { (lent : List ℕ) → result ∷ [] ≡ found_in (Ok place) lent }
{
    match place {
        Some(k) => k as u64,
        None => 0xffff_ffff_ffff_ffff,
    }
}

// The first position of the index whose bottom is a greater number than y, written to `found`: all ones if there is none.
pub fn mearrasot_scroll(running: &[f32], y: f32, found: &mut [u64; 1]) -> u64
    ensures { Scrolled (scroll_answer running.now y) found.old result found.new }
{
    let a = scroll::scroll(running, y);
    match a {
        Ok(place) => {
            *found = [place_word(place)];
            halves(0, 0)
        }
        Err(_) => halves(10, 0),
    }
}

// Each laid node as a box of whole pixels.
pub fn mearrasot_coarse(words: &[u32], rows: &[f32], marks: &[u32], out: &mut [i32]) -> u64
    ensures { CoarseAnswered (coarse_result words.now rows.now marks.now out.old) result out.new }
{
    let a = coarse::coarse(words, rows, marks, out);
    packed_coarse(a)
}

// Whether the rows of a page keep their order: 1 for yes, 0 for no.
pub fn mearrasot_keeps_order(words: &[u32], numbers: &[f32]) -> u64
    ensures { result ≡ bit (keeps_order words.now numbers.now) }
{
    let yes = keeps::keeps_order(words, numbers);
    if yes { 1 } else { 0 }
}

// Whether a page and a question are of the profile: 0 for yes, else the number and place of the no.
pub fn mearrasot_in_profile(
    words: &[u32],
    numbers: &[f32],
    width: f32,
    height: f32,
    parent: f32,
    available: f32,
    how: u32,
) -> u64
    ensures { Halves (profile_paper (yes_or_no words.now numbers.now (root_input (plain_question width height parent available how)))) result }
{
    let q = question(width, height, parent, available, how);
    let a = profiled::in_profile(words, numbers, q);
    packed_profile(a)
}
