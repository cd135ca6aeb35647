// The vertical index of a list of leaves: their top and bottom edges on the page, and the running largest bottom for the scroll key.
#![tactic(auto)]

mod list;

ghost use Rattle.std.specs.Prelude.{◌≡◌, length};
ghost use Rattle.index.specs.declared.IndexRefusal.TheVariants.{Plain};
ghost use Rattle.index.specs.Index.{uneven, index_answer, index_result, Indexed};
ghost use Rattle.index.specs.Loops.{AsLong, TwoAsLong, Edged};
ghost use Rattle.scroll.specs.Running.{running_of};

use crate::list::list_tested;
use edges::{near_edge, row_number, rows_tested};
use steps::Refusal;
use util::f32_max;

// Why make_index refuses: one of the earlier noes, or 9 with its place.
#[derive(Clone, Copy)]
pub enum IndexRefusal {
    Plain(Refusal),
    BadEntry(u32),
}

impl From<Refusal> for IndexRefusal {
    ghost from_gives = { λ no refusal. refusal ≡ Plain no };

    fn from(no: Refusal) -> IndexRefusal {
        IndexRefusal::Plain(no)
    }
}

// 1: the slices of the index are as long as the list.
fn is_uneven(list: &[u32], tops: &[f32], bottoms: &[f32], running: &[f32]) -> bool
    ensures { result ≡ uneven (length list.now) (length tops.now) (length bottoms.now) (length running.now) }
{
    if tops.len() != list.len() {
        return true;
    }
    if bottoms.len() != list.len() {
        return true;
    }
    running.len() != list.len()
}

// 1, 2, 3, 7 and 9, before any write.
fn index_tested(
    words: &[u32],
    rows: &[f32],
    marks: &[u32],
    list: &[u32],
    tops: &[f32],
    bottoms: &[f32],
    running: &[f32],
) -> Result<(), IndexRefusal>
    ensures { result ≡ index_answer words.now rows.now marks.now list.now (length tops.now) (length bottoms.now) (length running.now) }
{
    if is_uneven(list, tops, bottoms, running) {
        return Err(IndexRefusal::Plain(Refusal::Lengths));
    }
    rows_tested(words, rows, marks)?;
    list_tested(words, marks, list)
}

// Top and bottom of each entry.
fn put_edges(words: &[u32], rows: &[f32], list: &[u32], tops: &mut [f32], bottoms: &mut [f32])
    requires { TwoAsLong list.now tops.old bottoms.old }
    ensures { Edged words.now rows.now list.now tops.new bottoms.new }
{
    for k in 0..list.len() {
        let i = list[k] as usize;
        let top = near_edge(words, rows, 1, i);
        let bottom = top + row_number(rows, i, 3);
        tops[k] = top;
        bottoms[k] = bottom;
    }
}

// The largest bottom up to each entry, from the lowest finite number on.
fn put_running(bottoms: &[f32], running: &mut [f32])
    requires { AsLong bottoms.now running.old }
    ensures { running.new ≡ running_of bottoms.now }
{
    let mut most = -3.40282347e38;
    for k in 0..bottoms.len() {
        let bottom = bottoms[k];
        most = f32_max(most, bottom);
        running[k] = most;
    }
}

// The index of these leaves, made anew; called again after each layout or relayout.
pub fn make_index(
    words: &[u32],
    rows: &[f32],
    marks: &[u32],
    list: &[u32],
    tops: &mut [f32],
    bottoms: &mut [f32],
    running: &mut [f32],
) -> Result<(), IndexRefusal>
    ensures { Indexed (index_result words.now rows.now marks.now list.now tops.old bottoms.old running.old) result tops.new bottoms.new running.new }
{
    index_tested(words, rows, marks, list, tops, bottoms, running)?;
    put_edges(words, rows, list, tops, bottoms);
    put_running(bottoms, running);
    Ok(())
}
