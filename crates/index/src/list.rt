// 9: the list of leaves.
ghost use Rattle.std.specs.Prelude.{◌≡◌, ◌<◌, min, length};
ghost use Rattle.steps.specs.Scan.{first_of};
ghost use Rattle.index.specs.Entries.{bits_at, not_above, bad_entry};
ghost use Rattle.index.specs.Index.{list_answer};

use crate::IndexRefusal;
use lent::smaller;
use style::{code, flag, word};

// The bits of row i, and 0 past the end.
fn bits_at(marks: &[u32], i: usize) -> u32
    ensures { result ≡ bits_at marks.now i }
{
    if i < marks.len() / style::MARKS {
        return marks[style::MARKS * i + 1];
    }
    0
}

// 9: entry k is not above the one before.
fn not_above(list: &[u32], k: usize) -> bool
    requires { k < length list.now }
    ensures { result ≡ not_above list.now k }
{
    if k == 0 {
        return false;
    }
    !(list[k - 1] < list[k])
}

// 9, of entry k.
fn bad_entry(words: &[u32], marks: &[u32], list: &[u32], k: usize) -> bool
    requires { k < length list.now }
    ensures { result ≡ bad_entry words.now marks.now list.now k }
{
    let i = list[k] as usize;
    if not_above(list, k) {
        return true;
    }
    if words.len() / style::WORDS <= i {
        return true;
    }
    if code(word(words, i, style::STYLE), style::KIND) != 1 {
        return true;
    }
    !flag(bits_at(marks, i), steps::LAID)
}

// 9: the first of them that is at fault.
fn first_bad_entry(words: &[u32], marks: &[u32], list: &[u32]) -> Option<u32>
    ensures { result ≡ first_of (bad_entry words.now marks.now list.now) (min 256 (length list.now)) }
{
    let most = smaller(256, list.len());
    for k in 0..most {
        if bad_entry(words, marks, list, k) {
            return Some(k as u32);
        }
    }
    None
}

// 9.
pub(crate) fn list_tested(words: &[u32], marks: &[u32], list: &[u32]) -> Result<(), IndexRefusal>
    ensures { result ≡ list_answer words.now marks.now list.now }
{
    if let Some(k) = first_bad_entry(words, marks, list) {
        return Err(IndexRefusal::BadEntry(k));
    }
    if 256 < list.len() {
        return Err(IndexRefusal::BadEntry(256));
    }
    Ok(())
}
