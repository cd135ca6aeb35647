// The scroll key: the first entry of an index whose bottom edge lies beyond a line, found by halving.
#![tactic(auto)]

ghost use Rattle.std.specs.Prelude.{◌≡◌, length};
ghost use Rattle.scroll.specs.Halving.{halved, beyond};
ghost use Rattle.scroll.specs.Scroll.{is_finite, scroll_answer, ScrollReplied};

use limits::in_range;

// Why the scroll key refuses: the line is no finite number.
#[derive(Clone, Copy)]
pub enum ScrollRefusal {
    NotFinite,
}

// 10: between the lowest and the largest finite number.
fn is_finite(y: f32) -> bool
    ensures { result ≡ is_finite y }
{
    in_range(y, -3.40282347e38, 3.40282347e38)
}

// Where halving ends. A slice that rises holds, from there on, numbers greater than y.
fn halve(running: &[f32], y: f32) -> usize
    ensures { result ≡ halved (beyond running.now y) (length running.now) 0 (length running.now) }
{
    let mut lo = 0;
    let mut hi = running.len();
    // Not `partition_point`: of a slice that does not rise it promises nothing.
    while lo < hi {
        let middle = lo + (hi - lo) / 2;
        if y < running[middle] {
            hi = middle;
        } else {
            lo = middle + 1;
        }
    }
    lo
}

// The first position of the index whose bottom edge is a greater number than y, or that there is none.
pub fn scroll(running: &[f32], y: f32) -> Result<Option<usize>, ScrollRefusal>
    ensures { ScrollReplied (scroll_answer running.now y) result }
{
    if !is_finite(y) {
        return Err(ScrollRefusal::NotFinite);
    }
    let at = halve(running, y);
    if at < running.len() {
        return Ok(Some(at));
    }
    Ok(None)
}
