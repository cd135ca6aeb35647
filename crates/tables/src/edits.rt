// 6: the edit list.
ghost use Rattle.std.specs.Prelude.{◌≡◌, min, length};
ghost use Rattle.steps.specs.Scan.{first_of};
ghost use Rattle.steps.specs.Noes.{bad_edit, no6};

use lent::smaller;
use steps::Refusal;

// 6: how many edits there may be.
const MAX_EDITS: usize = 64;

// 6: the place of a list that is longer.
const OVER: u32 = MAX_EDITS as u32;

// 6: the first of them that names no node.
fn first_bad_edit(edits: &[u32], n: usize) -> Option<u32>
    ensures { result ≡ first_of (bad_edit edits.now n) (min 64 (length edits.now)) }
{
    let most = smaller(MAX_EDITS, edits.len());
    for k in 0..most {
        if n <= edits[k] as usize {
            return Some(k as u32);
        }
    }
    None
}

// 6.
pub(crate) fn edits_tested(edits: &[u32], n: usize) -> Result<(), Refusal>
    ensures { result ≡ no6 edits.now n }
{
    if let Some(k) = first_bad_edit(edits, n) {
        return Err(Refusal::Edits(k));
    }
    if MAX_EDITS < edits.len() {
        return Err(Refusal::Edits(OVER));
    }
    Ok(())
}
