// 5: how many candidate records are needed, and how many are lent.
ghost use Rattle.std.specs.Prelude.{◌≡◌};
ghost use Rattle.tables.specs.TreeCheck.{GoodTable};
ghost use Rattle.steps.specs.Noes.{records_in};
ghost use Rattle.tables.specs.Walk.{counted_by, passed_by, NeededIn};

use style::{Flow, flow_at, word_in};

// 5: a shown out-of-flow child is one candidate.
fn counted(flow: Flow) -> usize
    ensures { result ≡ counted_by flow }
{
    match flow {
        Flow::Gone => 0,
        Flow::Out => 1,
        Flow::In => 0,
    }
}

// 5: the run of a hidden or out-of-flow child is passed whole.
fn passed(flow: Flow, size: usize) -> usize
    ensures { result ≡ passed_by flow size }
{
    match flow {
        Flow::Gone => size,
        Flow::Out => size,
        Flow::In => 1,
    }
}

// 5: how many candidate records are needed, from kind, position and sizes alone.
pub(crate) fn count_needed(words: &[u32]) -> usize
    requires { GoodTable words.now }
    ensures { NeededIn words.now result }
{
    let n = words.len() / style::WORDS;
    let mut i = 1;
    let mut count = 0;
    // No `for`: what takes no part is passed with all below it.
    while i < n {
        let flow = flow_at(word_in(words, i, style::STYLE));
        let size = word_in(words, i, style::SIZE) as usize;
        count += counted(flow);
        i += passed(flow, size);
    }
    count
}

// 5: how many are lent.
pub(crate) fn records_in(words: &[u32], numbers: &[f32]) -> usize
    ensures { result ≡ records_in words.now numbers.now }
{
    let twos = words.len() / 2;
    let threes = numbers.len() / 3;
    if threes < twos { threes } else { twos }
}
