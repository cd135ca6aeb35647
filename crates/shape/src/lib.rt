// Test 2: is the table of sizes a tree's? Each child's part of the words is handed on, and the depth left falls.
#![tactic(auto)]

ghost use Rattle.std.specs.Prelude.{◌≡◌, ◌&&◌, ◌+◌, ◌≤◌, eqb, ltb};
ghost use Rattle.style.specs.Codes.{code_at};
ghost use Rattle.steps.specs.Scan.{lowest};
ghost use Rattle.steps.specs.Page.{nodes_in};
ghost use Rattle.steps.specs.Noes.{bad_tree};
ghost use Rattle.shape.specs.TreeCheck.{node_fault, CheckedPart};

use style::{code, word, word_in};
use tree::NodeId;

// 2: a leaf above size 1.
fn long_leaf(style: u32, size: usize) -> bool
    ensures { result ≡ eqb (code_at style 0) 1 && ltb 1 size }
{
    if code(style, style::KIND) == 1 {
        1 < size
    } else {
        false
    }
}

// 2, of a node below the root. `room` is the number of nodes from here to the end of its parent's run.
fn node_fault(size: usize, style: u32, room: usize, depth: u32) -> bool
    ensures { result ≡ node_fault size style room depth }
{
    if size == 0 {
        return true;
    }
    if room < size {
        return true;
    }
    if long_leaf(style, size) {
        return true;
    }
    depth == 0
}

// 2: the children that make up a parent's run, and all below them, with this depth left. `base` is the number of the first.
fn below(words: &[u32], base: usize, depth: u32) -> Option<NodeId>
    requires { base + nodes_in words.now ≤ 4294967295 }
    ensures { CheckedPart words.now base depth result }
{
    let n = words.len() / style::WORDS;
    let mut a = 0;
    // No `for`: a step is as long as its run.
    while a < n {
        let size = word_in(words, a, style::SIZE) as usize;
        let style = word_in(words, a, style::STYLE);
        if node_fault(size, style, n - a, depth) {
            return Some(NodeId((base + a) as u32));
        }
        let b = a + 1;
        let e = a + size;
        let found = below(
            &words[style::WORDS * b..style::WORDS * e],
            base + b,
            depth - 1,
        );
        if let Some(i) = found {
            return Some(i);
        }
        a = e;
    }
    None
}

// 2: the depth left below the root.
const BELOW_ROOT: u32 = tree::MAX_DEPTH as u32 - 1;

// 2: the lowest node at fault.
pub fn check_tree(words: &[u32]) -> Option<NodeId>
    ensures { result ≡ lowest (bad_tree words.now) (nodes_in words.now) }
{
    let n = words.len() / style::WORDS;
    if n == 0 {
        return None;
    }
    let size = word(words, 0, style::SIZE) as usize;
    if size != n {
        return Some(NodeId(0));
    }
    if long_leaf(word(words, 0, style::STYLE), size) {
        return Some(NodeId(0));
    }
    below(&words[style::WORDS..style::WORDS * n], 1, BELOW_ROOT)
}
