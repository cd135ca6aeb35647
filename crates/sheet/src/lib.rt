// The page of a display and the list of its edits: a number or a word of a node anew, and its index noted.
#![tactic(auto)]

ghost use Rattle.std.specs.Prelude.{◌≡◌, List, Float};
ghost use Rattle.sheet.specs.Sheet.{sheet, noted, number_edit, word_edit};

use tree::NodeId;

// A number of a node.
#[derive(Clone, Copy)]
pub struct NodeNumber {
    pub node: NodeId,
    pub field: u32,
    pub value: f32,
}

// A word of a node.
#[derive(Clone, Copy)]
pub struct NodeWord {
    pub node: NodeId,
    pub word: u32,
    pub bits: u32,
}

// One more edit in the list, if there is room. The first 65 say all.
pub fn note(node: NodeId, count: usize, list: &mut [u32]) -> usize
    ensures { noted node.0 list.old count ≡ (list.new, result) }
{
    if list.len() <= count {
        return count;
    }
    list[count] = node.0;
    count + 1
}

// A number of a node, if there is such a number.
pub fn edit_number(
    x: NodeNumber,
    count: usize,
    words: &[u32],
    numbers: &mut [f32],
    list: &mut [u32],
) -> usize
    ensures { sheet words.now numbers.new list.new result ≡ number_edit x (sheet words.now numbers.old list.old count) }
{
    let n = words.len() / style::WORDS;
    let id = x.node;
    let node = id.0 as usize;
    let field = x.field as usize;
    if n <= node {
        return count;
    }
    if numbers.len() / n <= field {
        return count;
    }
    let at = style::number_place(n, node, field);
    numbers[at] = x.value;
    note(id, count, list)
}

// Word 1, 2 or 3 of a node, if there is such a node.
pub fn edit_word(x: NodeWord, count: usize, words: &mut [u32], list: &mut [u32]) -> usize
    ensures { (xs : List Float) → sheet words.new xs list.new result ≡ word_edit x (sheet words.old xs list.old count) }
{
    let n = words.len() / style::WORDS;
    let id = x.node;
    let node = id.0 as usize;
    let word = x.word as usize;
    if n <= node {
        return count;
    }
    if word == 0 {
        return count;
    }
    if 3 < word {
        return count;
    }
    words[node * style::WORDS + word] = x.bits;
    note(id, count, list)
}
