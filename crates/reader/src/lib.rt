// A node's style read part by part: a step takes what it asks for, and the whole is never copied.
#![tactic(auto)]

mod parts;

ghost use Rattle.std.specs.Prelude.{◌≡◌, ◌<◌, ◌≤◌, length};
ghost use Rattle.style.specs.Codes.{code_at, kind_of};
ghost use Rattle.style.specs.Flow.{flow_at, is_leaf};
ghost use Rattle.style.specs.Style.{word_at, plane_of};

use style::Flow;

// A node's three words, and where its numbers stand.
#[derive(Clone, Copy)]
pub struct Reader<'a> {
    pub style: u32,
    pub first: u32,
    pub second: u32,
    pub numbers: &'a [f32],
    pub plane: usize,
    pub node: usize,
    // Its planes are those of its numbers, and its node is one of them.
    ghost planes: { plane ≡ plane_of numbers.now },
    ghost one_of: { node < plane },
}

// Is the first node of these words a leaf?
pub fn is_leaf(words: &[u32]) -> bool
    requires { 4 ≤ length words.now }
    ensures { result ≡ is_leaf (kind_of (code_at (word_at words.now 0 1) 0)) }
{
    style::is_leaf(style::kind_of(style::word_in(words, 0, style::STYLE)))
}

// How the first node of these words takes part.
pub fn flow(words: &[u32]) -> Flow
    requires { 4 ≤ length words.now }
    ensures { result ≡ flow_at (word_at words.now 0 1) }
{
    style::flow_at(style::word_in(words, 0, style::STYLE))
}
