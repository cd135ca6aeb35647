// What the steps of document 01 pass on, by value. The steps themselves are definitions: specs/.
#![tactic(auto)]

ghost use Rattle.std.specs.Prelude.{◌≡◌};
ghost use Rattle.steps.specs.Noes.{paper};
ghost use Rattle.steps.specs.Question.{root_input};

use geometry::{Point, Rect, Size};
use length::AvailableSpace;
use margin::CollapsibleMarginSet;
use tree::{NodeId, Order};

// Bits of a row's second word.
pub const LAID: u32 = 0;

pub const THROUGH: u32 = 1;

pub const OUT_OF_FLOW: u32 = 2;

pub const HEIGHT_GIVEN: u32 = 3;

pub const PROBED: u32 = 4;

pub const PROBE_HEIGHT_GIVEN: u32 = 7;

pub const BASIS_GIVEN: u32 = 8;

pub const BASELINE_GIVEN: u32 = 9;

// What a caller asks of a page. The parent width is always a number. A known height is definite only where the caller says so.
#[derive(Clone, Copy)]
pub struct Question {
    pub known: Size<Option<f32>>,
    pub parent: f32,
    pub definiteHeight: bool,
    pub available: AvailableSpace,
    pub collapseStart: bool,
    pub collapseEnd: bool,
}

// A final question. `basis` is what a fraction of a height is a part of. Two flags say which margins may collapse; `nested` is false at the root alone.
#[derive(Clone, Copy)]
pub struct LayoutInput {
    pub known: Size<Option<f32>>,
    pub parent: Option<f32>,
    pub basis: Option<f32>,
    pub definiteHeight: bool,
    pub available: AvailableSpace,
    pub collapseStart: bool,
    pub collapseEnd: bool,
    pub nested: bool,
}

// Its answer. `baseline` is the first one at or below the box, measured from its top.
#[derive(Clone, Copy)]
pub struct LayoutOutput {
    pub size: Size<f32>,
    pub top: CollapsibleMarginSet,
    pub bottom: CollapsibleMarginSet,
    pub through: bool,
    pub baseline: Option<f32>,
}

// A probe: width only, no width known, no parent width.
#[derive(Clone, Copy)]
pub struct ProbeInput {
    pub height: Option<f32>,
    pub available: AvailableSpace,
}

// Step A of a box, against one basis. `both` is padding+border side by side.
#[derive(Clone, Copy)]
pub struct Sizing {
    pub padding: Rect<f32>,
    pub border: Rect<f32>,
    pub both: Rect<f32>,
    pub size: Size<Option<f32>>,
    pub min: Size<Option<f32>>,
    pub max: Size<Option<f32>>,
}

// What step F wants of a child: nothing, its outer width, or a probe.
#[derive(Clone, Copy)]
pub enum Want {
    Nothing,
    Outer(f32),
    Probe(ProbeInput),
}

// A container after steps A to I: its outer width and known height, the insets, the limits of its height, and what its edges do.
#[derive(Clone, Copy)]
pub struct Frame {
    pub width: f32,
    pub height: Option<f32>,
    pub inset: Rect<f32>,
    pub floor: f32,
    pub minHeight: Option<f32>,
    pub maxHeight: Option<f32>,
    pub heightBasis: Option<f32>,
    pub ownStart: bool,
    pub ownEnd: bool,
    pub hollow: bool,
    pub rtl: bool,
}

// A child of the stack: step E's numbers, margins (auto counts 0), which side margins are auto, the relative offset.
#[derive(Clone, Copy)]
pub struct BlockItem {
    pub sizing: Sizing,
    pub margin: Rect<f32>,
    pub left: bool,
    pub right: bool,
    pub offset: Point<f32>,
}

// Where the stack stands: y, the strut, the top set, still at the top, all shown children through so far, the first baseline, and two counts of siblings.
#[derive(Clone, Copy)]
pub struct Cursor {
    pub y: f32,
    pub strut: CollapsibleMarginSet,
    pub top: CollapsibleMarginSet,
    pub first: bool,
    pub allThrough: bool,
    pub baseline: Option<f32>,
    pub shown: Order,
    pub count: u32,
}

// A container after steps K to N.
#[derive(Clone, Copy)]
pub struct Finished {
    pub output: LayoutOutput,
    pub shift: Option<f32>,
}

// Why a call is refused, in the order of the tests.
#[derive(Clone, Copy)]
pub enum Refusal {
    Lengths,
    Tree(NodeId),
    Codes(NodeId),
    Numbers(u32),
    Room,
    Edits(u32),
    NotLaid,
    TooLarge(NodeId),
}

// Which size a size question wants.
#[derive(Clone, Copy)]
pub enum RequestedAxis {
    Horizontal,
    Both,
}

// A caller's question as the root is asked it.
pub fn root_input(q: Question) -> LayoutInput
    ensures { result ≡ root_input q }
{
    let known = q.known;
    let available = q.available;
    LayoutInput {
        known,
        parent: Some(q.parent),
        basis: None,
        definiteHeight: q.definiteHeight,
        available,
        collapseStart: q.collapseStart,
        collapseEnd: q.collapseEnd,
        nested: false,
    }
}

// The number on paper of what a layout or a relayout answers: a count, or why not.
#[tactic(auto, unfolding(crate::specs::Noes::paper, crate::specs::Noes::refusal_paper))]
pub fn number_of(a: Result<u32, Refusal>) -> u32
    ensures { result ≡ (paper a).0 }
{
    match a {
        Ok(_) => 0,
        Err(Refusal::Lengths) => 1,
        Err(Refusal::Tree(_)) => 2,
        Err(Refusal::Codes(_)) => 3,
        Err(Refusal::Numbers(_)) => 4,
        Err(Refusal::Room) => 5,
        Err(Refusal::Edits(_)) => 6,
        Err(Refusal::NotLaid) => 7,
        Err(Refusal::TooLarge(_)) => 8,
    }
}

// Its place, or the count of an accepted one.
#[tactic(auto, unfolding(crate::specs::Noes::paper, crate::specs::Noes::refusal_paper))]
pub fn place_of(a: Result<u32, Refusal>) -> u32
    ensures { result ≡ (paper a).1 }
{
    match a {
        Ok(n) => n,
        Err(Refusal::Tree(i) | Refusal::Codes(i) | Refusal::TooLarge(i)) => i.0,
        Err(Refusal::Numbers(k) | Refusal::Edits(k)) => k,
        Err(Refusal::Lengths | Refusal::Room | Refusal::NotLaid) => 0,
    }
}
