// What C asks by plain numbers, and an answer as one word of two halves.
#![tactic(auto)]

ghost use Rattle.std.specs.Prelude.{◌≡◌, ◌≤◌};
ghost use Rattle.steps.specs.Noes.{paper};
ghost use Rattle.index.specs.Index.{index_paper};
ghost use Rattle.coarse.specs.Coarse.{coarse_paper};
ghost use Rattle.profiled.specs.Profiled.{profile_paper};
ghost use Rattle.asked.specs.Question.{given, available_of, plain_question, axis_of, as_profile};
ghost use Rattle.asked.specs.Halves.{Halves};

use coarse::CoarseRefusal;
use geometry::Size;
use index::IndexRefusal;
use length::AvailableSpace;
use profiled::ProfileRefusal;
use steps::{Question, Refusal, RequestedAxis, number_of, place_of};
use style::{code, flag};

// A number that is given, or none.
fn option(b: bool, x: f32) -> Option<f32>
    ensures { result ≡ given b x }
{
    if b { Some(x) } else { None }
}

// The available width by its kind.
fn available_of(k: u32, x: f32) -> AvailableSpace
    ensures { result ≡ available_of k x }
{
    match k {
        0 => AvailableSpace::MaxContent,
        1 => AvailableSpace::Definite(x),
        2 => AvailableSpace::MinContent,
        _ => AvailableSpace::MaxContent,
    }
}

// The question that four floats and the bits of a word ask.
pub fn question(width: f32, height: f32, parent: f32, available: f32, how: u32) -> Question
    ensures { result ≡ plain_question width height parent available how }
{
    let known = Size {
        width: option(flag(how, 0), width),
        height: option(flag(how, 1), height),
    };
    Question {
        known,
        parent,
        definiteHeight: flag(how, 7),
        available: available_of(code(how, 1), available),
        collapseStart: flag(how, 4),
        collapseEnd: flag(how, 5),
    }
}

// Width only, or both.
pub fn axis(how: u32) -> RequestedAxis
    ensures { result ≡ axis_of how }
{
    if flag(how, 6) {
        RequestedAxis::Horizontal
    } else {
        RequestedAxis::Both
    }
}

// Asked as profile.
pub fn as_profile(how: u32) -> bool
    ensures { result ≡ as_profile how }
{
    flag(how, 8)
}

// A number and a place as the two halves of a word.
pub fn halves(number: u64, place: u32) -> u64
    requires { number ≤ 12 }
    ensures { Halves (number, place) result }
{
    number * 0x1_0000_0000 + place as u64
}

// An answer as 01's number and place.
pub fn packed(a: Result<u32, Refusal>) -> u64
    ensures { Halves (paper a) result }
{
    halves(number_of(a) as u64, place_of(a))
}

// An answer of a call asked as profile.
#[tactic(auto, unfolding(profiled::specs::Profiled::profile_paper, profiled::specs::Profiled::no_paper, steps::specs::Noes::paper))]
pub fn packed_profile(a: Result<u32, ProfileRefusal>) -> u64
    ensures { Halves (profile_paper a) result }
{
    match a {
        Ok(n) => packed(Ok(n)),
        Err(ProfileRefusal::Plain(no)) => packed(Err(no)),
        Err(ProfileRefusal::Outside(k)) => halves(11, k),
    }
}

// An index answer as the number and place of its request.
#[tactic(auto, unfolding(index::specs::Index::index_paper, steps::specs::Noes::paper))]
pub fn packed_index(a: Result<(), IndexRefusal>) -> u64
    ensures { Halves (index_paper a) result }
{
    match a {
        Ok(()) => halves(0, 0),
        Err(IndexRefusal::Plain(no)) => packed(Err(no)),
        Err(IndexRefusal::BadEntry(k)) => halves(9, k),
    }
}

// A coarse answer as the number and place of its request.
#[tactic(auto, unfolding(coarse::specs::Coarse::coarse_paper, steps::specs::Noes::paper))]
pub fn packed_coarse(a: Result<(), CoarseRefusal>) -> u64
    ensures { Halves (coarse_paper a) result }
{
    match a {
        Ok(()) => halves(0, 0),
        Err(CoarseRefusal::Plain(no)) => packed(Err(no)),
        Err(CoarseRefusal::TooFar(i)) => halves(12, i.0),
    }
}
