// The plain calls asked as profile: 1 to 4, then 11, a page that is not of the profile, then what the plain call answers.
#![tactic(auto)]

ghost use Rattle.std.specs.Prelude.{◌≡◌};
ghost use Rattle.steps.specs.Question.{root_input};
ghost use Rattle.steps.specs.Noes.{size_tested};
ghost use Rattle.profile.specs.Profile.{profile_spot};
ghost use Rattle.profiled.specs.declared.ProfileRefusal.TheVariants.{Plain};
ghost use Rattle.profiled.specs.Profiled.{profile_paper, profile_tested, yes_or_no, profiled_layout_result, profiled_relayout_result, profiled_size_result};
ghost use Rattle.profiled.specs.Public.{Few, ProfileReplied, ProfileSaid, ProfileSized};

use geometry::Size;
use profiles::profile_spot;
use steps::{LayoutInput, Question, Refusal, RequestedAxis, root_input};

// Why a call asked as profile refuses: a refusal of the plain calls, or 11 with its place.
#[derive(Clone, Copy)]
pub enum ProfileRefusal {
    Plain(Refusal),
    Outside(u32),
}

impl From<Refusal> for ProfileRefusal {
    ghost from_gives = { λ no refusal. refusal ≡ Plain no };

    fn from(no: Refusal) -> ProfileRefusal {
        ProfileRefusal::Plain(no)
    }
}

// The number on paper of what a call asked as profile answers.
#[tactic(auto, unfolding(crate::specs::Profiled::profile_paper, crate::specs::Profiled::no_paper, steps::specs::Noes::paper))]
pub fn number_of(a: Result<u32, ProfileRefusal>) -> u32
    ensures { result ≡ (profile_paper a).0 }
{
    match a {
        Ok(n) => steps::number_of(Ok(n)),
        Err(ProfileRefusal::Plain(no)) => steps::number_of(Err(no)),
        Err(ProfileRefusal::Outside(_)) => 11,
    }
}

// Its place, or the count of an accepted one.
#[tactic(auto, unfolding(crate::specs::Profiled::profile_paper, crate::specs::Profiled::no_paper, steps::specs::Noes::paper))]
pub fn place_of(a: Result<u32, ProfileRefusal>) -> u32
    ensures { result ≡ (profile_paper a).1 }
{
    match a {
        Ok(n) => steps::place_of(Ok(n)),
        Err(ProfileRefusal::Plain(no)) => steps::place_of(Err(no)),
        Err(ProfileRefusal::Outside(k)) => k,
    }
}

// 11, where none of 1 to 4 is due.
#[tactic(auto, unfolding(crate::specs::Profiled::profile_tested))]
fn profile_tested(
    t: Result<(), Refusal>,
    words: &[u32],
    numbers: &[f32],
    q: LayoutInput,
) -> Result<(), ProfileRefusal>
    requires { Few t words.now numbers.now }
    ensures { result ≡ profile_tested t (profile_spot words.now numbers.now q) }
{
    t?;
    match profile_spot(words, numbers, q) {
        None => Ok(()),
        Some(k) => Err(ProfileRefusal::Outside(k)),
    }
}

// Is a page of the profile? Yes is 0.
pub fn in_profile(words: &[u32], numbers: &[f32], q: Question) -> Result<u32, ProfileRefusal>
    ensures { ProfileSaid (yes_or_no words.now numbers.now (root_input q)) result }
{
    let asked = root_input(q);
    let t = tables::size_tested(words, numbers, asked);
    profile_tested(t, words, numbers, asked)?;
    Ok(0)
}

// A layout asked as profile.
pub fn layout_profiled(
    words: &[u32],
    numbers: &[f32],
    rows: &mut [f32],
    marks: &mut [u32],
    pairs: &mut [u32],
    triples: &mut [f32],
    q: Question,
) -> Result<u32, ProfileRefusal>
    ensures { ProfileReplied (profiled_layout_result words.now numbers.now rows.old marks.old pairs.old triples.old (root_input q)) result rows.new marks.new pairs.new triples.new }
{
    let asked = root_input(q);
    let t = tables::early_tested(words, numbers, rows, marks, asked);
    profile_tested(t, words, numbers, asked)?;
    Ok(layout::layout(words, numbers, rows, marks, pairs, triples, q)?)
}

// A relayout asked as profile.
pub fn relayout_profiled(
    words: &[u32],
    numbers: &[f32],
    rows: &mut [f32],
    marks: &mut [u32],
    pairs: &mut [u32],
    triples: &mut [f32],
    edits: &[u32],
    q: Question,
) -> Result<u32, ProfileRefusal>
    ensures { ProfileReplied (profiled_relayout_result words.now numbers.now rows.old marks.old pairs.old triples.old edits.now (root_input q)) result rows.new marks.new pairs.new triples.new }
{
    let asked = root_input(q);
    let t = tables::early_tested(words, numbers, rows, marks, asked);
    profile_tested(t, words, numbers, asked)?;
    Ok(layout::relayout(words, numbers, rows, marks, pairs, triples, edits, q)?)
}

// A size question asked as profile.
pub fn size_profiled(
    words: &[u32],
    numbers: &[f32],
    q: Question,
    axis: RequestedAxis,
) -> Result<Size<f32>, ProfileRefusal>
    ensures { ProfileSized (profiled_size_result words.now numbers.now (root_input q) axis) result }
{
    let asked = root_input(q);
    let t = tables::size_tested(words, numbers, asked);
    profile_tested(t, words, numbers, asked)?;
    Ok(measure::size_question(words, numbers, q, axis)?)
}
