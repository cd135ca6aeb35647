// The whole-pixel profile: a yes or no with its place, by the tables and the question alone.
#![tactic(auto)]

ghost use Rattle.std.specs.Prelude.{◌≡◌, not, ◌||◌, ◌<◌, eqb};
ghost use Rattle.steps.specs.Page.{nodes_in};
ghost use Rattle.steps.specs.Scan.{first_of, some};
ghost use Rattle.profile.specs.Profile.{whole_length, whole_option, centers, of_profile, outside, whole_question, profile_spot};
ghost use Rattle.profiles.specs.Numbers.{Placed, NodeOf, unit_at, as_length, broken, sides_auto, in_numbers};

use length::Length;
use steps::LayoutInput;
use style::AlignContent;
use whole::is_pixel;

// Auto, or whole pixels.
fn whole_length(l: Length) -> bool
    ensures { result ≡ whole_length l }
{
    match l {
        Length::Auto => true,
        Length::Pixels(x) => is_pixel(x),
        Length::Fraction(_) => false,
    }
}

// Absent, or a whole pixel.
fn whole_option(o: Option<f32>) -> bool
    ensures { result ≡ whole_option o }
{
    match o {
        None => true,
        Some(x) => is_pixel(x),
    }
}

// Center, and the two words that act as center.
#[tactic(auto, unfolding(profile::specs::Profile::centers))]
fn is_center(a: AlignContent) -> bool
    ensures { result ≡ centers a }
{
    matches!(
        a,
        AlignContent::Center | AlignContent::SpaceAround | AlignContent::SpaceEvenly
    )
}

// The unit of number f: the ratio has none, and what is no length counts as pixels.
fn unit_at(u: u32, v: u32, f: usize) -> u32
    ensures { result ≡ unit_at u v f }
{
    if f < style::LENGTHS {
        return style::unit(u, v, f as u32);
    }
    if f == style::RATIO { 0 } else { 1 }
}

// Number f as a length.
fn length_at(u: u32, v: u32, numbers: &[f32], n: usize, i: usize, f: usize) -> Length
    requires { NodeOf numbers.now n i × (f < 28) }
    ensures { result ≡ as_length u v numbers.now i f }
{
    style::length_from(unit_at(u, v, f), style::number_in(numbers, n, i, f))
}

// Some number is neither auto nor whole pixels.
fn some_broken(u: u32, v: u32, numbers: &[f32], n: usize, i: usize) -> bool
    requires { NodeOf numbers.now n i }
    ensures { result ≡ some (broken u v numbers.now i) 28 }
{
    for f in 0..style::NUMBERS {
        if !whole_length(length_at(u, v, numbers, n, i, f)) {
            return true;
        }
    }
    false
}

// Both side margins are auto.
fn sides_auto(u: u32, v: u32, numbers: &[f32], n: usize, i: usize) -> bool
    requires { NodeOf numbers.now n i }
    ensures { result ≡ sides_auto u v numbers.now i }
{
    let left = length_at(u, v, numbers, n, i, 9);
    let right = length_at(u, v, numbers, n, i, 7);
    left.is_auto() && right.is_auto()
}

// The root, or not both side margins auto.
fn one_auto(u: u32, v: u32, numbers: &[f32], n: usize, i: usize) -> bool
    requires { NodeOf numbers.now n i }
    ensures { result ≡ (eqb i 0 || not (sides_auto u v numbers.now i)) }
{
    if i == 0 {
        return true;
    }
    !sides_auto(u, v, numbers, n, i)
}

// Node i, with these words and numbers, is of the profile.
fn in_numbers(w: u32, u: u32, v: u32, numbers: &[f32], n: usize, i: usize) -> bool
    requires { NodeOf numbers.now n i }
    ensures { result ≡ in_numbers w u v numbers.now i }
{
    let ratio = style::ratio_from(style::number_in(numbers, n, i, style::RATIO));
    let align = style::align_of(w);
    !some_broken(u, v, numbers, n, i)
        && (!ratio.is_some() && (!is_center(align) && one_auto(u, v, numbers, n, i)))
}

// Node i is of the profile.
fn of_profile(words: &[u32], numbers: &[f32], n: usize, i: usize) -> bool
    requires { (n ≡ nodes_in words.now) × NodeOf numbers.now n i }
    ensures { result ≡ of_profile words.now numbers.now i }
{
    let w = style::word_in(words, i, style::STYLE);
    let u = style::word_in(words, i, style::UNITS);
    let v = style::word_in(words, i, style::MORE_UNITS);
    in_numbers(w, u, v, numbers, n, i)
}

// The lowest node that is not.
fn first_outside(words: &[u32], numbers: &[f32]) -> Option<u32>
    requires { Placed words.now numbers.now }
    ensures { result ≡ first_of (outside words.now numbers.now) (nodes_in words.now) }
{
    let n = words.len() / style::WORDS;
    for i in 0..n {
        if !of_profile(words, numbers, n, i) {
            return Some(i as u32);
        }
    }
    None
}

fn whole_question(q: LayoutInput) -> bool
    ensures { result ≡ whole_question q }
{
    let known = q.known;
    let width = known.width;
    let height = known.height;
    let parent = q.parent;
    let basis = q.basis;
    let space = q.available;
    let available = space.into_option();
    whole_option(width)
        && (whole_option(height)
            && (whole_option(parent) && (whole_option(basis) && whole_option(available))))
}

// Nowhere, or the lowest node that is not of the profile, or n where the question alone is not.
pub fn profile_spot(words: &[u32], numbers: &[f32], q: LayoutInput) -> Option<u32>
    requires { Placed words.now numbers.now }
    ensures { result ≡ profile_spot words.now numbers.now q }
{
    if let Some(k) = first_outside(words, numbers) {
        return Some(k);
    }
    if whole_question(q) {
        return None;
    }
    Some((words.len() / style::WORDS) as u32)
}
