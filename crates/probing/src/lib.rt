// The width pass, in place: probes of a container without a width, and the probe words that every row is left with.
#![tactic(auto)]

ghost use Rattle.std.specs.Prelude.{◌≡◌, ◌<◌, ◌≤◌, length};
ghost use Rattle.style.specs.Style.{plane_of, style_at};
ghost use Rattle.rows.specs.Store.{OneRow, Becomes, cleared_row};
ghost use Rattle.probing.specs.Contract.{IsTree, IsForest, Rows, RestCleared, Stands, most_past, ProbedT, AnewT, WidenedT, WidestF, PassedT};

use length::AvailableSpace;
use reader::Reader;
use steps::{LayoutInput, ProbeInput, Want};

// The levels that are left below the root.
const BELOW_ROOT: usize = tree::MAX_DEPTH - 1;

// No probe words in the first row.
fn clear_first(rows: &mut [f32], marks: &mut [u32])
    requires { OneRow rows.old marks.old }
    ensures { Becomes rows.old marks.old rows.new marks.new cleared_row }
{
    rows::clear_probes(&mut rows[0..style::ROW], &mut marks[0..style::MARKS]);
}

// No probe words in any row but the first.
fn clear_rest(rows: &mut [f32], marks: &mut [u32])
    requires { Rows rows.old marks.old }
    ensures { RestCleared rows.old marks.old rows.new marks.new }
{
    rows::clear_probes(&mut rows[style::ROW..], &mut marks[style::MARKS..]);
}

// Does the probe noted in the first row answer this one? An edit in the run of n nodes says no.
fn stands(rows: &[f32], marks: &[u32], edits: &[u32], base: usize, n: usize, q: ProbeInput) -> bool
    requires { OneRow rows.now marks.now }
    ensures { Stands rows.now marks.now edits.now base n q result }
{
    if rows::any_edit(edits, base, n) {
        return false;
    }
    rows::probe_stands(rows, marks, q)
}

// The largest width so far, past a child that is not probed.
fn most_past(want: Want, most: f32) -> f32
    ensures { result ≡ most_past want most }
{
    match want {
        Want::Nothing => most,
        Want::Outer(w) => util::f32_max(most, w),
        Want::Probe(_) => most,
    }
}

// Step F: the largest outer width of the children.
#[cycle(determine_content_based_container_width_probe_probe_anew_widen)]
fn determine_content_based_container_width(
    words: &[u32],
    numbers: &[f32],
    rows: &mut [f32],
    marks: &mut [u32],
    edits: &[u32],
    base: usize,
    depth: usize,
    a: AvailableSpace,
) -> f32
    requires { IsForest words.now numbers.now rows.old marks.old edits.now base depth }
    ensures { WidestF words.now numbers.now rows.old marks.old edits.now base a result rows.new marks.new }
{
    let mut most = 0.0f32;
    let mut i = 0usize;
    // No `for`: a step is as long as its run.
    while style::WORDS * i < words.len() {
        let e = i + style::word_in(words, i, style::SIZE) as usize;
        let i4 = style::WORDS * i;
        let e4 = style::WORDS * e;
        let i16 = style::ROW * i;
        let e16 = style::ROW * e;
        let i2 = style::MARKS * i;
        let e2 = style::MARKS * e;
        most = widen(
            &words[i4..e4],
            numbers,
            &mut rows[i16..e16],
            &mut marks[i2..e2],
            edits,
            base + i,
            depth,
            a,
            most,
        );
        i = e;
    }
    most
}

// One child: it gives nothing, its own outer width, or the answer of a probe.
#[cycle(determine_content_based_container_width_probe_probe_anew_widen)]
fn widen(
    words: &[u32],
    numbers: &[f32],
    rows: &mut [f32],
    marks: &mut [u32],
    edits: &[u32],
    base: usize,
    depth: usize,
    a: AvailableSpace,
    most: f32,
) -> f32
    requires { IsTree words.now numbers.now rows.old marks.old edits.now base depth }
    ensures { WidenedT words.now numbers.now rows.old marks.old edits.now base a most result rows.new marks.new }
{
    let r = Reader::at(words, numbers, base);
    let want = widths::want_of(r, a);
    if let Want::Probe(q) = want {
        let w = probe(words, numbers, rows, marks, edits, base, depth, q);
        return util::f32_max(most, widths::outer_width(r, a, w));
    }
    rows::clear_probes(rows, marks);
    most_past(want, most)
}

// A probe: the noted answer where it stands, else a new one, and its note.
#[cycle(determine_content_based_container_width_probe_probe_anew_widen)]
fn probe(
    words: &[u32],
    numbers: &[f32],
    rows: &mut [f32],
    marks: &mut [u32],
    edits: &[u32],
    base: usize,
    depth: usize,
    q: ProbeInput,
) -> f32
    requires { IsTree words.now numbers.now rows.old marks.old edits.now base depth }
    ensures { ProbedT words.now numbers.now rows.old marks.old edits.now base q result rows.new marks.new }
{
    let n = words.len() / style::WORDS;
    if stands(rows, marks, edits, base, n, q) {
        return rows[13];
    }
    let w = probe_anew(words, numbers, rows, marks, edits, base, depth, q);
    rows::note_probe(rows, marks, q, w);
    w
}

// A new answer: a width at once, else step F below.
#[cycle(determine_content_based_container_width_probe_probe_anew_widen)]
fn probe_anew(
    words: &[u32],
    numbers: &[f32],
    rows: &mut [f32],
    marks: &mut [u32],
    edits: &[u32],
    base: usize,
    depth: usize,
    q: ProbeInput,
) -> f32
    requires { IsTree words.now numbers.now rows.old marks.old edits.now base depth }
    ensures { AnewT words.now numbers.now rows.old marks.old edits.now base q result rows.new marks.new }
{
    let a = q.available;
    let width = widths::width_at_once(words, numbers, base, q);
    match width {
        Some(w) => {
            clear_rest(rows, marks);
            w
        }
        None => {
            let r = Reader::at(words, numbers, base);
            let inside = widths::available_inside(r, None, a);
            let most = determine_content_based_container_width(
                &words[style::WORDS..],
                numbers,
                &mut rows[style::ROW..],
                &mut marks[style::MARKS..],
                edits,
                base + 1,
                depth - 1,
                inside,
            );
            widths::width_from(r, None, most)
        }
    }
}

// The width pass of a page: the width that step F finds for the root, 0 where it is known.
pub fn width_pass(
    words: &[u32],
    numbers: &[f32],
    rows: &mut [f32],
    marks: &mut [u32],
    edits: &[u32],
    q: LayoutInput,
) -> f32
    requires { IsTree words.now numbers.now rows.old marks.old edits.now 0 32 }
    ensures { PassedT words.now numbers.now rows.old marks.old edits.now q result rows.new marks.new }
{
    let r = Reader::at(words, numbers, 0);
    let parent = q.parent;
    let asked = q.known;
    let available = q.available;
    let z = sizing::sizing_without_height_basis(r, parent);
    let known = sizing::known_dimensions(r.ratio(), z, asked);
    let width = known.width;
    match width {
        Some(_) => {
            rows::clear_probes(rows, marks);
            0.0
        }
        None => {
            clear_first(rows, marks);
            let inside = widths::available_inside(r, parent, available);
            let most = determine_content_based_container_width(
                &words[style::WORDS..],
                numbers,
                &mut rows[style::ROW..],
                &mut marks[style::MARKS..],
                edits,
                1,
                BELOW_ROOT,
                inside,
            );
            widths::width_from(r, parent, most)
        }
    }
}
