// The candidate list, from finished rows.
#![tactic(auto)]

ghost use Rattle.std.specs.Prelude.{◌≡◌, ◌*◌, ◌≤◌, length};
ghost use Rattle.candidates.specs.Gathered.{AllMoved, GivenT, GivenF, GathersT, GathersF, RoomOne, RecordPut};

use geometry::Line;
use tree::{NodeId, Order};

// Adds a place to the first n records: x to start and end, y to line.
fn move_records(triples: &mut [f32], n: usize, x: f32, y: f32)
    requires { 3 * n ≤ length triples.old }
    ensures { AllMoved triples.old n x y triples.new }
{
    for i in 0..n {
        let k = 3 * i;
        triples[k] = triples[k] + x;
        triples[k + 1] = triples[k + 1] + x;
        triples[k + 2] = triples[k + 2] + y;
    }
}

// One record at the front.
fn put_record(
    pairs: &mut [u32],
    triples: &mut [f32],
    node: NodeId,
    order: Order,
    edges: Line,
    line: f32,
)
    requires { RoomOne pairs.old triples.old }
    ensures { RecordPut pairs.old triples.old node.0 order.0 edges.start edges.end line pairs.new triples.new }
{
    pairs[0] = node.0;
    pairs[1] = order.0;
    triples[0] = edges.start;
    triples[1] = edges.end;
    triples[2] = line;
}

// The records of a forest, in preorder; how many.
#[cycle(gather_gather_child)]
pub fn gather(
    words: &[u32],
    rows: &[f32],
    marks: &[u32],
    base: usize,
    pairs: &mut [u32],
    triples: &mut [f32],
) -> usize
    requires { GivenF words.now rows.now marks.now base pairs.old triples.old }
    ensures { GathersF words.now rows.now marks.now base pairs.old triples.old result pairs.new triples.new }
{
    let mut used = 0usize;
    let mut a = 0usize;
    // No `for`: a step is as long as its run.
    while style::WORDS * a < words.len() {
        let e = a + style::word(words, a, style::SIZE) as usize;
        let a4 = style::WORDS * a;
        let e4 = style::WORDS * e;
        let a16 = style::ROW * a;
        let e16 = style::ROW * e;
        let a2 = style::MARKS * a;
        let e2 = style::MARKS * e;
        let u2 = 2 * used;
        let u3 = 3 * used;
        used += gather_child(
            &words[a4..e4],
            &rows[a16..e16],
            &marks[a2..e2],
            base + a,
            &mut pairs[u2..],
            &mut triples[u3..],
        );
        a = e;
    }
    used
}

// The records of one tree: if laid, those below, moved by its place; itself if out of flow.
#[cycle(gather_gather_child)]
fn gather_child(
    words: &[u32],
    rows: &[f32],
    marks: &[u32],
    base: usize,
    pairs: &mut [u32],
    triples: &mut [f32],
) -> usize
    requires { GivenT words.now rows.now marks.now base pairs.old triples.old }
    ensures { GathersT words.now rows.now marks.now base pairs.old triples.old result pairs.new triples.new }
{
    let bits = marks[1];
    if style::flag(bits, steps::LAID) {
        let n = gather(
            &words[style::WORDS..],
            &rows[style::ROW..],
            &marks[style::MARKS..],
            base + 1,
            pairs,
            triples,
        );
        move_records(triples, n, rows[0], rows[1]);
        return n;
    }
    if style::flag(bits, steps::OUT_OF_FLOW) {
        let node = NodeId(base as u32);
        let order = Order(marks[0]);
        let edges = Line {
            start: rows[0],
            end: rows[2],
        };
        put_record(pairs, triples, node, order, edges, rows[1]);
        return 1;
    }
    0
}
