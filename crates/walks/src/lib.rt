// Walks over the rows of a run: step M, and what stands below a kept node.
#![tactic(auto)]

ghost use Rattle.std.specs.Prelude.{◌≡◌, ◌||◌};
ghost use Rattle.style.specs.Codes.{flag_at};
ghost use Rattle.walks.specs.Tables.{IsRows, LoweredRows, IsBelow, KeptBelow, lowered_y};

use geometry::Line;
use style::Flow;
use tree::Order;

fn moves(bits: u32) -> bool
    ensures { result ≡ (flag_at bits 0 || flag_at bits 2) }
{
    if style::flag(bits, steps::LAID) {
        return true;
    }
    style::flag(bits, steps::OUT_OF_FLOW)
}

fn lowered_by(y: f32, bits: u32, shift: f32) -> f32
    ensures { result ≡ lowered_y y bits shift }
{
    util::pick(moves(bits), y + shift, y)
}

// Step M: moves the place y or the line of each tree of a forest.
pub fn lower(words: &[u32], rows: &mut [f32], marks: &[u32], shift: f32)
    requires { IsRows words.now rows.old marks.now }
    ensures { LoweredRows words.now rows.old marks.now shift rows.new }
{
    let mut a = 0usize;
    // No `for`: a step is as long as its run.
    while style::WORDS * a < words.len() {
        let y = style::ROW * a + 1;
        let m = style::MARKS * a + 1;
        rows[y] = lowered_by(rows[y], marks[m], shift);
        a += style::word(words, a, style::SIZE) as usize;
    }
}

// Below a kept node: kind and position fix bits 0 and 2 and what is zero; the rest stays.
pub fn keep_below(words: &[u32], rows: &mut [f32], marks: &mut [u32])
    requires { IsBelow words.now rows.old marks.old }
    ensures { KeptBelow words.now rows.old marks.old rows.new marks.new }
{
    let mut i = 0usize;
    // No `for`: a step is as long as its run.
    while style::WORDS * i < words.len() {
        let e = i + style::word(words, i, style::SIZE) as usize;
        let i16 = style::ROW * i;
        let e16 = style::ROW * e;
        let i2 = style::MARKS * i;
        let e2 = style::MARKS * e;
        let flow = style::flow_at(style::word(words, i, style::STYLE));
        match flow {
            Flow::Gone => {
                let order = Order(marks[i2]);
                rows::put_hidden(&mut rows[i16..e16], &mut marks[i2..e2], order);
                i = e;
            }
            Flow::Out => {
                let edges = Line {
                    start: rows[i16],
                    end: rows[i16 + 2],
                };
                let line = rows[i16 + 1];
                let order = Order(marks[i2]);
                rows::put_aside(&mut rows[i16..e16], &mut marks[i2..e2], edges, line, order);
                i = e;
            }
            Flow::In => {
                marks[i2 + 1] = rows::laid_bits(marks[i2 + 1]);
                i += 1;
            }
        }
    }
}
