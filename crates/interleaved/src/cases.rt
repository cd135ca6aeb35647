// One case: its lengths, its page, its events.
ghost use Rattle.std.specs.Prelude.{◌≤◌};

use day::State;
use plays::{Panel, play, start_of};
use reading::{copy_numbers, length_at, split};
use std::convert::identity;
use std::io::Stdout;
use text::bits_of;

// What a panel can be lent at most: eight nodes and eight records.
#[derive(Drop)]
struct Memory {
    rows: [f32; 128],
    marks: [u32; 16],
    pairs: [u32; 16],
    triples: [f32; 24],
    list: [u32; 65],
}

impl Memory {
    fn new() -> Memory {
        Memory {
            rows: [0.0; 128],
            marks: [0; 16],
            pairs: [0; 16],
            triples: [0.0; 24],
            list: [0; 65],
        }
    }

    fn lend(&mut self, state: State, nodes: usize, records: usize) -> Panel<'_>
        requires nodes { nodes ≤ 8 }
        requires records { records ≤ 8 }
    {
        let Memory {
            rows,
            marks,
            pairs,
            triples,
            list,
        } = self;
        Panel {
            state,
            rows: &mut rows[..16 * nodes],
            marks: &mut marks[..2 * nodes],
            pairs: &mut pairs[..2 * records],
            triples: &mut triples[..3 * records],
            list,
        }
    }
}

// What a panel is left with.
fn show(mut to: Stdout, panel: &Panel) {
    console::print_line(&mut to, panel.rows, bits_of);
    console::print_line(&mut to, panel.marks, identity);
    console::print_line(&mut to, panel.pairs, identity);
    console::print_line(&mut to, panel.triples, bits_of);
}

// A case: how many words and numbers its page has, how many records each panel is lent, how many events; then both questions, the page, the events; what stands behind it.
pub fn run_case<'a>(to: Stdout, case: &'a [u32]) -> &'a [u32] {
    let (lengths, rest) = split(case, 5);
    let w = length_at(lengths, 0, 32);
    let x = length_at(lengths, 1, 224);
    let count = length_at(lengths, 4, 4096);
    let (for_hall, rest) = split(rest, 10);
    let (for_kitchen, rest) = split(rest, 10);
    let (for_words, rest) = split(rest, w);
    let (for_numbers, events) = split(rest, x);
    let mut words = [0; 32];
    let mut numbers = [0.0; 224];
    words[..for_words.len()].copy_from_slice(for_words);
    copy_numbers(for_numbers, &mut numbers[..x]);
    let mut hall_memory = Memory::new();
    let mut kitchen_memory = Memory::new();
    let mut hall = hall_memory.lend(start_of(for_hall), w / 4, length_at(lengths, 2, 8));
    let mut kitchen = kitchen_memory.lend(start_of(for_kitchen), w / 4, length_at(lengths, 3, 8));
    let rest = play(
        to,
        events,
        count,
        &mut words[..w],
        &mut numbers[..x],
        &mut hall,
        &mut kitchen,
    );
    show(to, &hall);
    show(to, &kitchen);
    rest
}
