// Runs the tallest page: a root with 256 boxes of 65,536 pixels, the last of them first a pixel lower.
#![tactic(auto)]

use geometry::Size;
use length::AvailableSpace;
use std::io::{Stdout, Write};
use steps::{Question, Refusal};
use style::number_place;

const NODES: usize = 257;

// The field of a height.
const HEIGHT: usize = 1;

// The tables of that many boxes of 65,536 pixels.
fn fill(words: &mut [u32; 1028], numbers: &mut [f32; 7196]) {
    for i in 0..NODES {
        words[4 * i] = 1;
        words[4 * i + 2] = 0x5500004;
        words[4 * i + 3] = 0x55;
        numbers[number_place(NODES, i, HEIGHT)] = 65536.0;
    }
}

fn question() -> Question {
    let known = Size {
        width: None,
        height: None,
    };
    Question {
        known,
        parent: 320.0,
        definiteHeight: false,
        available: AvailableSpace::Definite(320.0),
        collapseStart: false,
        collapseEnd: false,
    }
}

fn show_height(mut to: Stdout, height: f32) {
    let text = if height == 16777215.0 {
        "height 16777215"
    } else if height == 0.0 {
        "height 0"
    } else {
        "another height"
    };
    let _ = writeln!(to, ", {text}");
}

fn show(mut to: Stdout, a: Result<u32, Refusal>, height: f32) {
    match a {
        Ok(n) => {
            console::write_all(&mut to, b"done ");
            console::print_decimal(&mut to, n as u64);
        }
        Err(Refusal::TooLarge(i)) => {
            console::write_all(&mut to, b"too large ");
            console::print_decimal(&mut to, i.0 as u64);
        }
        _ => {
            console::write_all(&mut to, b"refused");
        }
    }
    show_height(to, height);
}

fn main(rt: HostRuntime) {
    let mut words = [0; 1028];
    let mut numbers = [0.0; 7196];
    let mut rows = [0.0; 4112];
    let mut marks = [0; 514];
    let mut pairs = [0; 2];
    let mut triples = [0.0; 3];
    let q = question();
    fill(&mut words, &mut numbers);
    words[0] = 257;
    words[2] = 0x5500000;
    numbers[number_place(NODES, 0, HEIGHT)] = 0.0;
    for last in [65535.0, 65536.0] {
        numbers[number_place(NODES, NODES - 1, HEIGHT)] = last;
        let a = layout::layout(
            &words,
            &numbers,
            &mut rows,
            &mut marks,
            &mut pairs,
            &mut triples,
            q,
        );
        show(rt.stdout(), a, rows[3]);
    }
}
