// Writes rows and candidates, two answers side by side.
use crate::page::{NODES, RECORDS};
use std::fmt;
use std::io::{Stdout, Write};
use steps::{Refusal, number_of, place_of};
use text::bits_of;

// What a call answered and left.
#[derive(Clone, Copy)]
pub struct Left {
    pub answer: Result<u32, Refusal>,
    pub rows: [f32; 208],
    pub marks: [u32; 26],
    pub pairs: [u32; 4],
    pub triples: [f32; 6],
}

pub fn text(mut to: Stdout, t: &[u8]) {
    console::write_all(&mut to, t);
}

// What whole number these bits are, if they are 0 or from 1 on: 23 of them and a leading 1, shifted by what the exponent lacks to 150.
fn whole(bits: u32) -> Option<u32> {
    if bits == 0 {
        return Some(0);
    }
    let exponent = bits >> 23;
    if exponent < 127 || exponent > 150 {
        return None;
    }
    let digits = (bits & 0x7f_ffff) | 0x80_0000;
    let whole = digits >> (150 - exponent);
    if whole << (150 - exponent) == digits {
        Some(whole)
    } else {
        None
    }
}

// Whole pixels in decimal, with the sign of a zero too; any other number by its sign and the bits of the rest.
#[derive(Clone, Copy)]
struct Pixels(f32);

impl fmt::Display for Pixels {
    fn fmt<W: fmt::Write>(&self, f: &mut fmt::Formatter<W>) -> fmt::Result {
        let bits = bits_of(self.0);
        if bits >= 0x8000_0000 {
            write!(f, "-")?;
        }
        let unsigned = bits & 0x7fff_ffff;
        match whole(unsigned) {
            Some(n) => write!(f, "{n}"),
            None => write!(f, "0x{unsigned:08x}"),
        }
    }
}

// Numbers in a row, a blank in front of each.
#[derive(Clone, Copy)]
struct Numbers<'a>(&'a [f32]);

impl fmt::Display for Numbers<'_> {
    fn fmt<W: fmt::Write>(&self, f: &mut fmt::Formatter<W>) -> fmt::Result {
        for x in self.0 {
            write!(f, " {}", Pixels(*x))?;
        }
        Ok(())
    }
}

// A line for the numbers and places of two answers, if one of them is a refusal.
pub fn refusals(mut to: Stdout, a: Result<u32, Refusal>, b: Result<u32, Refusal>) {
    if number_of(a) != 0 || number_of(b) != 0 {
        let _ = writeln!(
            to,
            "  answers {} {} | {} {}",
            number_of(a),
            place_of(a),
            number_of(b),
            place_of(b)
        );
    }
}

// A line with place and size for a laid node; a node that only one of the two laid has a line as well.
pub fn nodes(mut to: Stdout, left: &Left, fresh: &Left) {
    let rows = &left.rows;
    let fresh_rows = &fresh.rows;
    for i in 0..NODES {
        if left.marks[2 * i + 1] & 1 == 1 || fresh.marks[2 * i + 1] & 1 == 1 {
            let at = 16 * i;
            let place = Numbers(&rows[at..at + 4]);
            let fresh_place = Numbers(&fresh_rows[at..at + 4]);
            let _ = writeln!(to, "  {i}:{place} |{fresh_place}");
        }
    }
}

// Node, order, start, end and line of each record below the count.
pub fn candidates(mut to: Stdout, left: &Left, fresh: &Left) {
    let triples = &left.triples;
    let fresh_triples = &fresh.triples;
    let count = place_of(left.answer) as usize;
    for k in 0..RECORDS.min(count) {
        let at = 3 * k;
        let _ = writeln!(
            to,
            "  candidate {} {}{} | {} {}{}",
            left.pairs[2 * k],
            left.pairs[2 * k + 1],
            Numbers(&triples[at..at + 3]),
            fresh.pairs[2 * k],
            fresh.pairs[2 * k + 1],
            Numbers(&fresh_triples[at..at + 3])
        );
    }
}
