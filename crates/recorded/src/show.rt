// Writes two answers side by side.
use records::Record;
use std::fmt;
use std::io::{Stdout, Write};
use steps::{Refusal, number_of, place_of};
use text::bits_of;

pub fn text(mut to: Stdout, t: &[u8]) {
    console::write_all(&mut to, t);
}

// Number and place.
pub fn answers(mut to: Stdout, a: Result<u32, Refusal>, b: Result<u32, Refusal>) {
    let _ = writeln!(
        to,
        "  answer {} {} | {} {}",
        number_of(a),
        place_of(a),
        number_of(b),
        place_of(b)
    );
}

// Node, order, and the numbers by their bits, as the page file has them.
#[derive(Clone, Copy)]
struct Shown(Record);

impl fmt::Display for Shown {
    fn fmt<W: fmt::Write>(&self, f: &mut fmt::Formatter<W>) -> fmt::Result {
        let Shown(r) = *self;
        write!(
            f,
            "{} {} {:08x} {:08x} {:08x}",
            r.node.0,
            r.order.0,
            bits_of(r.start),
            bits_of(r.end),
            bits_of(r.line)
        )
    }
}

pub fn record(mut to: Stdout, r: Record, plain: Record) {
    let _ = writeln!(to, "  record {} | {}", Shown(r), Shown(plain));
}
