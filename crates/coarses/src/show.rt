// Writes answers and whole pixels.
use coarse::CoarseRefusal;
use std::io::{Stdout, Write};
use steps::{Refusal, number_of, place_of};

fn put(mut to: Stdout, t: &[u8]) {
    console::write_all(&mut to, t);
}

// The number of an answer and its place.
fn answer(mut to: Stdout, number: u32, place: u32) {
    let _ = write!(to, "{number} {place}");
}

// One of the noes that coarse shares with the other calls.
fn refusal(to: Stdout, no: Refusal) {
    answer(to, number_of(Err(no)), place_of(Err(no)));
}

pub fn answered(to: Stdout, a: Result<(), CoarseRefusal>) {
    match a {
        Ok(()) => answer(to, 0, 0),
        Err(CoarseRefusal::Plain(no)) => refusal(to, no),
        Err(CoarseRefusal::TooFar(i)) => answer(to, 12, i.0),
    }
}

// A line of whole numbers.
pub fn pixels(mut to: Stdout, a: &[i32]) {
    for v in a {
        let _ = write!(to, " {v}");
    }
    put(to, b"\n");
}
