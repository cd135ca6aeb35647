// Writes answers.
use index::IndexRefusal;
use scroll::ScrollRefusal;
use std::io::{Stdout, Write};
use steps::{Refusal, number_of, place_of};

fn put(mut to: Stdout, t: &[u8]) {
    console::write_all(&mut to, t);
}

// The number of an answer and its place.
fn answer(mut to: Stdout, number: u32, place: u32) {
    let _ = write!(to, "{number} {place}");
}

// One of the noes that an index shares with the other calls.
fn refusal(to: Stdout, no: Refusal) {
    answer(to, number_of(Err(no)), place_of(Err(no)));
}

pub fn indexed(to: Stdout, a: Result<(), IndexRefusal>) {
    match a {
        Ok(()) => answer(to, 0, 0),
        Err(IndexRefusal::Plain(no)) => refusal(to, no),
        Err(IndexRefusal::BadEntry(k)) => answer(to, 9, k),
    }
}

pub fn found(mut to: Stdout, a: Result<Option<usize>, ScrollRefusal>) {
    match a {
        Ok(Some(k)) => {
            put(to, b"0 0 found ");
            console::print_decimal(&mut to, k as u64);
            put(to, b"\n");
        }
        Ok(None) => put(to, b"0 0 found none\n"),
        Err(ScrollRefusal::NotFinite) => put(to, b"10 0\n"),
    }
}
