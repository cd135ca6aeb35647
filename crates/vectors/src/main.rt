// Runs the pages that stand on standard input, each ended by a mark, and writes what each gives.
#![tactic(auto)]

use pages::page_output;
use std::io::Stdout;

// The bytes of `line` again and again.
fn repeat(text: &mut [u8], line: &[u8]) {
    for (byte, b) in text.iter_mut().zip(line.iter().cycle()) {
        *byte = *b;
    }
}

// One node and its width, said over and over: as long as a file may be, up to its last digit and newline, and a byte longer.
fn run_long(mut to: Stdout, text: &mut [u8; 524288], out: &mut [u8]) {
    let head =
        b"nodes=000000000000000000001\nparent=00000000\nknown=none,none\navail=max\nlines=0,0,0\nnode=00000001,00000000,05555000,00000055\n";
    repeat(text, head);
    repeat(&mut text[head.len()..], b"num=0,00000000\n");
    for size in 262141..=262144 {
        console::answer_file(&mut to, &text[..size], out, page_output);
    }
}

fn main(rt: HostRuntime) {
    let mut text = console::room::<524288>();
    let mut out = console::room::<131072>();
    let mut to = rt.stdout();
    let n = console::read_full(&mut rt.stdin(), &mut text);
    console::answer_files(&mut to, &text[..n], &mut out, page_output);
    run_long(to, &mut text, &mut out);
}
