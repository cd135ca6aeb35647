// Reads a trace file from standard input and writes the answer of each event and the last rows to standard output. If that fails, it says so on standard error.
#![tactic(auto)]

fn main(rt: HostRuntime) {
    // A byte more than a trace file may have, so that a longer one is seen to be too long.
    let mut text = console::room::<524288>();
    let n = console::read_full(&mut rt.stdin(), &mut text);
    let mut out = console::room::<327680>();
    let k = replays::replay_output(&text[..n], &mut out);
    if !console::write_all(&mut rt.stdout(), &out[..k]) {
        console::write_all(&mut rt.stderr(), b"replay: the output was lost\n");
    }
}
