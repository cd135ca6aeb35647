// Runs the traces that stand on standard input, each ended by a mark, and writes what each gives.
#![tactic(auto)]

use replays::replay_output;

fn main(rt: HostRuntime) {
    let mut text = console::room::<524288>();
    let mut out = console::room::<327680>();
    let n = console::read_full(&mut rt.stdin(), &mut text);
    console::answer_files(&mut rt.stdout(), &text[..n], &mut out, replay_output);
}
