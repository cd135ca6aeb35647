// Reads a page file from standard input and writes its answer to standard output. If that fails, it says so on standard error.
#![tactic(auto)]

fn main(rt: HostRuntime) {
    // A byte more than a page file may have, so that a longer one is seen to be too long.
    let mut text = console::room::<262144>();
    let n = console::read_full(&mut rt.stdin(), &mut text);
    let mut out = console::room::<131072>();
    let k = pages::page_output(&text[..n], &mut out);
    if !console::write_all(&mut rt.stdout(), &out[..k]) {
        console::write_all(&mut rt.stderr(), b"mearrasot: the output was lost\n");
    }
}
