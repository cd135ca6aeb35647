// Runs the days of two panels that stand on standard input: words of eight hex digits, one byte between them.
#![tactic(auto)]

mod cases;

fn main(rt: HostRuntime) {
    let mut text = [0u8; 262144];
    let mut all = [0u32; 28000];
    let n = console::read_full(&mut rt.stdin(), &mut text);
    let k = reading::read_words(&text[..n], &mut all);
    reading::each_case(&all, k, |case| cases::run_case(rt.stdout(), case));
}
