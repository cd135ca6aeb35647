// Runs the cases of the vertical index that stand on standard input: words of eight hex digits, one byte between them.
#![tactic(auto)]

mod cases;
mod show;

fn main(rt: HostRuntime) {
    let mut text = [0u8; 262144];
    let mut all = [0u32; 24000];
    let mut rows = [0.0f32; 4352];
    let mut tops = [0.0f32; 300];
    let mut bottoms = [0.0f32; 300];
    let mut running = [0.0f32; 300];
    let n = console::read_full(&mut rt.stdin(), &mut text);
    let k = reading::read_words(&text[..n], &mut all);
    reading::each_case(&all, k, |case| {
        cases::run_case(
            rt.stdout(),
            case,
            &mut rows,
            &mut tops,
            &mut bottoms,
            &mut running,
        )
    });
}
