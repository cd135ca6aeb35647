// One case: its lengths, its words, its answer.
use crate::show;
use reading::{copy_numbers, copy_rows, length_at, split, word_at};
use std::io::Stdout;
use text::{bits_of, float_of};

// Tops, bottoms and running as lent, and what stands behind them.
fn fill_index<'a>(
    words: &'a [u32],
    tops: &mut [f32],
    bottoms: &mut [f32],
    running: &mut [f32],
) -> &'a [u32] {
    let (for_tops, rest) = split(words, tops.len());
    let (for_bottoms, rest) = split(rest, bottoms.len());
    let (for_running, rest) = split(rest, running.len());
    copy_numbers(for_tops, tops);
    copy_numbers(for_bottoms, bottoms);
    copy_numbers(for_running, running);
    rest
}

// An index: the lengths of words, rows, marks, list, tops, bottoms and running, then their words; what stands behind it. The slices are cut to their lengths.
fn run_index<'a>(
    mut to: Stdout,
    case: &'a [u32],
    rows: &mut [f32],
    tops: &mut [f32],
    bottoms: &mut [f32],
    running: &mut [f32],
) -> &'a [u32] {
    let (lengths, rest) = split(case, 8);
    let r = length_at(lengths, 2, rows.len());
    let t = length_at(lengths, 5, tops.len());
    let b = length_at(lengths, 6, bottoms.len());
    let o = length_at(lengths, 7, running.len());
    let rows = &mut rows[..r];
    let tops = &mut tops[..t];
    let bottoms = &mut bottoms[..b];
    let running = &mut running[..o];
    let (words, rest) = split(rest, word_at(lengths, 1) as usize);
    let (for_rows, rest) = split(rest, 2 * (r / 16));
    let (marks, rest) = split(rest, word_at(lengths, 3) as usize);
    let (list, rest) = split(rest, word_at(lengths, 4) as usize);
    copy_rows(for_rows, rows);
    let rest = fill_index(rest, tops, bottoms, running);
    let answer = index::make_index(words, rows, marks, list, tops, bottoms, running);
    show::indexed(to, answer);
    console::print_line(&mut to, tops, bits_of);
    console::print_line(&mut to, bottoms, bits_of);
    console::print_line(&mut to, running, bits_of);
    rest
}

// A scroll key: the length of the slice, y, then the slice; what stands behind it.
fn run_scroll<'a>(to: Stdout, case: &'a [u32], running: &mut [f32]) -> &'a [u32] {
    let (head, rest) = split(case, 3);
    let n = length_at(head, 1, running.len());
    let y = float_of(word_at(head, 2));
    let (words, rest) = split(rest, n);
    let running = &mut running[..n];
    copy_numbers(words, running);
    show::found(to, scroll::scroll(running, y));
    rest
}

// The case at the front of the words, by its first word; what stands behind it.
pub fn run_case<'a>(
    to: Stdout,
    case: &'a [u32],
    rows: &mut [f32],
    tops: &mut [f32],
    bottoms: &mut [f32],
    running: &mut [f32],
) -> &'a [u32] {
    if word_at(case, 0) == 0 {
        run_index(to, case, rows, tops, bottoms, running)
    } else {
        run_scroll(to, case, running)
    }
}
