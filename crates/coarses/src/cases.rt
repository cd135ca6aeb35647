// One case: its lengths, its words, its answer.
use crate::show;
use reading::{copy_numbers, length_at, split, word_at};
use std::io::Stdout;

// A case: the lengths of words, rows, marks and output, then the first three; what stands behind it. The slices are cut to their lengths.
pub fn run_case<'a>(to: Stdout, case: &'a [u32], rows: &mut [f32], out: &mut [i32]) -> &'a [u32] {
    let (lengths, rest) = split(case, 4);
    let r = length_at(lengths, 1, rows.len());
    let o = length_at(lengths, 3, out.len());
    let rows = &mut rows[..r];
    let out = &mut out[..o];
    let (words, rest) = split(rest, word_at(lengths, 0) as usize);
    let (for_rows, rest) = split(rest, r);
    let (marks, rest) = split(rest, word_at(lengths, 2) as usize);
    copy_numbers(for_rows, rows);
    // Lent with -7 everywhere, so that what is not written shows.
    out.fill(-7);
    let answer = coarse::coarse(words, rows, marks, out);
    show::answered(to, answer);
    show::pixels(to, out);
    rest
}
