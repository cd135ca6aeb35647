// Test cases as text: words of eight hex digits, one byte between them, and numbers out of words.
#![tactic(auto)]

ghost use Rattle.std.specs.Prelude.{◌≡◌, ◌≤◌, length, take, drop};

// A word of eight digits; 0 for what is no word.
fn read_word(digits: &[u8]) -> u32 {
    text::hex(digits).unwrap_or(0)
}

// The words of the text, and how many. A piece is eight digits and the byte after them.
pub fn read_words(text: &[u8], all: &mut [u32]) -> usize
    ensures { result ≤ length all.old }
{
    for (word, piece) in all.iter_mut().zip(text.chunks_exact(9)) {
        if let [digits @ .., _] = piece {
            *word = read_word(digits);
        }
    }
    all.len().min(text.len() / 9)
}

// Word k, and 0 past the end.
pub fn word_at(all: &[u32], k: usize) -> u32 {
    all.get(k).copied().unwrap_or(0)
}

// Word k as a length, at most this.
pub fn length_at(all: &[u32], k: usize, most: usize) -> usize
    ensures { result ≤ most }
{
    most.min(word_at(all, k) as usize)
}

// The words as numbers, and 0 past the last.
pub fn copy_numbers(words: &[u32], out: &mut [f32]) {
    for (k, number) in out.iter_mut().enumerate() {
        *number = text::float_of(word_at(words, k));
    }
}

// Of each row y and height are given, the rest is 0.
pub fn copy_rows(words: &[u32], rows: &mut [f32]) {
    for (i, row) in rows.chunks_exact_mut(16).enumerate() {
        row[1] = text::float_of(word_at(words, 2 * i));
        row[3] = text::float_of(word_at(words, 2 * i + 1));
    }
}

// The first n words, or all if there are fewer, and those after them.
pub fn split(words: &[u32], n: usize) -> (&[u32], &[u32])
    ensures front { result.0.now ≡ take n words.now }
    ensures rest { result.1.now ≡ drop n words.now }
{
    words.split_at(n.min(words.len()))
}

// All cases of the first n words, a thousand at most: `run` takes one off the front and gives what is left.
// A case that is cut off goes on with what stands behind the n words.
pub fn each_case<'a, F: FnMut(&'a [u32]) -> &'a [u32]>(all: &'a [u32], n: usize, mut run: F)
    requires { F.IsAlwaysCallable run }
{
    let behind = all.len().saturating_sub(n);
    let mut rest = all;
    for _ in 0..1000 {
        if rest.len() <= behind {
            return;
        }
        let left = run(rest);
        rest = left;
    }
}
