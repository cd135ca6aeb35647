// Standard input and output for the programs: bytes and numbers, with no memory but what the caller lends.
#![tactic(auto)]

ghost use Rattle.std.specs.Prelude.{◌≡◌, ℕ, List, ◌∷◌, ◌≤◌, ◌++◌, length, slice_index, EachIndex, take, IsTrue, decimal};
ghost use Rattle.std.specs.Io.KnownBytes.{Appends, Consumes};
ghost use Rattle.console.specs.Digits.{eight_hex};
ghost use Rattle.console.specs.Files.{Said, Answered};
ghost use Rattle.console.specs.Lines.{line_of, Worded};
ghost use Rattle.console.specs.Marks.{mark, SplitsAtMark};

use std::io::{Read, Write};

// Writes all of `bytes`: false if a write fails, when some of them may have been written.
pub fn write_all<W: Write>(to: &mut W, bytes: &[u8]) -> bool
    ensures { IsTrue result → Appends (W.contents to.old) (W.contents to.new) bytes.now }
{
    to.write_all(bytes).is_ok()
}

// Zeros. A caller's proof knows them by these clauses: one that computed with half a million zeros would not end.
pub fn room<const N: usize>() -> [u8; N]
    ensures length { length result ≡ N }
    ensures zeros { EachIndex result (λ k. slice_index result k ≡ 0) }
{
    [0; N]
}

// Reads until `room` is full, the input ends or a read fails: how many bytes now stand at its start.
pub fn read_full<R: Read>(from: &mut R, room: &mut [u8]) -> usize
    ensures within { result ≤ length room.new }
    ensures bytes { Consumes (R.remaining from.old) (R.remaining from.new) (take result room.new) }
{
    let mut done = 0;
    // No `for`: a step is what a read gave.
    while done < room.len() {
        match from.read(&mut room[done..]) {
            Ok(0) => return done,
            Ok(n) => done += n,
            Err(_) => return done,
        }
    }
    done
}

// Writes `n` in decimal: false if a write fails.
pub fn print_decimal<W: Write>(to: &mut W, n: u64) -> bool
    ensures { IsTrue result → Appends (W.contents to.old) (W.contents to.new) (decimal n) }
{
    write!(to, "{n}").is_ok()
}

// Writes `n` as eight hexadecimal digits: false if a write fails.
pub fn print_hex<W: Write>(to: &mut W, n: u32) -> bool
    ensures { IsTrue result → Appends (W.contents to.old) (W.contents to.new) (eight_hex n) }
{
    write!(to, "{n:08x}").is_ok()
}

// A blank, and a word in hexadecimal.
fn print_word<W: Write>(to: &mut W, word: u32) -> bool
    ensures { IsTrue result → Appends (W.contents to.old) (W.contents to.new) (32 ∷ eight_hex word) }
{
    let blank = write_all(to, b" ");
    print_hex(to, word) && blank
}

// Writes a line: the word of each number in hexadecimal, a blank in front of it. False if a write fails.
pub fn print_line<W: Write, T: Copy, F: Fn(T) -> u32>(to: &mut W, numbers: &[T], word: F) -> bool
    requires { F.IsAlwaysCallable word }
    ensures { IsTrue result → (words : List ℕ) × Worded (F.post word) numbers.now words × Appends (W.contents to.old) (W.contents to.new) (line_of words) }
{
    let mut written = true;
    for number in numbers {
        written = print_word(to, word(*number)) && written;
    }
    write_all(to, b"\n") && written
}

// Ends each file where several stand in one text.
const MARK: &[u8] = b"====\n";

// The text before the first mark, and the text behind that mark; with no mark all of it, and nothing.
fn split_at_mark(text: &[u8]) -> (&[u8], &[u8])
    ensures { SplitsAtMark text.now result.0.now result.1.now }
{
    match text.windows(MARK.len()).position(|w| w == MARK) {
        Some(at) => (&text[..at], &text[at + MARK.len()..]),
        None => (text, &[]),
    }
}

// Writes what `answer` gives for a file, and a mark: false if a write fails. It puts its answer at the start of `room` and says how long that is.
pub fn answer_file<W: Write, F: Fn(&[u8], &mut [u8]) -> usize>(
    to: &mut W,
    file: &[u8],
    room: &mut [u8],
    answer: F,
) -> bool
    requires callable { F.IsAlwaysCallable answer }
    requires within { (f : _) (r : _) (n : _) (r' : _) → F.post answer f r n r' → n ≤ length r'.now }
    ensures { IsTrue result → (f : _) × (r : _) × (n : ℕ) × (r' : _) × F.post answer f r n r'
        × (f.now ≡ file.now) × (r.now ≡ room.old) × (r'.now ≡ room.new)
        × Appends (W.contents to.old) (W.contents to.new) (take n room.new ++ mark) }
{
    let n = answer(file, room);
    let written = write_all(to, &room[..n]);
    write_all(to, MARK) && written
}

// The same for each file of a text: false if a write fails.
pub fn answer_files<W: Write, F: Fn(&[u8], &mut [u8]) -> usize>(
    to: &mut W,
    text: &[u8],
    room: &mut [u8],
    answer: F,
) -> bool
    requires callable { F.IsAlwaysCallable answer }
    requires within { (f : _) (r : _) (n : _) (r' : _) → F.post answer f r n r' → n ≤ length r'.now }
    ensures { IsTrue result → (k : ℕ) × (out : List ℕ) × Answered (Said (F.post answer)) k room.old text.now out × Appends (W.contents to.old) (W.contents to.new) out }
{
    let mut rest = text;
    let mut written = true;
    // No `for`: a step is a file and its mark.
    while !rest.is_empty() {
        let (file, behind) = split_at_mark(rest);
        written = answer_file(to, file, room, &answer) && written;
        rest = behind;
    }
    written
}

#[cfg(test)]
mod tests {
    use super::*;
    use std::io;

    // Gives one byte a read, and fails at the fourth.
    #[derive(Drop)]
    struct Drips {
        given: u8,
    }

    impl Read for Drips {
        fn read(&mut self, buf: &mut [u8]) -> io::Result<usize> {
            if self.given >= 3 {
                return Err(io::Error::from(io::ErrorKind::Other));
            }
            if buf.is_empty() {
                return Ok(0);
            }
            buf[0] = b'a' + self.given;
            self.given += 1;
            Ok(1)
        }
    }

    #[test]
    fn failed_read_keeps_what_came(rt: HostRuntime) {
        let mut from = Drips { given: 0 };
        let mut room = [0u8; 5];
        let n = read_full(&mut from, &mut room);
        assert_eq!(rt; n, 3);
        assert!(rt; room == *b"abc\0\0");
    }

    #[test]
    fn numbers_and_a_full_writer(rt: HostRuntime) {
        let mut room = [0u8; 14];
        let mut to = &mut room[..];
        assert!(rt; print_decimal(&mut to, 4711));
        assert!(rt; write_all(&mut to, b" "));
        assert!(rt; print_hex(&mut to, 0xbeef));
        assert!(rt; !write_all(&mut to, b"ab"));
        assert!(rt; room == *b"4711 0000beefa");
    }
}
