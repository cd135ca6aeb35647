// The rows of a page as text, a line for each node: its order, its bits and its sixteen numbers.
#![tactic(auto)]

ghost use Rattle.std.specs.Prelude.{◌≡◌, ◌<◌};
ghost use Rattle.print.specs.Pen.{pen, put_all};
ghost use Rattle.print.specs.Text.{each};
ghost use Rattle.rowtext.specs.RowText.{bits_text, row_number, row_line};

use lent::{number_at, word_at};
use print::{put, put_count, put_decimal, put_hex, put_number, put_text};
use tree::Order;

// A comma and a bit pattern.
fn put_bits(out: &mut [u8], at: usize, w: u32) -> usize
    ensures { pen out.new result ≡ put_all (bits_text w) (pen out.old at) }
{
    let at = put(out, at, b',');
    put_hex(out, at, w as u64, 8)
}

// The sixteen numbers of row i.
fn put_numbers(out: &mut [u8], mut at: usize, i: usize, rows: &[f32]) -> usize
    requires { i < 4294967296 }
    ensures { pen out.new result ≡ put_all (each (row_number rows.now i) 16) (pen out.old at) }
{
    for k in 0..style::ROW {
        at = put_number(out, at, number_at(rows, style::ROW * i + k));
    }
    at
}

// The line of node i.
fn put_row(out: &mut [u8], at: usize, i: usize, rows: &[f32], marks: &[u32]) -> usize
    requires { i < 4294967296 }
    ensures { pen out.new result ≡ put_all (row_line rows.now marks.now i) (pen out.old at) }
{
    let order = Order(word_at(marks, style::MARKS * i));
    let bits = word_at(marks, style::MARKS * i + 1);
    let at = put_text(out, at, b"row=");
    let at = put_decimal(out, at, i as u64, 20);
    let at = put_count(out, at, order.0 as u64);
    let at = put_bits(out, at, bits);
    let at = put_numbers(out, at, i, rows);
    put(out, at, b'\n')
}

// The lines of n nodes.
pub fn put_rows(out: &mut [u8], mut at: usize, n: usize, rows: &[f32], marks: &[u32]) -> usize
    requires { n < 4294967296 }
    ensures { pen out.new result ≡ put_all (each (row_line rows.now marks.now) n) (pen out.old at) }
{
    for i in 0..n {
        at = put_row(out, at, i, rows, marks);
    }
    at
}
