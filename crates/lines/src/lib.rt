// Lines of text in a lent buffer: a word, numbers in decimal, a newline (document 01, "The program").
#![tactic(auto)]

ghost use Rattle.std.specs.Prelude.{[], ◌∷◌, ◌+◌, ◌≤◌, length};
ghost use Rattle.spelling.specs.Decimal.{decimal};
ghost use Rattle.spelling.specs.Lines.{numbered, line_of, pair_line_of};
ghost use Rattle.lines.specs.Lines.{WrittenTo};

use itoa::Buffer;

// Writes n in decimal at a place of the buffer and answers the place behind it.
pub fn put_decimal(out: &mut [u8], at: usize, n: u64) -> usize
    requires { at + length (decimal n) ≤ length out.old }
    ensures { WrittenTo out.old at (decimal n) out.new result }
{
    let mut buffer = Buffer::new();
    put_text(out, at, buffer.format(n).as_bytes())
}

// Writes a text at a place of the buffer and answers the place behind it.
pub fn put_text(out: &mut [u8], at: usize, text: &[u8]) -> usize
    requires { at + length text.now ≤ length out.old }
    ensures { WrittenTo out.old at text.now out.new result }
{
    writing::put_bytes(text, out, at);
    at + text.len()
}

// Writes one character.
#[tactic(auto, using(crate::proofs::Laws::characters))]
fn put_character(out: &mut [u8], at: usize, c: u8) -> usize
    requires { at + 1 ≤ length out.old }
    ensures { WrittenTo out.old at (c ∷ []) out.new result }
{
    out[at] = c;
    at + 1
}

// Writes a space and a number.
fn put_number(out: &mut [u8], at: usize, n: u64) -> usize
    requires { at + length (numbered n) ≤ length out.old }
    ensures { WrittenTo out.old at (numbered n) out.new result }
{
    let next = put_character(out, at, b' ');
    put_decimal(out, next, n)
}

// Writes a line of a word and a number.
pub fn put_line(out: &mut [u8], at: usize, word: &[u8], n: u64) -> usize
    requires { at + length (line_of word.now n) ≤ length out.old }
    ensures { WrittenTo out.old at (line_of word.now n) out.new result }
{
    let first = put_text(out, at, word);
    let second = put_number(out, first, n);
    put_character(out, second, b'\n')
}

// Writes a line of a word and two numbers.
pub fn put_pair_line(out: &mut [u8], at: usize, word: &[u8], n: u64, m: u64) -> usize
    requires { at + length (pair_line_of word.now n m) ≤ length out.old }
    ensures { WrittenTo out.old at (pair_line_of word.now n m) out.new result }
{
    let first = put_text(out, at, word);
    let second = put_number(out, first, n);
    let third = put_number(out, second, m);
    put_character(out, third, b'\n')
}
