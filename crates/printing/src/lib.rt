// Lines of answer, for a writer: a word and its numbers, a refusal, and bytes in hexadecimal, with `touched` before an answer that came with a change of a
// byte which it must keep.
#![tactic(auto)]

use fields::{behind, front, is_kept};
use refusals::Refusal;
use std::io;
use std::io::Write;

// How many bytes are printed in hexadecimal with one writing.
const PORTION: usize = 8192;

// Prints a text as a line.
pub fn print_text<W: Write>(out: &mut W, line: &[u8]) -> io::Result<()> {
    out.write_all(line)?;
    out.write_all(b"\n")
}

// Prints a line of a word and a number.
pub fn print_count<W: Write>(out: &mut W, word: &[u8], n: u64) -> io::Result<()> {
    out.write_all(word)?;
    writeln!(out, "{n}")
}

// Prints a line of a word and two numbers.
pub fn print_pair<W: Write>(out: &mut W, word: &[u8], m: usize, n: usize) -> io::Result<()> {
    out.write_all(word)?;
    writeln!(out, "{m} {n}")
}

// Prints a refusal: its number and its place.
pub fn print_refusal<W: Write>(out: &mut W, refusal: Refusal) -> io::Result<()> {
    let numbered = refusals::Numbered::from(refusal);
    print_pair(
        out,
        b"refused ",
        usize::from(numbered.number),
        numbered.place,
    )
}

// Prints the end of a round.
pub fn print_end<W: Write>(out: &mut W, same: bool) -> io::Result<()> {
    if same {
        out.write_all(b"end same\n")
    } else {
        out.write_all(b"end different\n")
    }
}

// Prints the next words of a round.
pub fn print_next<W: Write>(out: &mut W, u: &[u8], v: &[u8], p: &[u8]) -> io::Result<()> {
    out.write_all(b"next ")?;
    print_bytes(out, u)?;
    out.write_all(b" ")?;
    print_bytes(out, v)?;
    out.write_all(b" ")?;
    print_bytes(out, p)?;
    out.write_all(b"\n")
}

// Prints a sheet, the first bytes of a buffer, and before it whether a byte behind it was changed.
pub fn print_sheet<W: Write>(out: &mut W, buffer: &[u8], n: usize) -> io::Result<()> {
    print_touched(out, behind(buffer, n))?;
    out.write_all(b"sheet ")?;
    print_bytes(out, front(buffer, n))?;
    out.write_all(b"\n")
}

// Prints a word that stands in a buffer from an offset on, behind the name of its call, and before it whether a byte outside it was changed.
pub fn print_placed<W: Write>(
    out: &mut W,
    name: &[u8],
    buffer: &[u8],
    offset: usize,
    letters: usize,
) -> io::Result<()> {
    let placed = behind(buffer, offset);
    if !(is_kept(front(buffer, offset)) && is_kept(behind(placed, letters))) {
        out.write_all(b"touched ")?;
    }
    out.write_all(name)?;
    write!(out, "{letters} ")?;
    print_bytes(out, front(placed, letters))?;
    out.write_all(b"\n")
}

// Tells of each of a round's three buffers whether a byte that it must keep was changed.
pub fn print_touches<W: Write>(out: &mut W, nu: &[u8], nv: &[u8], np: &[u8]) -> io::Result<()> {
    print_touched(out, nu)?;
    print_touched(out, nv)?;
    print_touched(out, np)
}

// Tells that a byte is not what its buffer was filled with.
pub fn print_touched<W: Write>(out: &mut W, bytes: &[u8]) -> io::Result<()> {
    if is_kept(bytes) {
        return Ok(());
    }
    out.write_all(b"touched ")
}

// Prints bytes in hexadecimal, `-` being none.
pub fn print_bytes<W: Write>(out: &mut W, bytes: &[u8]) -> io::Result<()> {
    if bytes.is_empty() {
        return out.write_all(b"-");
    }
    for portion in bytes.chunks(PORTION) {
        print_portion(out, portion)?;
    }
    Ok(())
}

// Prints a portion of bytes in hexadecimal by way of a buffer, so that the system is asked once and not for each byte.
fn print_portion<W: Write>(out: &mut W, bytes: &[u8]) -> io::Result<()> {
    let mut text = [0u8; 2 * PORTION];
    for (pair, &byte) in text.chunks_exact_mut(2).zip(bytes) {
        pair[0] = glyph(byte / 16);
        pair[1] = glyph(byte % 16);
    }
    out.write_all(front(&text, 2 * bytes.len()))
}

// The hexadecimal digit of a value.
// Kept: `write!` with `{:02x}` prints the same, and took a line of long words 4 to 16 times as many instructions.
fn glyph(value: u8) -> u8 {
    match value {
        0..=9 => b'0' + value,
        10..=15 => b'a' - 10 + value,
        _ => b'?',
    }
}
