// The answering of a line on a book by one call: what reading it gives, its check, its cut sheet, a single round, a least word, the removal of a prefix, a
// comparison. Lent buffers are filled with aa before a call; `touched` stands before an answer that came with a change of a byte which it must keep.
#![tactic(auto)]

use asked::Comparison;
use entries::{Lengths, Round};
use fields::{Fields, behind, front};
use layout::{Table, Text};
use refusals::Refusal;
use std::io;
use std::io::Write;

// How many bytes the room of a prefix has.
const PREFIX: usize = 256;

// What reading a book gives.
pub fn answer_read<W: Write>(out: &mut W, book: &[u8]) -> io::Result<()> {
    let mut text = [0u16; Text::ROOM];
    let mut table = [0u16; Table::ROOM];
    let reading = reader::read_book(book, &mut text, &mut table);
    match reading {
        Ok(size) => printing::print_pair(out, b"read ", usize::from(size.letters), size.relations),
        Err(refusal) => printing::print_refusal(out, refusal),
    }
}

// The check of a book.
pub fn answer_check<W: Write>(out: &mut W, book: &[u8]) -> io::Result<()> {
    let verdict = entries::check_book(book);
    match verdict {
        Ok(relations) => printing::print_count(out, b"accepted ", relations as u64),
        Err(refusal) => printing::print_refusal(out, refusal),
    }
}

// The cut sheet of a book.
pub fn answer_sheet<W: Write>(out: &mut W, line: Fields<'_>, book: &[u8]) -> io::Result<()> {
    let mut sheet = rooms::room::<{ fields::ROOM }>(fields::FILL);
    let n = line.lent(2, &sheet);
    let verdict = entries::cut_sheet(book, &mut sheet[..n]);
    print_verdict(out, verdict, &sheet, n)
}

// A verdict, with the sheet after it.
fn print_verdict<W: Write>(
    out: &mut W,
    verdict: Result<usize, Refusal>,
    sheet: &[u8],
    n: usize,
) -> io::Result<()> {
    match verdict {
        Ok(_) => printing::print_sheet(out, sheet, n),
        Err(refusal) => {
            printing::print_touched(out, sheet)?;
            printing::print_refusal(out, refusal)
        }
    }
}

// A comparison.
pub fn answer_compare<W: Write>(out: &mut W, line: Fields<'_>, book: &[u8]) -> io::Result<()> {
    let mut u = rooms::room::<{ fields::ROOM }>(0);
    let i = line.put(2, &mut u);
    let mut v = rooms::room::<{ fields::ROOM }>(0);
    let j = line.put(3, &mut v);
    compare_words(out, book, &u[..i], &v[..j], line.number(4))
}

// A comparison of what is given.
fn compare_words<W: Write>(
    out: &mut W,
    book: &[u8],
    u: &[u8],
    v: &[u8],
    allowance: u32,
) -> io::Result<()> {
    let comparison = entries::compare(book, u, v, allowance);
    match comparison {
        Ok(Comparison::Same(rounds)) => printing::print_count(out, b"same ", rounds as u64),
        Ok(Comparison::Different(rounds)) => printing::print_count(
            out,
            b"different ",
            rounds as u64,
        ),
        Err(refusal) => printing::print_refusal(out, refusal),
    }
}

// The least word of a word, in a buffer of the length that a line asks for, from its offset on.
pub fn answer_least<W: Write>(out: &mut W, line: Fields<'_>, book: &[u8]) -> io::Result<()> {
    let mut u = rooms::room::<{ fields::ROOM }>(0);
    let i = line.put(2, &mut u);
    let mut buffer = rooms::room::<{ fields::LARGE }>(fields::FILL);
    let n = line.lent(3, &buffer);
    let offset = line.number(4) as usize;
    let least = entries::least_word(book, &u[..i], &mut buffer[..n], offset);
    print_placed(out, b"least ", least, &buffer, offset)
}

// The removal of a prefix from a word: the least word behind it, likewise.
pub fn answer_front<W: Write>(out: &mut W, line: Fields<'_>, book: &[u8]) -> io::Result<()> {
    let mut u = rooms::room::<{ fields::ROOM }>(0);
    let i = line.put(2, &mut u);
    let mut p = rooms::room::<{ PREFIX }>(0);
    let k = line.put(3, &mut p);
    let mut buffer = rooms::room::<{ fields::LARGE }>(fields::FILL);
    let n = line.lent(4, &buffer);
    let offset = line.number(5) as usize;
    let least = removing::remove_prefix(book, &u[..i], &p[..k], &mut buffer[..n], offset);
    print_placed(out, b"front ", least, &buffer, offset)
}

// A word that was to be placed by a call of this name, with the buffer after it.
fn print_placed<W: Write>(
    out: &mut W,
    name: &[u8],
    least: Result<usize, Refusal>,
    buffer: &[u8],
    offset: usize,
) -> io::Result<()> {
    match least {
        Ok(letters) => printing::print_placed(out, name, buffer, offset, letters),
        Err(refusal) => {
            printing::print_touched(out, buffer)?;
            printing::print_refusal(out, refusal)
        }
    }
}

// A single round.
pub fn answer_round<W: Write>(out: &mut W, line: Fields<'_>, book: &[u8]) -> io::Result<()> {
    let mut u = rooms::room::<{ fields::ROOM }>(0);
    let i = line.put(2, &mut u);
    let mut v = rooms::room::<{ fields::ROOM }>(0);
    let j = line.put(3, &mut v);
    let mut p = rooms::room::<{ PREFIX }>(0);
    let k = line.put(4, &mut p);
    make_round(out, line, book, &u[..i], &v[..j], &p[..k])
}

// A round of what is given, with buffers of the lengths that a line asks for.
fn make_round<W: Write>(
    out: &mut W,
    line: Fields<'_>,
    book: &[u8],
    u: &[u8],
    v: &[u8],
    p: &[u8],
) -> io::Result<()> {
    let mut nu = rooms::room::<{ fields::ROOM }>(fields::FILL);
    let i = line.lent(5, &nu);
    let mut nv = rooms::room::<{ fields::ROOM }>(fields::FILL);
    let j = line.lent(6, &nv);
    let mut np = rooms::room::<{ PREFIX }>(fields::FILL);
    let k = line.lent(7, &np);
    let round = entries::single_round(book, u, v, p, &mut nu[..i], &mut nv[..j], &mut np[..k]);
    print_round(out, round, &nu, &nv, &np)
}

// A round's answer, with its buffers after it.
fn print_round<W: Write>(
    out: &mut W,
    round: Result<Round<Lengths>, Refusal>,
    nu: &[u8],
    nv: &[u8],
    np: &[u8],
) -> io::Result<()> {
    match round {
        Ok(Round::End(same)) => {
            printing::print_touches(out, nu, nv, np)?;
            printing::print_end(out, same)
        }
        Ok(Round::Next(next)) => {
            printing::print_touches(
                out,
                behind(nu, next.u),
                behind(nv, next.v),
                behind(np, next.p),
            )?;
            printing::print_next(out, front(nu, next.u), front(nv, next.v), front(np, next.p))
        }
        Err(refusal) => {
            printing::print_touches(out, nu, nv, np)?;
            printing::print_refusal(out, refusal)
        }
    }
}
