// Executed cases: a case for each line of standard input, and a line of answer for each. The answers of `stdout` are worked out from document 01, not taken
// from this program. A line is a word that names what is asked, and its fields, with a space between; bytes are written in hexadecimal, `-` being none.
//   read BOOK                  what reading the book's bytes gives: `read A R` (letters, relations)
//   check BOOK                 the check of a book: `accepted R`
//   sheet BOOK N               the cut sheet in a buffer of N bytes: `sheet BYTES`, the whole buffer
//   round BOOK U V P N N N     a single round, with the lengths of the three buffers: `end same`, `end different` or `next U V P`
//   least BOOK U N OFFSET      the least congruent word in a buffer of N bytes from an offset on: `least LENGTH BYTES`
//   front BOOK U P N OFFSET    the least word w with P w congruent to U, in a buffer of N bytes from an offset on: `front LENGTH BYTES`
//   compare BOOK U V N         a comparison with an allowance of N rounds: `same ROUNDS` or `different ROUNDS`
//   held BOOK OP OP ..         a held book, loaded and then changed: a word for the loading and one for each OP
// or `refused N P` (number, place). Any other line is a heading, and is printed as it is. Lent buffers are filled with aa before the call; `touched` stands
// before an answer that came with a change of a byte which it must keep. An OP of a held book has a sheet of N bytes:
//   add:RECORD:N               an addition, made at once
//   drop:INDEX:N               a withdrawal, made at once
//   plan-add:RECORD:N          the proposal of an addition, with a ticket's buffer that has just the room of one
//   plan-drop:INDEX:N          the proposal of a withdrawal, likewise
//   post:T:N                   the posting of ticket T of those that the line's proposals gave, counted from 0; any other ticket is all aa
// The words are `accepted:R` for the loading, `accepted:R:BYTES` for an OP, with the bytes of its sheet alone, and `refused:N:P`; a refused loading ends
// the line, and a refused proposal gives no ticket.
#![tactic(auto)]

ghost use Rattle.std.specs.Prelude.{◌≡◌, ◌≤◌, length, IfOk, OnErr};

use fields::Fields;
use std::io;
use std::io::{Read, Write};

fn main(rt: HostRuntime) -> io::Result<()> {
    let mut buffer = rooms::room::<{ fields::LARGE }>(0);
    answer_input(&mut rt.stdin(), &mut rt.stdout(), &mut buffer)
}

// Answers an input by way of a buffer, which is longer than any line. It holds the prefix of a line that was not read to its end from one turn to
// the next; the input has ended long before the last turn. A read that fails ends its turn alone.
fn answer_input<R: Read, W: Write>(
    input: &mut R,
    out: &mut W,
    buffer: &mut [u8],
) -> io::Result<()> {
    let mut kept = 0;
    for _ in 0..256 {
        let _ = rooms::read_behind(input, buffer, &mut kept);
        kept = answer_read_part(out, buffer, kept)?;
    }
    Ok(())
}

// Answers the whole lines of a buffer's first bytes, keeps what is behind them, and answers how long that is. Where an answer cannot be written, the
// buffer is as it was.
fn answer_read_part<W: Write>(out: &mut W, buffer: &mut [u8], n: usize) -> io::Result<usize>
    requires { n ≤ length buffer.old }
    ensures ok { IfOk result (λ kept. kept ≤ length buffer.new) }
    ensures err { OnErr result (buffer.new ≡ buffer.old) }
{
    let answered = answer_all(out, &buffer[..n])?;
    buffer.copy_within(answered..n, 0);
    Ok(n - answered)
}

// Answers each whole line, and tells where the last one ends.
fn answer_all<W: Write>(out: &mut W, input: &[u8]) -> io::Result<usize>
    ensures { IfOk result (λ end. end ≤ length input.now) }
{
    let Some(last) = input.iter().rposition(|&byte| byte == b'\n') else {
        return Ok(0);
    };
    for line in input[..last].split(|&byte| byte == b'\n') {
        answer_line(out, line)?;
    }
    Ok(last + 1)
}

// Answers a line by the word that it begins with. Whatever it asks for, its first field is a book.
fn answer_line<W: Write>(out: &mut W, text: &[u8]) -> io::Result<()> {
    let line = Fields::new(text, b' ');
    let mut room = rooms::room::<{ fields::ROOM }>(0);
    let n = line.put(1, &mut room);
    let book = &room[..n];
    match line.field(0) {
        b"read" => calls::answer_read(out, book),
        b"check" => calls::answer_check(out, book),
        b"sheet" => calls::answer_sheet(out, line, book),
        b"round" => calls::answer_round(out, line, book),
        b"least" => calls::answer_least(out, line, book),
        b"front" => calls::answer_front(out, line, book),
        b"compare" => calls::answer_compare(out, line, book),
        b"held" => stories::answer_held(out, text, book),
        _ => printing::print_text(out, text),
    }
}
