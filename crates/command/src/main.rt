// The program of the specification: standard input to standard output. It reads, calls the public entry `print_program` and writes what that gives.
// Where a read fails, nothing is written to standard output, since what was read so far is not the input; the error goes to standard error.
#![tactic(auto)]

ghost use Rattle.std.specs.Prelude.{◌≡◌, ◌+◌, ◌≤◌, length, IfOk};
ghost use Rattle.limits.specs.Limits.{input_most};
ghost use Rattle.output.specs.Size.{output_most};

use limits::Input;
use program::Output;
use std::io;
use std::io::{Read, Write};

// How many bytes the room for an input has.
const ROOM: usize = Input::MOST + 1;

fn main(rt: HostRuntime) -> io::Result<()> {
    let mut input = input_room();
    let n = read_input(&mut rt.stdin(), &mut input)?;
    answer(&mut rt.stdout(), &input[..n])
}

// Room for every input: one byte over the limit is enough to tell that an input is too long.
fn input_room() -> [u8; ROOM]
    ensures { input_most + 1 ≡ length result }
{
    rooms::room(0)
}

// Room for every output.
fn output_room() -> [u8; Output::MOST]
    ensures { output_most ≡ length result }
{
    rooms::room(0)
}

// Reads until the input ends or the buffer is full, and answers how many bytes were read.
fn read_input<R: Read>(from: &mut R, buffer: &mut [u8]) -> io::Result<usize>
    ensures { IfOk result (λ n. n ≤ length buffer.new) }
{
    let mut n = 0;
    rooms::read_behind(from, buffer, &mut n).map_err(|_| io::Error::other(
        "compare: standard input",
    ))?;
    Ok(n)
}

// Writes what the program gives for the input. The buffer has room for every output, so that the entry does not refuse it.
fn answer<W: Write>(out: &mut W, input: &[u8]) -> io::Result<()> {
    let mut output = output_room();
    let printed = entries::print_program(input, &mut output);
    match printed {
        Ok(n) => out.write_all(&output[..n]),
        Err(_) => Err(io::Error::other("compare: the output's buffer")),
    }
}
