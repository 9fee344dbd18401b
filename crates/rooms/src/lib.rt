// Room for bytes: buffers of any size, and the reading of bytes into one.
#![tactic(auto)]

ghost use Rattle.std.specs.Prelude.{◌≡◌, ◌≤◌, length, All};

use std::io;
use std::io::Read;

// A buffer filled with a byte. The promise is the length, and that each byte is this one, so that no proof counts the bytes.
pub fn room<const N: usize>(byte: u8) -> [u8; N]
    ensures long { N ≡ length result }
    ensures filled { All (λ each. each ≡ byte) result }
{
    [byte; N]
}

// Reads into a buffer behind the bytes that it has, until it is full or the input ends. `had` counts them, those too that came before a read that failed.
pub fn read_behind<R: Read>(input: &mut R, buffer: &mut [u8], had: &mut usize) -> io::Result<()>
    requires { had.old ≤ length buffer.old }
    ensures more { had.old ≤ had.new }
    ensures within { had.new ≤ length buffer.new }
{
    // Kept: no `for` goes over the reads, since how many bytes one gives is not known before it.
    while *had < buffer.len() {
        let more = input.read(&mut buffer[*had..])?;
        if more == 0 {
            return Ok(());
        }
        *had += more;
    }
    Ok(())
}
