// The fields of a text, with the bytes and the numbers that they write, and what a buffer is filled with before it is lent.
#![tactic(auto)]

ghost use Rattle.std.specs.Prelude.{◌≡◌, ◌≤◌, ◌<◌, ◌/◌, ◌↔◌, length, min, take, drop, All, IsTrue};
ghost use Rattle.fields.specs.Places.{Filled};
ghost use Rattle.fields.specs.Texts.{field_of, digit_of, decimal_of};

// How many bytes the room of a field has, and that of a buffer which is lent.
pub const ROOM: usize = 8192;

// Room for the longest lines, records and least words: a least word has up to 262,144 letters.
pub const LARGE: usize = 270336;

// What a buffer is filled with before it is lent.
pub const FILL: u8 = 0xaa;

// A text whose fields have a byte between them.
#[derive(Clone, Copy)]
pub struct Fields<'a> {
    text: &'a [u8],
    between: u8,
}

impl<'a> Fields<'a> {
    // Those of a text, by the byte between them: a space in a line, a colon in an operation on a held book.
    pub fn new(text: &'a [u8], between: u8) -> Self
        ensures text { result.text.now ≡ text.now }
        ensures between { result.between ≡ between }
    {
        Fields { text, between }
    }

    // A field, the fields counted from 0. Where there are fewer, it has no bytes.
    pub fn field(self, number: usize) -> &'a [u8]
        ensures bytes { result.now ≡ field_of self.entry.text.now self.entry.between number }
        ensures within { length result.now ≤ length self.entry.text.now }
    {
        let between = self.between;
        self.text
            .split(|&byte| byte == between)
            .nth(number)
            .unwrap_or(&[])
    }

    // Writes the bytes of a field at the start of a buffer, and answers how many.
    pub fn put(self, number: usize, out: &mut [u8]) -> usize
        ensures filled { Filled result out.new }
        ensures many { result ≡ min (length out.old) (length (field_of self.entry.text.now self.entry.between number) / 2) }
    {
        put_bytes(self.field(number), out)
    }

    // The number of a field.
    pub fn number(self, number: usize) -> u32
        ensures { result ≡ decimal_of (field_of self.entry.text.now self.entry.between number) }
    {
        decimal(self.field(number))
    }

    // The number of a field, at most a buffer's length.
    pub fn lent(self, number: usize, buffer: &[u8]) -> usize
        ensures filled { Filled result buffer.now }
        ensures least { result ≡ min (length buffer.now) (decimal_of (field_of self.entry.text.now self.entry.between number)) }
    {
        buffer.len().min(self.number(number) as usize)
    }
}

// Writes the bytes of a hexadecimal text at the start of a buffer, as many as it has room for, and answers how many. A last digit with none behind it
// writes nothing.
fn put_bytes(text: &[u8], out: &mut [u8]) -> usize
    ensures filled { Filled result out.new }
    ensures many { result ≡ min (length out.old) (length text.now / 2) }
{
    for (byte, pair) in out.iter_mut().zip(text.chunks_exact(2)) {
        *byte = 16 * digit(pair[0]) + digit(pair[1]);
    }
    out.len().min(text.len() / 2)
}

// The value of a hexadecimal digit.
// Kept: a case's answer must not change. Here `A` to `F` count 0, as every byte does that is no digit; `to_digit` takes them for digits, and
// `from_str_radix` refuses a text that has any other byte.
fn digit(c: u8) -> u8
    ensures value { result ≡ digit_of c }
    ensures below { result < 16 }
{
    match c {
        b'0'..=b'9' => c - b'0',
        b'a'..=b'f' => c - b'a' + 10,
        _ => 0,
    }
}

// The value of a decimal text, at most the largest number of four bytes.
// Kept: a case's answer must not change. `parse` refuses a text whose number is larger, or that has a byte which is no decimal digit.
fn decimal(text: &[u8]) -> u32
    ensures { result ≡ decimal_of text.now }
{
    text.iter().fold(0u32, |value, &c| {
        value.saturating_mul(10).saturating_add(u32::from(digit(c)))
    })
}

// The first bytes of a buffer, or all that it has where it has fewer.
pub fn front(buffer: &[u8], n: usize) -> &[u8]
    ensures { result.now ≡ take n buffer.now }
{
    &buffer[..n.min(buffer.len())]
}

// The bytes of a buffer behind its first ones.
pub fn behind(buffer: &[u8], n: usize) -> &[u8]
    ensures { result.now ≡ drop n buffer.now }
{
    &buffer[n.min(buffer.len())..]
}

// The bytes are those that a buffer is filled with before it is lent.
pub fn is_kept(bytes: &[u8]) -> bool
    ensures { IsTrue result ↔ All (λ byte. byte ≡ FILL) bytes.now }
{
    bytes.iter().all(|&byte| byte == FILL)
}
