// Letters written into a lent array from a place on, the rest kept: as they are, from one byte to two, from two bytes to one. Words inside have two bytes a
// letter; the entries' words and buffers have one, and are turned here.
#![tactic(auto)]

ghost use Rattle.std.specs.Prelude.{◌≡◌, ◌+◌, ◌≤◌, length};
ghost use Rattle.writing.specs.Writing.{Narrowing};
ghost use Rattle.words.specs.Writing.{written};

// Writes bytes.
// Kept: a loop and no `copy_from_slice`, for which the library for C would need `memmove`; its header says that it needs `memcpy` and `memset` only.
#[tactic(auto, using(crate::proofs::Loops::writings))]
pub fn put_bytes(s: &[u8], out: &mut [u8], at: usize)
    requires { at + length s.now ≤ length out.old }
    ensures { out.new ≡ written at s.now out.old }
{
    for (i, &byte) in s.iter().enumerate() {
        out[at + i] = byte;
    }
}

// Kept: these are loops of three lines. One function of all three would be no plainer: a trait with an impl for each width, a ghost member for the
// number of a letter, and a promise of `written` over the numbers of three lists, which each caller would have to turn back into `written at s.now out.old`.

// Writes bytes as letters of two bytes.
#[tactic(auto, using(crate::proofs::Loops::writings))]
pub fn widen(s: &[u8], out: &mut [u16], at: usize)
    requires { at + length s.now ≤ length out.old }
    ensures { out.new ≡ written at s.now out.old }
{
    for (i, &letter) in s.iter().enumerate() {
        out[at + i] = u16::from(letter);
    }
}

// Writes letters of two bytes as bytes.
#[tactic(auto, using(crate::proofs::Loops::narrowings))]
pub fn narrow(s: &[u16], out: &mut [u8], at: usize)
    requires { Narrowing s.now out.old at }
    ensures { out.new ≡ written at s.now out.old }
{
    for (i, &letter) in s.iter().enumerate() {
        out[at + i] = letter as u8;
    }
}
