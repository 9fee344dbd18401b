// What the program of document 01 writes for its input, defined in specs/Program.antt: the sizes of it, what a comparison record asks for, and theorems on the
// definitions.
#![tactic(auto)]

ghost use Rattle.std.specs.Prelude.{◌≡◌};
ghost use Rattle.output.specs.Examples.{Hold, examples, HeavyFirst};
ghost use Rattle.output.specs.Program.{FuelSuffices};
ghost use Rattle.output.specs.Size.{OutputFits, sizes};

use limits::{ComparisonRecord, Input, Record};

// What the program writes, by its length.
#[derive(Clone, Copy)]
pub struct Output {
    pub length: usize,
}

impl Output {
    // The most bytes of a line.
    pub const LINE: usize = 22;

    // The most bytes of the output: a line for the book, and one for each comparison record that the input has room for.
    pub const MOST: usize = Output::LINE
        * (1 + Input::MOST / (Record::PREFIX + ComparisonRecord::FIXED_PAYLOAD));
}

// The worked examples hold of the definition of the output.
pub fn examples_hold()
    ensures { Hold examples }
{}

// Refusal 13 comes before everything else.
pub fn heavy_first()
    ensures { HeavyFirst }
{}

// The constants are the numbers that the definitions write again.
pub fn sizes() -> [usize; 2]
    ensures { result ≡ sizes }
{
    [Output::LINE, Output::MOST]
}

// No output is longer than `Output::MOST`.
pub fn output_fits()
    ensures { OutputFits }
{}

// No input needs more fuel than the definitions give it.
pub fn fuel_suffices()
    ensures { FuelSuffices }
{}

// What a record of the kind 3 part asks for: a comparison, by its allowance, where its first word begins, where the second begins and where it ends.
#[derive(Clone, Copy)]
pub struct Request {
    pub allowance: u32,
    pub first: usize,
    pub second: usize,
    pub end: usize,
}
