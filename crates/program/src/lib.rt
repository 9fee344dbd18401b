// The program of document 01, from its input bytes to its output bytes.
#![tactic(auto)]

ghost use Rattle.std.specs.Prelude.{◌≡◌, ◌+◌, ◌≤◌, length};
ghost use Rattle.lines.specs.Lines.{WrittenTo};
ghost use Rattle.output.specs.Program.{refused_line, comparison_line, loaded_output, program_of};
ghost use Rattle.output.specs.Size.{output_most};
ghost use Rattle.output.specs.Writing.{lines_under, Lined, lines_of_accepted, Accepted, Roomy};
ghost use Rattle.asked.specs.Comparing.{comparison_of};
ghost use Rattle.layout.specs.Families.{count_of, Ready};
ghost use Rattle.layout.specs.Views.{words_of, family_of, on};

use asked::Comparison;
use comparison::{compare_given, compare_once};
use layout::{RelationWords, Table, Text};
use limits::Input;
use lines::{put_line, put_pair_line};
pub use output::Output;
use presentation::load;
use refusals::{Numbered, Refusal};
use requests::{book_end, request_at};

// Writes the line of a refusal at a place of the buffer and answers the place behind it.
#[tactic(auto, using(output::proofs::Writing::refusals))]
pub fn put_refusal(out: &mut [u8], at: usize, refusal: Refusal) -> usize
    requires { at + length (refused_line refusal) ≤ length out.old }
    ensures { WrittenTo out.old at (refused_line refusal) out.new result }
{
    let numbered = Numbered::from(refusal);
    put_pair_line(
        out,
        at,
        b"refused",
        numbered.number as u64,
        numbered.place as u64,
    )
}

// Writes the line of a comparison at a place of the buffer and answers the place behind it.
pub fn put_comparison(out: &mut [u8], at: usize, comparison: Result<Comparison, Refusal>) -> usize
    requires { at + length (comparison_line comparison) ≤ length out.old }
    ensures { WrittenTo out.old at (comparison_line comparison) out.new result }
{
    match comparison {
        Ok(Comparison::Same(rounds)) => put_line(out, at, b"same", rounds as u64),
        Ok(Comparison::Different(rounds)) => put_line(out, at, b"different", rounds as u64),
        Err(refusal) => put_refusal(out, at, refusal),
    }
}

// The comparison of two words that a record has. The lent arrays serve short words, so that no array is made for each record.
fn compare_record(
    words: &RelationWords,
    letters: u8,
    u: &[u8],
    v: &[u8],
    wide_u: &mut [u16],
    wide_v: &mut [u16],
    allowance: u32,
) -> Result<Comparison, Refusal>
    requires { on words.now Ready }
    ensures { result ≡ comparison_of letters (words_of words.now) (family_of words.now) u.now v.now allowance }
{
    if wide_u.len() < u.len() {
        return compare_once(words, letters, u, v, allowance);
    }
    if wide_v.len() < v.len() {
        return compare_once(words, letters, u, v, allowance);
    }
    compare_given(words, letters, u, v, wide_u, wide_v, allowance)
}

// Writes the lines of the comparison records from a position on, behind each other from a place of the buffer on, and answers the place behind them.
#[tactic(auto, using(output::proofs::Lines::linings))]
pub fn write_lines(
    words: &RelationWords,
    letters: u8,
    input: &[u8],
    start: usize,
    out: &mut [u8],
    place: usize,
) -> usize
    requires { on words.now Lined letters input.now start out.old place }
    ensures { WrittenTo out.old place (lines_under words.now.text.now words.now.table.now words.now.n letters input.now start) out.new result }
{
    let mut first_word = [0u16; given::SHORT];
    let mut second_word = [0u16; given::SHORT];
    let mut at = start;
    let mut end = place;
    // Kept: each record tells where the next one begins, so that the loop steps by what it reads; no iterator is plainer.
    while at < input.len() {
        let request = match request_at(input, at) {
            Ok(request) => request,
            Err(refusal) => return put_refusal(out, end, refusal),
        };
        let comparison = compare_record(
            words,
            letters,
            &input[request.first..request.second],
            &input[request.second..request.end],
            &mut first_word,
            &mut second_word,
            request.allowance,
        );
        end = put_comparison(out, end, comparison);
        at = request.end;
    }
    end
}

// Writes the line of an accepted book and those of the comparison records behind it, at the start of the buffer, and answers the place behind them.
fn write_accepted(
    words: &RelationWords,
    relations: usize,
    letters: u8,
    input: &[u8],
    end: usize,
    out: &mut [u8],
) -> usize
    requires counted { words.now.n ≡ count_of words.now.table.now }
    requires accepted { Accepted words.now.text.now words.now.table.now relations letters input.now end out.old }
    ensures { WrittenTo out.old 0 (lines_of_accepted words.now.text.now words.now.table.now relations letters input.now end) out.new result }
{
    let place = put_line(out, 0, b"book", relations as u64);
    write_lines(words, letters, input, end, out, place)
}

// Writes the output of an input that is not too long at the start of the buffer and answers its length. The book is loaded once for all its comparisons.
#[tactic(auto, using(output::proofs::Whole::books))]
fn write_loaded(input: &[u8], out: &mut [u8]) -> usize
    requires { Roomy input.now out.old }
    ensures { WrittenTo out.old 0 (loaded_output input.now) out.new result }
{
    let end = book_end(input);
    let mut text = [0u16; Text::ROOM];
    let mut table = [0u16; Table::ROOM];
    match load(&input[..end], &mut text, &mut table) {
        Ok(size) => {
            let words = RelationWords {
                text: &text,
                table: &table,
                n: layout::count_of(&table),
            };
            write_accepted(&words, size.relations, size.letters, input, end, out)
        }
        Err(refusal) => put_refusal(out, 0, refusal),
    }
}

// Writes the output at the start of the buffer and answers its length; the bytes behind it are kept.
#[tactic(auto, using(output::proofs::Whole::wholes))]
pub fn write_program(input: &[u8], out: &mut [u8]) -> usize
    requires { output_most ≤ length out.old }
    ensures { WrittenTo out.old 0 (program_of input.now) out.new result }
{
    let Some(_) = Input::make(input.len()) else {
        return put_refusal(out, 0, Refusal::Heavy);
    };
    write_loaded(input, out)
}
