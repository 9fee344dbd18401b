// The requests of the program's input (document 01, "The program"): where the book ends, and what a record of kind 3 asks for.
#![tactic(auto)]

ghost use Rattle.std.specs.Prelude.{◌≡◌, ◌+◌, ◌<◌, length};
ghost use Rattle.records.specs.Reads.{Payload};
ghost use Rattle.output.specs.Program.{book_end};
ghost use Rattle.output.specs.Requests.{long_field, fields_of, request_at};

use limits::{ComparisonRecord, Record};
use output::Request;
use records::{field_at, record_at};
use refusals::Refusal;

// A four-byte field, little-endian.
fn long_field_at(input: &[u8], at: usize) -> u32
    requires { at + 3 < length input.now }
    ensures { result ≡ long_field input.now at }
{
    let low = field_at(input, at);
    let high = field_at(input, at + 2);
    low as u32 + 65536 * high as u32
}

// Where the book ends: at the first record of kind 3, its payload there or not, else with the input.
#[tactic(auto, using(output::proofs::Reading::endings))]
pub fn book_end(input: &[u8]) -> usize
    ensures { result ≡ book_end input.now }
{
    let mut at = 0;
    // Kept: each record tells where the next one begins, so that the loop steps by what it reads; no iterator is plainer.
    while Record::PREFIX <= input.len() - at {
        let kind = field_at(input, at + 2);
        // Kept: a kind is any number of two bytes, which the definition `comparison_kind` names; an enum would say no more of the others than `_` does.
        match kind {
            ComparisonRecord::KIND => return at,
            _ => {
                let Some(record) = record_at(input, at) else {
                    return input.len();
                };
                at = record.to;
            }
        }
    }
    input.len()
}

// The fields of a comparison, from one position to another: refusal 3, reported at `place`.
#[tactic(auto, using(output::proofs::Reading::fieldsets))]
fn fields_at(input: &[u8], from: usize, to: usize, place: usize) -> Result<Request, Refusal>
    requires { Payload input.now from to }
    ensures { result ≡ fields_of input.now place from to }
{
    if to - from < ComparisonRecord::FIXED_PAYLOAD {
        return Err(Refusal::Length(place));
    }
    let m = field_at(input, from + 4);
    let n = field_at(input, from + 6);
    if to - from != ComparisonRecord::FIXED_PAYLOAD + m + n {
        return Err(Refusal::Length(place));
    }
    let first = from + ComparisonRecord::FIXED_PAYLOAD;
    Ok(Request {
        allowance: long_field_at(input, from),
        first,
        second: first + m,
        end: to,
    })
}

// What the record at a position of the kind 3 part asks for: refusals 1, 2, then those of its fields.
#[tactic(auto, using(output::proofs::Reading::requests))]
pub fn request_at(input: &[u8], at: usize) -> Result<Request, Refusal>
    ensures { result ≡ request_at input.now at }
{
    let Some(record) = record_at(input, at) else {
        return Err(Refusal::Short(at));
    };
    // Kept: a kind is a number, as in `book_end`.
    let kind = record.kind;
    match kind {
        ComparisonRecord::KIND => fields_at(input, record.from, record.to, at),
        _ => Err(Refusal::Kind(at)),
    }
}
