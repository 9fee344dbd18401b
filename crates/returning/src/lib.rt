// The answers of the entries as the plain structs that the C functions return: the code of what crate `results` defines.
// Kept: functions, and no `From` for the structs, which could stand in their own crate alone: `results` is among the definitions that an auditor reads, and
// tools/definitions.py lets no code stand there.
#![tactic(auto)]

ghost use Rattle.std.specs.Prelude.{◌≡◌};
ghost use Rattle.answers.specs.Answers.{of_verdict, of_round, of_comparison, of_printed, of_written_word};
ghost use Rattle.results.specs.Numbers.{end_outcome, check_result, round_result, compare_result, program_result, least_result, held_result};
ghost use Rattle.results.specs.Calls.{version};
ghost use Rattle.returning.specs.Told.{told};

use asked::{Comparison, Lengths, Round};
use refusals::{Numbered, Refusal};
use results::{CheckResult, CompareResult, HeldResult, LeastResult, ProgramResult, RoundResult};

// The version of the C functions, as a number: 10,000 times the first part, 100 times the second, and the third.
#[derive(Clone, Copy)]
pub struct Version {
    pub number: u32,
}

impl Version {
    pub const NUMBER: u32 = 800;
}

// What a round or a comparison says, as a number. 0 says nothing, so that a refused result, and one filled with zeros, reads as no answer.
// Kept: numbers, which the C header gives to its callers.
#[derive(Clone, Copy)]
pub struct Outcome {
    pub code: u32,
}

impl Outcome {
    pub const NONE: u32 = 0;

    pub const SAME: u32 = 1;

    pub const DIFFERENT: u32 = 2;

    // Of a round alone: it goes on.
    pub const NEXT: u32 = 3;
}

// The version.
pub fn version_number() -> u32
    ensures { result ≡ version }
{
    Version::NUMBER
}

// The number and the place of a refusal; 0 and 0 where there is none.
fn told(refusal: Option<Refusal>) -> Numbered
    ensures { result ≡ told refusal }
{
    match refusal {
        Some(refusal) => Numbered::from(refusal),
        None => Numbered {
            number: 0,
            place: 0,
        },
    }
}

// The numbers of a verdict.
pub fn of_verdict(verdict: Result<usize, Refusal>) -> CheckResult
    ensures { result ≡ check_result (of_verdict verdict) }
{
    let told = told(verdict.err());
    CheckResult {
        refusal: u32::from(told.number),
        place: told.place as u64,
        rules: verdict.unwrap_or(0) as u64,
    }
}

// The outcome of a round that ends, with 'same' for true.
fn of_end(same: bool) -> u32
    ensures { result ≡ end_outcome same }
{
    if same {
        return Outcome::SAME;
    }
    Outcome::DIFFERENT
}

// The numbers of a round.
pub fn of_round(round: Result<Round<Lengths>, Refusal>) -> RoundResult
    ensures { result ≡ round_result (of_round round) }
{
    let told = told(round.err());
    let none = RoundResult {
        refusal: u32::from(told.number),
        place: told.place as u64,
        outcome: Outcome::NONE,
        u_length: 0,
        v_length: 0,
        p_length: 0,
    };
    match round {
        Ok(Round::End(same)) => RoundResult {
            outcome: of_end(same),
            ..none
        },
        Ok(Round::Next(next)) => RoundResult {
            outcome: Outcome::NEXT,
            u_length: next.u as u64,
            v_length: next.v as u64,
            p_length: next.p as u64,
            ..none
        },
        Err(_) => none,
    }
}

// The numbers of a comparison.
pub fn of_comparison(comparison: Result<Comparison, Refusal>) -> CompareResult
    ensures { result ≡ compare_result (of_comparison comparison) }
{
    let told = told(comparison.err());
    let none = CompareResult {
        refusal: u32::from(told.number),
        place: told.place as u64,
        outcome: Outcome::NONE,
        rounds: 0,
    };
    match comparison {
        Ok(Comparison::Same(rounds)) => CompareResult {
            outcome: Outcome::SAME,
            rounds: u64::from(rounds),
            ..none
        },
        Ok(Comparison::Different(rounds)) => CompareResult {
            outcome: Outcome::DIFFERENT,
            rounds: u64::from(rounds),
            ..none
        },
        Err(_) => none,
    }
}

// The numbers of what the program gave.
pub fn of_printed(printed: Result<usize, Refusal>) -> ProgramResult
    ensures { result ≡ program_result (of_printed printed) }
{
    let told = told(printed.err());
    ProgramResult {
        refusal: u32::from(told.number),
        place: told.place as u64,
        length: printed.unwrap_or(0) as u64,
    }
}

// The numbers of a least word.
// Kept: a twin of `of_printed`, since `LeastResult` and `ProgramResult` are two structs of the C header.
pub fn of_least(least: Result<usize, Refusal>) -> LeastResult
    ensures { result ≡ least_result (of_written_word least) }
{
    let told = told(least.err());
    LeastResult {
        refusal: u32::from(told.number),
        place: told.place as u64,
        length: least.unwrap_or(0) as u64,
    }
}

// The numbers of a held book.
pub fn of_held(start: usize, bytes: usize, changes: usize) -> HeldResult
    ensures { result ≡ held_result start bytes changes }
{
    HeldResult {
        start: start as u64,
        length: bytes as u64,
        changes: changes as u64,
    }
}
