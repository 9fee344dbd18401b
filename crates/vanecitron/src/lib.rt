// The public entries as C functions, for C and Rust. Each passes on what the entry of crate `entries`, `removing` or `heldbook` answers, as the numbers that crate `results`
// gives for it; each promise is the entry's own, read through them (crate results, specs/Calls.antt). None has a `requires`.
#![tactic(auto)]

ghost use Rattle.std.specs.Prelude.{◌≡◌, length};
ghost use Rattle.answers.specs.Entries.{check_of, sheet_of, round_of, output_of};
ghost use Rattle.held.specs.Held.{book_in, book_start, changes_told};
ghost use Rattle.held.specs.Changes.{load_of, addition, withdrawal, change_of};
ghost use Rattle.held.specs.Tickets.{propose_of, post_of};
ghost use Rattle.results.specs.Numbers.{check_result, held_result};
ghost use Rattle.results.specs.Calls.{version, SheetNumbers, sheet_numbers, RoundNumbers, round_numbers, ComparedNumbers, LeastNumbered, RemovalNumbered, ProgramNumbers, program_numbers, LoadNumbers, load_numbers, ChangeNumbers, change_numbers, ProposalNumbers, proposal_numbers};

use results::{CheckResult, CompareResult, HeldResult, LeastResult, ProgramResult, RoundResult};

// The version, so that a caller can hold his header to the archive that he links.
#[unsafe(no_mangle)]
pub extern "C" fn vanecitron_version() -> u32
    ensures { result ≡ version }
{
    returning::version_number()
}

// The check of a book.
#[unsafe(no_mangle)]
pub extern "C" fn vanecitron_check(book: &[u8]) -> CheckResult
    ensures { result ≡ check_result (check_of book.now) }
{
    returning::of_verdict(entries::check_book(book))
}

// The cut sheet of a book, in a lent buffer.
#[unsafe(no_mangle)]
pub extern "C" fn vanecitron_cut_sheet(book: &[u8], sheet: &mut [u8]) -> CheckResult
    ensures { SheetNumbers.after result sheet.new ≡ sheet_numbers (sheet_of book.now sheet.old) }
{
    returning::of_verdict(entries::cut_sheet(book, sheet))
}

// One round, with the next u, v and p in three lent buffers.
#[unsafe(no_mangle)]
pub extern "C" fn vanecitron_round(
    book: &[u8],
    u: &[u8],
    v: &[u8],
    p: &[u8],
    nu: &mut [u8],
    nv: &mut [u8],
    np: &mut [u8],
) -> RoundResult
    ensures { RoundNumbers.after result nu.new nv.new np.new ≡ round_numbers (round_of book.now u.now v.now p.now nu.old nv.old np.old) }
{
    returning::of_round(entries::single_round(book, u, v, p, nu, nv, np))
}

// The comparison of two words.
#[unsafe(no_mangle)]
pub extern "C" fn vanecitron_compare(
    book: &[u8],
    u: &[u8],
    v: &[u8],
    allowance: u32,
) -> CompareResult
    ensures { ComparedNumbers book.now u.now v.now allowance result }
{
    returning::of_comparison(entries::compare(book, u, v, allowance))
}

// The least congruent word of a word, in a lent buffer from an offset on.
#[unsafe(no_mangle)]
pub extern "C" fn vanecitron_least(
    book: &[u8],
    u: &[u8],
    buffer: &mut [u8],
    offset: usize,
) -> LeastResult
    ensures { LeastNumbered book.now u.now buffer.old offset result buffer.new }
{
    returning::of_least(entries::least_word(book, u, buffer, offset))
}

// The least word behind a piece with which it is congruent to a word, in a lent buffer from an offset on.
#[unsafe(no_mangle)]
pub extern "C" fn vanecitron_front(
    book: &[u8],
    u: &[u8],
    p: &[u8],
    buffer: &mut [u8],
    offset: usize,
) -> LeastResult
    ensures { RemovalNumbered book.now u.now p.now buffer.old offset result buffer.new }
{
    returning::of_least(removing::remove_prefix(book, u, p, buffer, offset))
}

// The whole program: input bytes to output bytes, in a lent buffer.
#[unsafe(no_mangle)]
pub extern "C" fn vanecitron_program(input: &[u8], output: &mut [u8]) -> ProgramResult
    ensures { ProgramNumbers.after result output.new ≡ program_numbers (output_of input.now output.old) }
{
    returning::of_printed(entries::print_program(input, output))
}

// The loading of a book into the lent buffer of a held book.
#[unsafe(no_mangle)]
pub extern "C" fn vanecitron_load(book: &[u8], held: &mut [u8]) -> CheckResult
    ensures { LoadNumbers.after result held.new ≡ load_numbers (load_of book.now held.old) }
{
    returning::of_verdict(heldbook::load_held(book, held))
}

// The addition of a relation to a held book, with the new sheet in a lent buffer.
#[unsafe(no_mangle)]
pub extern "C" fn vanecitron_add(held: &mut [u8], bytes: &[u8], sheet: &mut [u8]) -> CheckResult
    ensures { ChangeNumbers.after result held.new sheet.new ≡ change_numbers (change_of (addition bytes.now) held.old sheet.old) }
{
    returning::of_verdict(heldbook::add_relation(held, bytes, sheet))
}

// The withdrawal of a relation from a held book, with the new sheet in a lent buffer.
#[unsafe(no_mangle)]
pub extern "C" fn vanecitron_withdraw(held: &mut [u8], i: usize, sheet: &mut [u8]) -> CheckResult
    ensures { ChangeNumbers.after result held.new sheet.new ≡ change_numbers (change_of (withdrawal i) held.old sheet.old) }
{
    returning::of_verdict(heldbook::withdraw_relation(held, i, sheet))
}

// The proposal of an addition, with the sheet that it would lead to and a ticket in two lent buffers.
#[unsafe(no_mangle)]
pub extern "C" fn vanecitron_propose_add(
    held: &[u8],
    bytes: &[u8],
    sheet: &mut [u8],
    ticket: &mut [u8],
) -> CheckResult
    ensures { ProposalNumbers.after result sheet.new ticket.new ≡ proposal_numbers (propose_of (addition bytes.now) held.now sheet.old ticket.old) }
{
    returning::of_verdict(heldbook::propose_addition(held, bytes, sheet, ticket))
}

// The proposal of a withdrawal, likewise.
#[unsafe(no_mangle)]
pub extern "C" fn vanecitron_propose_withdraw(
    held: &[u8],
    i: usize,
    sheet: &mut [u8],
    ticket: &mut [u8],
) -> CheckResult
    ensures { ProposalNumbers.after result sheet.new ticket.new ≡ proposal_numbers (propose_of (withdrawal i) held.now sheet.old ticket.old) }
{
    returning::of_verdict(heldbook::propose_withdrawal(held, i, sheet, ticket))
}

// The posting of a ticket, with the new sheet in a lent buffer.
#[unsafe(no_mangle)]
pub extern "C" fn vanecitron_post(held: &mut [u8], ticket: &[u8], sheet: &mut [u8]) -> CheckResult
    ensures { ChangeNumbers.after result held.new sheet.new ≡ change_numbers (post_of ticket.now held.old sheet.old) }
{
    returning::of_verdict(heldbook::post_ticket(held, ticket, sheet))
}

// The book of a held book, as a place in its buffer and a length, with the count of changes: a C function returns no part of a slice.
#[unsafe(no_mangle)]
pub extern "C" fn vanecitron_held_book(held: &[u8]) -> HeldResult
    ensures { result ≡ held_result (book_start held.now) (length (book_in held.now)) (changes_told held.now) }
{
    let book = heldbook::book_of(held);
    returning::of_held(
        heldbook::book_start(held),
        book.len(),
        heldbook::changes_of(held),
    )
}
