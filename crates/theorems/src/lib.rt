// What is shown of the definitions, each theorem the contract of a function that does nothing, so that it is found here and the check holds it fast. What a theorem says stands in the
// specs of the crate that its heading names, and its proof in the proofs there. Crates `output` and `worked` have theorems of their own.
#![tactic(auto)]

ghost use Rattle.words.specs.Families.{DistinctWordsRight, FamiliesRight};
ghost use Rattle.words.specs.WorkedLists.{ListsHold};
ghost use Rattle.words.specs.Examples.{WordsHold};
ghost use Rattle.overlap.specs.Theorems.{TestsPieces, WordsTested, VerdictsRight, AcceptsC4, CountsFewest, NumbersDecide, NumbersSmall, LoneLetters, CutsMaximal, CutsGood, PiecesClosed, FewerKeepC4};
ghost use Rattle.overlap.specs.Examples.{NumbersHold};
ghost use Rattle.overlap.specs.Books.{BooksHold};
ghost use Rattle.congruence.specs.Theorem.{RowsDecide, PairsUnchanged, MembersCongruent, ComparisonShape};
ghost use Rattle.congruence.specs.Starred.{StarredHold};
ghost use Rattle.least.specs.Theorem.{RoundsWriteLeast, LeastWordsDecide, WalkTellsPossible};
ghost use Rattle.least.specs.Examples.{WorkedHold};
ghost use Rattle.format.specs.Book.{FuelSuffices};
ghost use Rattle.format.specs.Bytes.{ReadBytes, ReadWithin, BytesUnique, BytesFew, AdditionsRead};
ghost use Rattle.format.specs.Examples.{Hold, examples};
ghost use Rattle.loading.specs.Examples.{LoadedHold};
ghost use Rattle.asked.specs.Examples.{AskedHold};
ghost use Rattle.spelling.specs.Decimal.{FuelSuffices as DigitsSuffice};
ghost use Rattle.spelling.specs.Examples.{SpellingsHold};
ghost use Rattle.answers.specs.Demands.{Acceptance, CutsReported, LeastWritten, LeastDecides};
ghost use Rattle.answers.specs.Keeping.{RefusalsKeep};
ghost use Rattle.answers.specs.Program.{ProgramCompares};
ghost use Rattle.removal.specs.Demands.{NothingRemoved, LongNoPiece, JoinedComeOff, ClassesAlike, RemovalsKeep};
ghost use Rattle.held.specs.Demands.{HeldFits, LoadedHolds, LoadingsHold, LoadingsKeep, RefusedKeeps, WithdrawalsHold, AdditionsNeedC4, ChangesFresh, AdditionsUndone};
ghost use Rattle.held.specs.Additions.{AdditionsAtTheEnd};
ghost use Rattle.held.specs.Postings.{TicketsRead, TicketsSmall, TicketsFit, ProposalsKeep, PostingsKeep, ProposalsOfChange, NeverStale, PostingsAreChanges, PostingsHold, PostedOnTheSpot, ChangesCounted, ChangesLimited};

// --- Distinct words and families (crate `words`). ---

// The distinct words are the sides, each once, in order of first appearance.
pub fn distinct_words_are_right()
    ensures { DistinctWordsRight }
{}

// Two words are of one family exactly when a chain of relations joins them.
pub fn families_are_right()
    ensures { FamiliesRight }
{}

// The first unknown letters, and the lists written over others, that were worked out by hand.
pub fn worked_lists_hold()
    ensures { ListsHold }
{}

// The distinct words, families and common suffixes that were worked out by hand.
pub fn worked_words_hold()
    ensures { WordsHold }
{}

// --- Pieces, C(4), cuts and numbers of pieces (crate `overlap`; document 003, section 1). ---

// The test for a piece is true exactly of pieces.
pub fn test_is_for_pieces()
    ensures { TestsPieces }
{}

// So is the test of a word by itself; and under C(4) a piece is shorter than every relation word that it stands in.
pub fn words_are_tested()
    ensures { WordsTested }
{}

// The verdict that is computed is the right one.
pub fn verdict_is_right()
    ensures { VerdictsRight }
{}

// A presentation is accepted exactly when its distinct words meet C(4).
pub fn accepted_is_c4()
    ensures { AcceptsC4 }
{}

// The number of pieces that is computed, by taking the longest each time, is the smallest.
pub fn counts_are_fewest()
    ensures { CountsFewest }
{}

// C(m) is that every number is at least m; a presentation is accepted exactly when every number of its distinct words is at least four.
pub fn numbers_decide()
    ensures { NumbersDecide }
{}

// A number of pieces is at most the word's length, so that 255 stands for no product alone.
pub fn numbers_are_small()
    ensures { NumbersSmall }
{}

// A relation word is no product of pieces exactly when one of its letters stands nowhere else.
pub fn lone_letters_tell()
    ensures { LoneLetters }
{}

// The numbers that were worked out by hand.
pub fn worked_numbers_hold()
    ensures { NumbersHold }
{}

// The verdicts, cuts and pieces that were worked out by hand.
pub fn worked_books_hold()
    ensures { BooksHold }
{}

// X is the maximal piece prefix, and Z the maximal piece suffix.
pub fn cuts_are_maximal()
    ensures { CutsMaximal }
{}

// Under C(4), Y is not empty and no piece, XY occurs nowhere else, and a prefix that is a piece is a prefix of X.
pub fn cuts_are_good()
    ensures { CutsGood }
{}

// A factor of a piece is a piece, and more relation words make no fewer pieces.
pub fn pieces_are_closed()
    ensures { PiecesClosed }
{}

// Fewer sides keep C(4).
pub fn fewer_keep_c4()
    ensures { FewerKeepC4 }
{}

// --- Congruence and the rows (crate `congruence`; document 003, sections 2 to 4). ---

// The rows decide whether two words are congruent, within the bound, for every presentation whose distinct words meet C(4).
pub fn rows_decide()
    ensures { RowsDecide }
{}

// Where no word is on two sides, the rounds are those of the rows for pairs.
pub fn pairs_are_unchanged()
    ensures { PairsUnchanged }
{}

// A member of a family takes the place of another by a chain of rewrite steps of single relations.
pub fn members_are_congruent()
    ensures { MembersCongruent }
{}

// What a comparison goes on from is always an end of some tail followed by an end of the given word.
pub fn comparison_has_shape()
    ensures { ComparisonShape }
{}

// The starred bench cases of document 01.
pub fn starred_cases_hold()
    ensures { StarredHold }
{}

// --- Least congruent words and possible prefixes (crate `least`). ---

// The rounds end within their bounds, and what they write is the least word, for every presentation whose distinct words meet C(4), every order of the letters
// and every piece as the first mark.
pub fn rounds_write_least()
    ensures { RoundsWriteLeast }
{}

// Every word has one least word, and two words are congruent exactly when theirs are equal.
pub fn least_words_decide()
    ensures { LeastWordsDecide }
{}

// The walk tells whether a piece is a possible prefix.
pub fn walk_tells_possible()
    ensures { WalkTellsPossible }
{}

// The least words that were worked out by hand.
pub fn worked_cases_hold()
    ensures { WorkedHold }
{}

// --- Books as bytes (crate `format`). ---

// The worked examples of what reading a book gives hold of its definition.
pub fn examples_hold()
    ensures { Hold examples }
{}

// Reading the bytes of a presentation within the limits gives it back.
pub fn bytes_are_read()
    ensures { ReadBytes }
{}

// What is read is within the limits.
pub fn read_is_within()
    ensures { ReadWithin }
{}

// No book needs more fuel than the definition gives it.
pub fn fuel_suffices()
    ensures { FuelSuffices }
{}

// Bytes that are read are the bytes of what was read.
pub fn bytes_are_unique()
    ensures { BytesUnique }
{}

// No presentation within the limits has more bytes than the most of a book.
pub fn bytes_are_few()
    ensures { BytesFew }
{}

// A relation that is given apart from its book is read as if its bytes stood at the book's end.
pub fn additions_are_read()
    ensures { AdditionsRead }
{}

// --- What a book is loaded as, what is asked of it, and how answers are spelled (crates `loading`, `asked` and `spelling`). ---

// The books that were worked out by hand are accepted with their sheets, or refused.
pub fn loaded_books_hold()
    ensures { LoadedHold }
{}

// The refusals of given words, the comparisons and the least words under book Q that were worked out by hand.
pub fn worked_questions_hold()
    ensures { AskedHold }
{}

// The numbers and lines that were worked out by hand.
pub fn worked_spellings_hold()
    ensures { SpellingsHold }
{}

// No number needs a larger limit than the definition of its digits gives it.
pub fn digits_suffice()
    ensures { DigitsSuffice }
{}

// --- What the entries answer (crate `answers`). ---

// The demands on acceptance, as a theorem on the check's definition.
pub fn acceptance_is_c4()
    ensures { Acceptance }
{}

// The demands on the cut sheet, as a theorem on its definition.
pub fn sheet_reports_cuts()
    ensures { CutsReported }
{}

// The demands on the least word, as a theorem on its definition.
pub fn least_is_written()
    ensures { LeastWritten }
{}

// That two least words tell what a comparison tells, as a theorem on both definitions.
pub fn least_words_agree()
    ensures { LeastDecides }
{}

// A refusal keeps every lent byte: of the sheet, of a round, of the least word and of the program.
pub fn refusals_keep()
    ensures { RefusalsKeep }
{}

// Each line of the program is an answer of the check or of the comparison, which decides.
pub fn program_compares()
    ensures { ProgramCompares }
{}

// --- Taking a prefix off (crate `removal`). ---

// With the empty piece it is the least word, with all its refusals.
pub fn nothing_removed_is_least()
    ensures { NothingRemoved }
{}

// A word of as many letters as a side can have is no piece of an accepted book.
pub fn long_words_are_no_pieces()
    ensures { LongNoPiece }
{}

// A piece that was put in front of a word comes off again.
pub fn joined_pieces_come_off()
    ensures { JoinedComeOff }
{}

// Congruent words have one answer.
pub fn classes_have_one_answer()
    ensures { ClassesAlike }
{}

// A refusal keeps every lent byte.
pub fn refused_removals_keep()
    ensures { RemovalsKeep }
{}

// --- Held books, changes, proposals and postings (crate `held`). ---

// The room of a held book suffices for 32 relations at their longest.
pub fn held_books_fit()
    ensures { HeldFits }
{}

// Bytes that load are a held book, whoever wrote them.
pub fn loaded_is_held()
    ensures { LoadedHolds }
{}

// An accepted book is held as it is loaded.
pub fn loading_holds()
    ensures { LoadingsHold }
{}

// A refused loading changes nothing.
pub fn refused_loadings_keep()
    ensures { LoadingsKeep }
{}

// A refused change changes nothing.
pub fn refused_keeps()
    ensures { RefusedKeeps }
{}

// A withdrawal from a held book is never refused as loose.
pub fn withdrawals_hold()
    ensures { WithdrawalsHold }
{}

// An addition has the answer and the sheet of the book with its record at the end.
pub fn additions_are_at_the_end()
    ensures { AdditionsAtTheEnd }
{}

// An addition is accepted only where the held book itself meets C(4).
pub fn additions_need_c4()
    ensures { AdditionsNeedC4 }
{}

// After any list of accepted changes the sheet is that of the book loaded afresh.
pub fn changes_are_fresh()
    ensures { ChangesFresh }
{}

// What was added and is withdrawn again leaves the book as it was.
pub fn additions_are_undone()
    ensures { AdditionsUndone }
{}

// A ticket is read as it was written.
pub fn tickets_are_read()
    ensures { TicketsRead }
{}

// Every ticket that is written is one of bytes.
pub fn tickets_are_small()
    ensures { TicketsSmall }
{}

// The room of a ticket suffices for every change that can be proposed.
pub fn tickets_fit()
    ensures { TicketsFit }
{}

// A refused proposal changes nothing, nor does a refused posting.
pub fn refused_proposals_keep()
    ensures { ProposalsKeep }
{}

pub fn refused_postings_keep()
    ensures { PostingsKeep }
{}

// A proposal is refused by what is wrong with the change alone, also where no more changes are taken.
pub fn proposals_are_of_the_change()
    ensures { ProposalsOfChange }
{}

// A change that is made directly is never stale.
pub fn changes_are_never_stale()
    ensures { NeverStale }
{}

// Whatever a ticket says, a posting that is accepted is its change made directly.
pub fn postings_are_changes()
    ensures { PostingsAreChanges }
{}

// Posting after proposing, with no change between, is the direct change; after any change between, it is refused as stale.
pub fn postings_hold()
    ensures { PostingsHold }
{}

// A direct change is a proposal posted on the spot.
pub fn changes_are_posted_on_the_spot()
    ensures { PostedOnTheSpot }
{}

// Each accepted change is counted.
pub fn changes_are_counted()
    ensures { ChangesCounted }
{}

// A held book takes at most 60,000 changes from loading.
pub fn changes_are_limited()
    ensures { ChangesLimited }
{}
