// One round of the least word: what is written, and the word and the mark that it goes on with. The word is held as a part of the presentation's text followed by
// the rest of the given word, and the mark as a part of the text, so that no word is ever copied.
#![tactic(auto)]

ghost use Rattle.std.specs.Prelude.{◌≡◌, drop};
ghost use Rattle.overlap.specs.Cuts.{z_of};
ghost use Rattle.least.specs.Possible.{possible};
ghost use Rattle.least.specs.Writing.{letter_part, whole_part, other_part, member_part};
ghost use Rattle.moves.specs.State.{placed_word, placed_mark};
ghost use Rattle.parts.specs.State.{start_state, LeastReady, Makes, PartMade};
ghost use Rattle.parts.specs.Letters.{WordSmall, without_letter, first_source, HintLies, hint_behind};
ghost use Rattle.parts.specs.Choices.{denied_by, ToldRight, ChoiceMade, hint_of, source_behind, rest_state, tail_state, own_stage, other_stage};
ghost use Rattle.parts.specs.Asked.{LetterAsked, PlacesSmall, EndsShared, CleanAsked, RestFound, ToldFound, ChoiceFound, ApartFound, WholeFound, OtherFound};
ghost use Rattle.layout.specs.Views.{words_of, family_of, on};

use layout::RelationWords;
use moves::{Mark, PlacedWord};
use sites::Site;

// What an earlier walk told of the current word: whether a mark is a possible prefix of it.
#[derive(Clone, Copy)]
pub struct Hint {
    pub mark: Mark,
    pub possible: bool,
}

// What the rounds go on from: the word u, the front mark p, and what is known of u, if anything.
#[derive(Clone, Copy)]
pub struct LeastState {
    pub word: PlacedWord,
    pub mark: Mark,
    pub hint: Option<Hint>,
}

impl LeastState {
    // The whole given word behind a mark; nothing is known of it yet.
    pub const fn start(mark: Mark) -> LeastState
        ensures { result ≡ start_state mark }
    {
        LeastState {
            word: PlacedWord::WHOLE,
            mark,
            hint: None,
        }
    }
}

// Letters that are written: of the text, or of the given word, from one place to another.
#[derive(Clone, Copy)]
pub enum Source {
    Text { from: usize, to: usize },
    Given { from: usize, to: usize },
}

// One round: the end of the least word, or the letters written and the next state. Where there is no least word, there is no such round.
#[derive(Clone, Copy)]
pub enum Stage {
    End,
    Go(Source, LeastState),
}

// The relation word whose X and Y the least word begins with, or the number of relation words; and whether its Z is a possible prefix of what follows X and Y, if that
// is known.
#[derive(Clone, Copy)]
pub struct Choice {
    pub member: usize,
    pub told: Option<bool>,
}

// The letters of the relation word at s behind the mark, up to a place.
#[tactic(auto, using(crate::proofs::Laws::sources))]
fn source_behind(s: Site, mark: Mark, to: usize) -> Source
    requires { PlacesSmall s mark }
    ensures { result ≡ source_behind s mark to }
{
    Source::Text {
        from: s.start + (mark.to - mark.at),
        to,
    }
}

// The state whose word is the given word from k on.
#[tactic(auto, using(crate::proofs::Laws::states))]
fn rest_state(k: usize, mark: Mark, hint: Option<Hint>) -> LeastState
    ensures { result ≡ rest_state k mark hint }
{
    LeastState {
        word: PlacedWord {
            at: 0,
            to: 0,
            from: k,
        },
        mark,
        hint,
    }
}

// The state whose word is the Z at s and then the given word from k on, of which nothing is known.
#[tactic(auto, using(crate::proofs::Laws::states))]
fn tail_state(s: Site, k: usize, mark: Mark) -> LeastState
    ensures { result ≡ tail_state s k mark }
{
    LeastState {
        word: PlacedWord {
            at: s.tail,
            to: s.stop,
            from: k,
        },
        mark,
        hint: None,
    }
}

// A held word without its first letter.
#[tactic(auto, using(crate::proofs::Laws::withouts))]
fn without_letter(h: PlacedWord) -> PlacedWord
    requires { WordSmall h }
    ensures { result ≡ without_letter h }
{
    if h.at < h.to {
        return PlacedWord {
            at: h.at + 1,
            to: h.to,
            from: h.from,
        };
    }
    PlacedWord {
        at: h.at,
        to: h.to,
        from: h.from + 1,
    }
}

// Where the first letter of a held word stands.
#[tactic(auto, using(crate::proofs::Laws::first_sources))]
fn first_source(h: PlacedWord) -> Source
    requires { WordSmall h }
    ensures { result ≡ first_source h }
{
    if h.at < h.to {
        return Source::Text {
            from: h.at,
            to: h.at + 1,
        };
    }
    Source::Given {
        from: h.from,
        to: h.from + 1,
    }
}

// What is known of a word without its first letter x.
#[tactic(auto, using(crate::proofs::Laws::hints_behind))]
fn hint_behind(text: &[u16], hint: Option<Hint>, x: u16) -> Option<Hint>
    requires { HintLies text.now hint }
    ensures { result ≡ hint_behind text.now hint x }
{
    let known = hint?;
    let at = known.mark.at;
    let to = known.mark.to;
    if at < to {
        if text[at] == x {
            return Some(Hint {
                mark: Mark { at: at + 1, to },
                possible: known.possible,
            });
        }
        return None;
    }
    None
}

// What is known of the given word behind X and Y where something is told of the Z at s.
#[tactic(auto, using(crate::proofs::Laws::hints_of))]
fn hint_of(s: Site, told: Option<bool>) -> Option<Hint>
    ensures { result ≡ hint_of s told }
{
    let possible = told?;
    Some(Hint {
        mark: Mark {
            at: s.tail,
            to: s.stop,
        },
        possible,
    })
}

// What the hint of a state tells of Z of relation word i, its clean relation prefix, behind X and Y.
fn carry_hint(
    words: &RelationWords,
    given: &[u16],
    s: LeastState,
    i: usize,
    k: usize,
) -> Option<bool>
    requires { on words.now RestFound given.now s i k }
    ensures { ToldRight (words_of words.now) (family_of words.now) given.now i k result }
{
    let known = s.hint?;
    if members::hint_applies(words, given, i, known.mark, s.word.from) {
        return Some(known.possible);
    }
    None
}

// Whether Z of relation word i is a possible prefix of the given word from k on: as it is told, or by a walk.
#[tactic(auto, using(crate::proofs::Telling::asks))]
fn ask_possible(
    words: &RelationWords,
    given: &[u16],
    s: LeastState,
    i: usize,
    k: usize,
    told: Option<bool>,
) -> bool
    requires { on words.now ToldFound given.now s i k told }
    ensures { result ≡ possible (words_of words.now) (family_of words.now) (z_of (words_of words.now) i) (drop k given.now) }
{
    if let Some(possible) = told {
        return possible;
    }
    let z = sites::read_site(words.table, i);
    walks::possible(words, given, z.tail, z.stop, k)
}

// Whether it is told that Z is not possible.
#[tactic(auto, using(crate::proofs::Telling::denyings))]
fn denied(told: Option<bool>) -> bool
    ensures { result ≡ denied_by told }
{
    match told {
        Some(possible) => !possible,
        None => false,
    }
}

// The member of i's family whose X and Y the least word begins with, where nothing is told of Z of i, or that it is possible: it is asked only where another member comes first.
#[tactic(auto, using(crate::proofs::Telling::choices))]
fn choose_first(
    words: &RelationWords,
    given: &[u16],
    s: LeastState,
    i: usize,
    k: usize,
    told: Option<bool>,
) -> Choice
    requires { on words.now ToldFound given.now s i k told }
    ensures { on words.now ChoiceMade given.now s.mark i k result }
{
    let t = members::first_member(words, i, s.mark);
    if t == i {
        return Choice { member: i, told };
    }
    let b = ask_possible(words, given, s, i, k, told);
    Choice {
        member: members::settle_member(words, i, s.mark, t, b),
        told: Some(b),
    }
}

// The member of i's family whose X and Y the least word begins with, and what is told of Z of i on the way. Where it is told that Z is not possible, no other is looked at.
#[tactic(auto, using(crate::proofs::Telling::denials))]
fn choose_member(words: &RelationWords, given: &[u16], s: LeastState, i: usize, k: usize) -> Choice
    requires { on words.now RestFound given.now s i k }
    ensures { on words.now ChoiceMade given.now s.mark i k result }
{
    let told = carry_hint(words, given, s, i, k);
    if denied(told) {
        return Choice {
            member: members::settle_member(words, i, s.mark, words.n, false),
            told,
        };
    }
    choose_first(words, given, s, i, k, told)
}

// The part where u = XYZ w of relation word i, w is the given word from k on, and the least word begins with X and Y of relation word j.
fn write_whole(
    words: &RelationWords,
    given: &[u16],
    s: LeastState,
    i: usize,
    j: usize,
    k: usize,
) -> Stage
    requires { on words.now WholeFound given.now s i j k }
    ensures { Makes words.now.text.now (words_of words.now) (family_of words.now) given.now s (whole_part (words_of words.now) (family_of words.now) i j (placed_mark words.now.text.now s.mark) (drop k given.now)) (Some result) }
{
    let own = sites::read_site(words.table, j);
    if kin::active_behind(words, given, j, k) {
        let source = source_behind(own, s.mark, own.tail);
        return Stage::Go(source, tail_state(own, k, Mark::EMPTY));
    }
    let z = sites::read_site(words.table, members::find_carrier(words, given, i, j, k));
    let source = source_behind(own, s.mark, own.stop);
    let mark = Mark {
        at: z.tail,
        to: z.stop,
    };
    Stage::Go(source, tail_state(z, k, mark))
}

// The part with the relation word at z in the place of the one at `own`, where the last l letters of both Z agree: if the letters before these stand in the given
// word at k, they are left out there and here; else the whole word is written, and Z has to be a possible prefix of what follows.
#[tactic(auto, using(crate::proofs::Laws::ends))]
fn put_other(own: Site, z: Site, mark: Mark, l: usize, k: usize, stands: bool) -> Stage
    requires { EndsShared own z mark l k }
    ensures { result ≡ other_stage own z mark l k stands }
{
    let cut = own.stop - l;
    if stands {
        let source = source_behind(z, mark, z.stop - l);
        let end = Mark {
            at: cut,
            to: own.stop,
        };
        let hint = Hint {
            mark: end,
            possible: true,
        };
        let next = rest_state(k + (cut - own.tail), Mark::EMPTY, Some(hint));
        return Stage::Go(source, next);
    }
    let source = source_behind(z, mark, z.stop);
    let tail = Mark {
        at: own.tail,
        to: own.stop,
    };
    let hint = Hint {
        mark: tail,
        possible: true,
    };
    Stage::Go(source, rest_state(k, tail, Some(hint)))
}

// The part where u = XY s of relation word i, s is the given word from k on and does not begin with Z, and the least word begins with X and Y of another relation word j.
fn write_other(
    words: &RelationWords,
    given: &[u16],
    s: LeastState,
    i: usize,
    j: usize,
    k: usize,
) -> Stage
    requires { on words.now OtherFound given.now s i j k }
    ensures { Makes words.now.text.now (words_of words.now) (family_of words.now) given.now s (other_part (words_of words.now) i j (placed_mark words.now.text.now s.mark) (drop k given.now)) (Some result) }
{
    let own = sites::read_site(words.table, i);
    let z = sites::read_site(words.table, j);
    let l = changes::common_suffix(words.text, own, z);
    let stands = members::stands_quiet(words, given, own.tail, own.stop - l, k);
    put_other(own, z, s.mark, l, k, stands)
}

// The part where u = XY s of the relation word at `own`, s is the given word from k on and does not begin with Z, and the least word begins with the same X and Y.
#[tactic(auto, using(crate::proofs::Rounds::owns))]
fn write_own(own: Site, mark: Mark, k: usize, told: Option<bool>) -> Stage
    requires { PlacesSmall own mark }
    ensures { result ≡ own_stage own mark k told }
{
    let source = source_behind(own, mark, own.tail);
    let hint = hint_of(own, told);
    Stage::Go(source, rest_state(k, Mark::EMPTY, hint))
}

// The part where u = XY s of relation word i, s is the given word from k on and does not begin with Z, and a member is chosen.
fn write_apart(
    words: &RelationWords,
    given: &[u16],
    s: LeastState,
    i: usize,
    k: usize,
    c: Choice,
) -> Stage
    requires { on words.now ApartFound given.now s i k c }
    ensures { Makes words.now.text.now (words_of words.now) (family_of words.now) given.now s (member_part (words_of words.now) (family_of words.now) i c.member (placed_mark words.now.text.now s.mark) (placed_word words.now.text.now given.now s.word)) (Some result) }
{
    let j = c.member;
    let told = c.told;
    if j == i {
        let own = sites::read_site(words.table, i);
        return write_own(own, s.mark, k, told);
    }
    write_other(words, given, s, i, j, k)
}

// The part where relation word i is the clean relation prefix of u, the given word from k on follows its X and Y, and a member is chosen.
fn write_member(
    words: &RelationWords,
    given: &[u16],
    s: LeastState,
    i: usize,
    k: usize,
    c: Choice,
) -> Option<Stage>
    requires { on words.now ChoiceFound given.now s i k c }
    ensures { Makes words.now.text.now (words_of words.now) (family_of words.now) given.now s (member_part (words_of words.now) (family_of words.now) i c.member (placed_mark words.now.text.now s.mark) (placed_word words.now.text.now given.now s.word)) result }
{
    let j = c.member;
    if words.n <= j {
        return None;
    }
    let own = sites::read_site(words.table, i);
    if joined::begins_in(words.text, own.tail, own.stop, given, k) {
        let behind = k + (own.stop - own.tail);
        return Some(write_whole(words, given, s, i, j, behind));
    }
    Some(write_apart(words, given, s, i, k, c))
}

// The place of the given word behind X and Y of relation word i, the clean relation prefix of u: they reach past u's part of the text.
fn place_behind(words: &RelationWords, given: &[u16], s: LeastState, i: usize) -> usize
    requires { on words.now CleanAsked given.now s i }
    ensures { on words.now RestFound given.now s i result }
{
    let own = sites::read_site(words.table, i);
    let word = s.word;
    word.from + (own.tail - own.start - (word.to - word.at))
}

// The part where relation word i is the clean relation prefix of u.
#[tactic(auto, using(crate::proofs::Rounds::relations))]
fn write_relation(words: &RelationWords, given: &[u16], s: LeastState, i: usize) -> Option<Stage>
    requires { on words.now CleanAsked given.now s i }
    ensures { on words.now PartMade given.now s result }
{
    let k = place_behind(words, given, s, i);
    let c = choose_member(words, given, s, i, k);
    write_member(words, given, s, i, k, c)
}

// The part where u has a letter and no clean relation prefix: its first letter stays.
fn write_letter(words: &RelationWords, given: &[u16], s: LeastState) -> Option<Stage>
    requires { on words.now LetterAsked given.now s }
    ensures { Makes words.now.text.now (words_of words.now) (family_of words.now) given.now s (letter_part (placed_mark words.now.text.now s.mark) (placed_word words.now.text.now given.now s.word)) result }
{
    let x = moves::first_letter(words.text, given, s.word);
    let next = without_letter(s.word);
    let old = s.hint;
    let hint = hint_behind(words.text, old, x);
    let mark = s.mark;
    let at = mark.at;
    if mark.to <= at {
        let state = LeastState {
            word: next,
            mark,
            hint,
        };
        return Some(Stage::Go(first_source(s.word), state));
    }
    if words.text[at] == x {
        let nothing = Source::Given { from: 0, to: 0 };
        let rest = Mark {
            at: at + 1,
            to: mark.to,
        };
        let state = LeastState {
            word: next,
            mark: rest,
            hint,
        };
        return Some(Stage::Go(nothing, state));
    }
    None
}

// One round, or none where there is no least word.
pub fn make_part(words: &RelationWords, given: &[u16], s: LeastState) -> Option<Stage>
    requires { on words.now LeastReady given.now s }
    ensures { on words.now PartMade given.now s result }
{
    if moves::held_empty(given, s.word) {
        let mark = s.mark;
        if mark.at < mark.to {
            return None;
        }
        return Some(Stage::End);
    }
    let i = members::clean_of(words, given, s.word);
    if words.n <= i {
        return write_letter(words, given, s);
    }
    write_relation(words, given, s, i)
}
