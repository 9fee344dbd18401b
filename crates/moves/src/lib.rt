// The state of a comparison and one round of it. Both words are held as a part of the presentation's text followed by the rest of the given word, so that no
// word is ever copied (document 01, "Exchanges and rounds").
#![tactic(auto)]

ghost use Rattle.std.specs.Prelude.{◌≡◌, length, get_or};
ghost use Rattle.plans.specs.Plans.{PlansRound};
ghost use Rattle.moves.specs.State.{beyond_of, Movable, advanced_of, MarkMovable, advanced_mark, placed_word, placed_mark, StateReady, Applicable, move_of, RoundMade};
ghost use Rattle.moves.specs.Drops.{held_empty, HasLetter, RowTold, DropDue};
ghost use Rattle.layout.specs.Views.{on};

use joined::Joined;
use layout::RelationWords;
pub use plans::Round;
use plans::{Change, Changes};

// A word: text[at..to], then the given word from `from` on.
#[derive(Clone, Copy)]
pub struct PlacedWord {
    pub at: usize,
    pub to: usize,
    pub from: usize,
}

impl PlacedWord {
    // The whole given word.
    pub const WHOLE: PlacedWord = PlacedWord {
        at: 0,
        to: 0,
        from: 0,
    };
}

// The front mark: text[at..to].
#[derive(Clone, Copy)]
pub struct Mark {
    pub at: usize,
    pub to: usize,
}

impl Mark {
    // The mark that has no letter.
    pub const EMPTY: Mark = Mark { at: 0, to: 0 };
}

// What a comparison goes on from: u, v and the front mark p.
#[derive(Clone, Copy)]
pub struct State {
    pub u: PlacedWord,
    pub v: PlacedWord,
    pub mark: Mark,
}

// How far a cut goes beyond a part of some length.
fn beyond(cut: usize, length: usize) -> usize
    ensures { result ≡ beyond_of cut length }
{
    if length < cut {
        return cut - length;
    }
    0
}

// The word after a change.
#[tactic(auto, using(crate::proofs::Laws::advances))]
fn advance(h: PlacedWord, c: Change) -> PlacedWord
    requires { Movable h c }
    ensures { result ≡ advanced_of h c }
{
    let tail = h.to - h.at;
    let next = h.from + beyond(c.cut, tail);
    if c.from < c.to {
        return PlacedWord {
            at: c.from,
            to: c.to,
            from: next,
        };
    }
    if c.cut < tail {
        return PlacedWord {
            at: h.at + c.cut,
            to: h.to,
            from: h.from,
        };
    }
    PlacedWord {
        at: h.to,
        to: h.to,
        from: next,
    }
}

// The front mark after a change.
fn advance_mark(m: Mark, c: Change) -> Mark
    requires { MarkMovable m c }
    ensures { result ≡ advanced_mark m c }
{
    if c.from < c.to {
        return Mark {
            at: c.from,
            to: c.to,
        };
    }
    Mark {
        at: m.at + c.cut,
        to: m.to,
    }
}

// What the round of a state does, over its words as they are held.
fn plan_of(words: &RelationWords, first: &[u16], second: &[u16], s: State) -> Round<Changes>
    requires { on words.now StateReady first.now second.now s }
    ensures { on words.now PlansRound (placed_word words.now.text.now first.now s.u) (placed_word words.now.text.now second.now s.v) (placed_mark words.now.text.now s.mark) result }
{
    let u = Joined {
        front: &words.text[s.u.at..s.u.to],
        rest: &first[s.u.from..],
    };
    let v = Joined {
        front: &words.text[s.v.at..s.v.to],
        rest: &second[s.v.from..],
    };
    plans::decide(words, &u, &v, &words.text[s.mark.at..s.mark.to])
}

// The state after a plan, or its end.
fn carry_out(s: State, plan: Round<Changes>) -> Round<State>
    requires { Applicable s plan }
    ensures { result ≡ move_of s plan }
{
    match plan {
        Round::End(same) => Round::End(same),
        Round::Next(changes) => Round::Next(State {
            u: advance(s.u, changes.u),
            v: advance(s.v, changes.v),
            mark: advance_mark(s.mark, changes.mark),
        }),
    }
}

// Whether a held word has no letter.
#[tactic(auto, using(crate::proofs::Drops::held_empties))]
pub fn held_empty(given: &[u16], h: PlacedWord) -> bool
    ensures { result ≡ held_empty (length given.now) h }
{
    if h.at < h.to {
        return false;
    }
    given.len() <= h.from
}

// The first letter of a held word.
#[tactic(auto, using(crate::proofs::Drops::first_letters))]
pub fn first_letter(text: &[u16], given: &[u16], h: PlacedWord) -> u16
    requires { HasLetter text.now given.now h }
    ensures { result ≡ get_or (placed_word text.now given.now h) 0 0 }
{
    let at = h.at;
    let from = h.from;
    if at < h.to {
        return text[at];
    }
    given[from]
}

// The first row that fits, where the first letters tell it: 2, where no relation word begins with u's. Else relation words have to be looked at.
#[tactic(auto, using(crate::proofs::Drops::rows_told))]
fn row_by_letters(words: &RelationWords, first: &[u16], second: &[u16], s: State) -> Option<u8>
    requires { on words.now StateReady first.now second.now s }
    ensures { on words.now RowTold first.now second.now s result }
{
    if held_empty(first, s.u) {
        return None;
    }
    if held_empty(second, s.v) {
        return None;
    }
    let x = first_letter(words.text, first, s.u);
    if sites::begins_none(words.table, x) {
        return Some(2);
    }
    None
}

// What row 2 does, by the first letters of both words as they are held.
fn drop_plan(words: &RelationWords, first: &[u16], second: &[u16], s: State) -> Round<Changes>
    requires { on words.now DropDue first.now second.now s }
    ensures { on words.now PlansRound (placed_word words.now.text.now first.now s.u) (placed_word words.now.text.now second.now s.v) (placed_mark words.now.text.now s.mark) result }
{
    let x = first_letter(words.text, first, s.u);
    let y = first_letter(words.text, second, s.v);
    plans::drop_by_letters(x, y, &words.text[s.mark.at..s.mark.to])
}

// One round. Most rounds are of row 2 and told by the first letters; of the others `plans::decide` finds the row and decides by it. Each arm carries out its own plan, so
// that the cuts of row 2 stay three sums. It is inlined where a comparison calls it: as a call of its own, with the state handed over in memory, a comparison of most rounds
// took twice the time.
#[inline(always)]
pub fn make_move(words: &RelationWords, first: &[u16], second: &[u16], s: State) -> Round<State>
    requires { on words.now StateReady first.now second.now s }
    ensures { on words.now RoundMade first.now second.now s result }
{
    let row = row_by_letters(words, first, second, s);
    match row {
        Some(2) => carry_out(s, drop_plan(words, first, second, s)),
        _ => carry_out(s, plan_of(words, first, second, s)),
    }
}
