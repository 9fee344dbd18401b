// What a round of the least word reads: the clean relation prefix of a held word, the first member of a family in the dictionary, and what the given word from a place
// on is to a Z.
#![tactic(auto)]

ghost use Rattle.std.specs.Prelude.{◌≡◌, ◌<◌, drop};
ghost use Rattle.congruence.specs.Rows.{clean_relation_prefix};
ghost use Rattle.least.specs.Order.{house_rank};
ghost use Rattle.least.specs.Writing.{first_member, carrier};
ghost use Rattle.sites.specs.Sites.{SitesInText};
ghost use Rattle.kin.specs.Asked.{RestAsked};
ghost use Rattle.moves.specs.State.{placed_word, placed_mark};
ghost use Rattle.members.specs.Members.{first_at, better, settled, applies, active_apart, other_carrier, carries_first, quiet};
ghost use Rattle.members.specs.Asked.{WordAsked, MarkAsked, IdleAsked, QuietAsked};
ghost use Rattle.layout.specs.Views.{words_of, family_of, on};

use joined::Joined;
use layout::RelationWords;
use moves::{Mark, PlacedWord};
use sites::Site;

// The house table of ranks, by its numbers.
#[derive(Clone, Copy)]
pub struct House {}

impl House {
    // It has so many ranks, one for each letter below that number.
    pub const RANKS: u16 = 64;

    // The letters of the cleaning steps, which come first, are those from this one on.
    pub const CLEANING: u16 = 32;

    // So many they are, and the ranks of the others follow theirs.
    pub const FIRST: u16 = House::RANKS - House::CLEANING;
}

// The rank of a letter in the house table.
#[tactic(auto, using(crate::proofs::Ranks::ranks))]
fn rank(letter: u16) -> u16
    ensures { result ≡ house_rank letter }
{
    if letter < House::RANKS {
        return (letter + House::FIRST) % House::RANKS;
    }
    letter
}

// Whether the X and Y at s come before those at t, by the first place where they differ.
#[tactic(auto, using(crate::proofs::Ranks::firsts))]
fn differs_first(text: &[u16], s: Site, t: Site) -> bool
    requires { SitesInText text.now s t }
    ensures { result ≡ first_at text.now s t }
{
    let from = s.start;
    let at = t.start;
    let to = t.tail;
    let m = joined::common_prefix_in(text, from, s.tail, &text[at..to], 0, 0);
    if to - at <= m {
        return false;
    }
    if s.tail - from <= m {
        return true;
    }
    rank(text[from + m]) < rank(text[at + m])
}

// Whether the X and Y at s come before those at t. Mostly their first letters tell it.
#[tactic(auto, using(crate::proofs::Ranks::letters))]
fn comes_first(text: &[u16], s: Site, t: Site) -> bool
    requires { SitesInText text.now s t }
    ensures { result ≡ first_at text.now s t }
{
    let from = s.start;
    let at = t.start;
    if text[from] == text[at] {
        return differs_first(text, s, t);
    }
    rank(text[from]) < rank(text[at])
}

// Of member j, where p is a prefix of its X, and the best member so far, the one whose X and Y come first. There is no best member yet where that is n.
#[tactic(auto, using(crate::proofs::Laws::betters))]
fn better_of(words: &RelationWords, p: &[u16], best: usize, j: usize) -> usize
    requires { j < words.now.n }
    ensures { result ≡ better (words_of words.now) p.now best j }
{
    let s = sites::read_site(words.table, j);
    if sites::mark_in_x(words.text, s, p) {
        if best < words.n {
            let t = sites::read_site(words.table, best);
            if comes_first(words.text, s, t) {
                return j;
            }
            return best;
        }
        return j;
    }
    best
}

// Member j where p is a prefix of its X, or n.
#[tactic(auto, using(crate::proofs::Laws::markeds))]
fn marked_member(words: &RelationWords, p: &[u16], j: usize) -> usize
    requires { j < words.now.n }
    ensures { result ≡ better (words_of words.now) p.now words.now.n j }
{
    let s = sites::read_site(words.table, j);
    if sites::mark_in_x(words.text, s, p) {
        return j;
    }
    words.n
}

// Of the members of i's family, the first in the dictionary whose X the mark begins, or n.
pub fn first_member(words: &RelationWords, i: usize, mark: Mark) -> usize
    requires { on words.now MarkAsked i mark }
    ensures { result ≡ first_member (words_of words.now) (family_of words.now) house_rank i (placed_mark words.now.text.now mark) }
{
    let at = mark.at;
    let to = mark.to;
    let low = layout::family_of(words.table, i);
    let mut best = marked_member(words, &words.text[at..to], low);
    let mut j = layout::next_of(words.table, low);
    // Kept: a `while`, since no index is counted here: each member names the next one in the table, and an iterator over that would be these same lines with a contract for its `next`.
    while j < words.n {
        best = better_of(words, &words.text[at..to], best, j);
        j = layout::next_of(words.table, j);
    }
    best
}

// The chosen member of i's family, where t is the first that the mark allows, another than i, and b tells whether Z of i is possible behind X and Y.
pub fn settle_member(words: &RelationWords, i: usize, mark: Mark, t: usize, b: bool) -> usize
    requires { on words.now MarkAsked i mark }
    ensures { result ≡ settled (words_of words.now) words.now.n i (placed_mark words.now.text.now mark) t b }
{
    if b {
        return t;
    }
    let at = mark.at;
    let to = mark.to;
    let own = sites::read_site(words.table, i);
    if sites::mark_in_x(words.text, own, &words.text[at..to]) {
        return i;
    }
    words.n
}

// Whether a mark, which is no prefix of the given word from `from` on, lies in the X of a member of relation word i's family.
#[tactic(auto, using(crate::proofs::Choosing::applications))]
pub fn hint_applies(words: &RelationWords, given: &[u16], i: usize, q: Mark, from: usize) -> bool
    requires { on words.now MarkAsked i q }
    ensures { result ≡ applies (words_of words.now) (family_of words.now) given.now i (placed_mark words.now.text.now q) from }
{
    let at = q.at;
    let to = q.to;
    if joined::begins_in(words.text, at, to, given, from) {
        return false;
    }
    kin::mark_in_any_x(words, i, &words.text[at..to])
}

// The relation word whose X and Y are a clean relation prefix of a held word that has a letter, or n. None is looked for where no relation word begins with its first letter.
#[tactic(auto, using(crate::proofs::Choosing::words_clean))]
pub fn clean_of(words: &RelationWords, given: &[u16], h: PlacedWord) -> usize
    requires { on words.now WordAsked given.now h }
    ensures { result ≡ clean_relation_prefix (words_of words.now) (placed_word words.now.text.now given.now h) }
{
    let x = moves::first_letter(words.text, given, h);
    if sites::begins_none(words.table, x) {
        return words.n;
    }
    let held = Joined {
        front: &words.text[h.at..h.to],
        rest: &given[h.from..],
    };
    sites::clean_prefix(words, &held)
}

// Whether relation word c is another than i and j, and the given word from k on is active for its Z.
#[tactic(auto, using(crate::proofs::Choosing::aparts))]
fn active_apart(
    words: &RelationWords,
    given: &[u16],
    i: usize,
    j: usize,
    c: usize,
    k: usize,
) -> bool
    requires { on words.now RestAsked given.now c k }
    ensures { result ≡ active_apart (words_of words.now) i j (drop k given.now) c }
{
    if c == i {
        return false;
    }
    if c == j {
        return false;
    }
    kin::active_behind(words, given, c, k)
}

// The first member of i's family, other than i and j, for whose Z the given word from k on is active, or n.
#[tactic(auto, using(crate::proofs::Choosing::other_carriers))]
fn other_carrier(words: &RelationWords, given: &[u16], i: usize, j: usize, k: usize) -> usize
    requires { on words.now RestAsked given.now i k }
    ensures { result ≡ other_carrier (words_of words.now) (family_of words.now) i j (drop k given.now) }
{
    let mut c = layout::family_of(words.table, i);
    // Kept: a `while`, since no index is counted here: each member names the next one in the table, and an iterator over that would be these same lines with a contract for its `next`.
    while c < words.n {
        if active_apart(words, given, i, j, c, k) {
            return c;
        }
        c = layout::next_of(words.table, c);
    }
    words.n
}

// Whether i comes before c, and the given word from k on is active for its Z; it is not active for Z of j.
fn carries_first(
    words: &RelationWords,
    given: &[u16],
    i: usize,
    j: usize,
    c: usize,
    k: usize,
) -> bool
    requires { on words.now IdleAsked given.now i j k }
    ensures { result ≡ carries_first (words_of words.now) i (drop k given.now) c }
{
    if c <= i {
        return false;
    }
    if j == i {
        return false;
    }
    kin::active_behind(words, given, i, k)
}

// The first member of i's family for whose Z the given word from k on is active, or i; it is not active for Z of j. Where it is active for no other member,
// this is i, whether active or not.
pub fn find_carrier(words: &RelationWords, given: &[u16], i: usize, j: usize, k: usize) -> usize
    requires { on words.now IdleAsked given.now i j k }
    ensures { result ≡ carrier (words_of words.now) (family_of words.now) i (drop k given.now) }
{
    let c = other_carrier(words, given, i, j, k);
    if words.n <= c {
        return i;
    }
    if carries_first(words, given, i, j, c, k) {
        return i;
    }
    c
}

// Whether text[at..to] stands in the given word at place k, and no clean relation prefix begins in it there.
#[tactic(auto, using(crate::proofs::Choosing::quiets))]
pub fn stands_quiet(words: &RelationWords, given: &[u16], at: usize, to: usize, k: usize) -> bool
    requires { on words.now QuietAsked given.now at to k }
    ensures { result ≡ quiet words.now.text.now (words_of words.now) given.now at to k }
{
    if joined::begins_in(words.text, at, to, given, k) {
        let end = k + (to - at);
        return walks::first_clean(words, given, k, end) == end;
    }
    false
}
