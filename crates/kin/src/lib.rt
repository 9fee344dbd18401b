// What is asked of the members of a family: whether a mark lies in the X of one, for whose Z a rest is active, and which of them gives row 4 its tail.
// Members are met in rising order, by the links of the table.
#![tactic(auto)]

ghost use Rattle.std.specs.Prelude.{◌≡◌, ◌<◌, drop};
ghost use Rattle.words.specs.Search.{least};
ghost use Rattle.words.specs.Words.{is_prefix};
ghost use Rattle.overlap.specs.Cuts.{x_of, z_of};
ghost use Rattle.congruence.specs.Rows.{active, marked_by_any, is_other, first_active, tail_member};
ghost use Rattle.kin.specs.Asked.{LinkedWord, RestAsked, IdleRest, two_at_most, active_other};
ghost use Rattle.layout.specs.Families.{family_by};
ghost use Rattle.layout.specs.Views.{words_of, family_of, on};

use joined::Joined;
use layout::RelationWords;

// Whether p is a prefix of the X of relation word j.
#[tactic(auto, using(crate::proofs::Laws::mark_here))]
fn mark_in_word(words: &RelationWords, j: usize, p: &[u16]) -> bool
    requires { j < words.now.n }
    ensures { result ≡ is_prefix p.now (x_of (words_of words.now) j) }
{
    sites::mark_in_x(words.text, sites::read_site(words.table, j), p)
}

// Whether p is a prefix of the X of a member of relation word i's family. An empty mark is one of every X, and another mostly lies in its own X, which is tried first.
pub fn mark_in_any_x(words: &RelationWords, i: usize, p: &[u16]) -> bool
    requires { i < words.now.n }
    ensures { result ≡ marked_by_any (words_of words.now) (family_of words.now) i p.now }
{
    if p.len() == 0 {
        return true;
    }
    if mark_in_word(words, i, p) {
        return true;
    }
    let mut j = layout::family_of(words.table, i);
    // Kept: a `while`, since no index is counted here: each member names the next one in the table, and an iterator over that would be these same lines with a contract for its `next`.
    while j < words.n {
        if mark_in_word(words, j, p) {
            return true;
        }
        j = layout::next_of(words.table, j);
    }
    false
}

// Whether the given word from place k on is active for the Z of relation word j.
#[tactic(auto, using(crate::proofs::Laws::actives))]
pub fn active_behind(words: &RelationWords, given: &[u16], j: usize, k: usize) -> bool
    requires { on words.now RestAsked given.now j k }
    ensures { result ≡ active (words_of words.now) (z_of (words_of words.now) j) (drop k given.now) }
{
    let z = sites::read_site(words.table, j);
    let behind = Joined {
        front: &words.text[z.tail..z.stop],
        rest: &given[k..],
    };
    sites::has_prefix_between(words, &behind, 0, z.stop - z.tail)
}

// The first other member of relation word i's family, or n: the lowest member, which is the family's number, or the next one where i is the lowest itself.
// Kept: table and number, since `LinkedWord` asks less than `RelationWords` holds, and docs/AUDIT.md names the function.
#[tactic(auto, using(crate::proofs::Tails::others))]
pub fn first_other(table: &[u16], n: usize, i: usize) -> usize
    requires { LinkedWord table.now n i }
    ensures { result ≡ least n (is_other (family_by table.now n) i) }
{
    let low = layout::family_of(table, i);
    if low != i {
        return low;
    }
    let next = layout::next_of(table, i);
    if next < n {
        return next;
    }
    n
}

// Whether relation word i's family has two members or i alone.
// Kept: table and number, as in `first_other`; docs/DECISIONS.md names the function.
#[tactic(auto, using(crate::proofs::Tails::twos))]
pub fn two_at_most(table: &[u16], n: usize, i: usize) -> bool
    requires { LinkedWord table.now n i }
    ensures { result ≡ two_at_most table.now n i }
{
    let second = layout::next_of(table, layout::family_of(table, i));
    if n <= second {
        return true;
    }
    n <= layout::next_of(table, second)
}

// Whether relation word j is not i and the given word from place k on is active for its Z.
#[tactic(auto, using(crate::proofs::Tails::active_others))]
fn active_other(words: &RelationWords, given: &[u16], i: usize, j: usize, k: usize) -> bool
    requires { on words.now RestAsked given.now j k }
    ensures { result ≡ active_other (words_of words.now) i (drop k given.now) j }
{
    if j == i {
        return false;
    }
    active_behind(words, given, j, k)
}

// The first other member of relation word i's family for whose Z the given word from place k on is active, or n.
#[tactic(auto, using(crate::proofs::Tails::quiets))]
fn first_active(words: &RelationWords, given: &[u16], i: usize, k: usize) -> usize
    requires { on words.now RestAsked given.now i k }
    ensures { result ≡ first_active (words_of words.now) (family_of words.now) i (drop k given.now) }
{
    let mut member = layout::family_of(words.table, i);
    // Kept: a `while`, since no index is counted here: each member names the next one in the table, and an iterator over that would be these same lines with a contract for its `next`.
    while member < words.n {
        if active_other(words, given, i, member, k) {
            return member;
        }
        member = layout::next_of(words.table, member);
    }
    words.n
}

// The member of relation word i's family whose Z row 4 goes on with, where the given word from place k on is the rest of u and is not active for Z of i. Where only
// one other member is there, it is that one, whether the rest is active for it or not.
#[tactic(auto, using(crate::proofs::Tails::tails))]
pub fn other_tail(words: &RelationWords, given: &[u16], i: usize, k: usize) -> usize
    requires { on words.now IdleRest given.now i k }
    ensures { result ≡ tail_member (words_of words.now) (family_of words.now) i (drop k given.now) }
{
    let other = first_other(words.table, words.n, i);
    if words.n <= other {
        return i;
    }
    if two_at_most(words.table, words.n, i) {
        return other;
    }
    let first = first_active(words, given, i, k);
    if first < words.n {
        return first;
    }
    other
}
