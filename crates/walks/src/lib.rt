// Whether a mark is a possible prefix of the rest of the given word: a walk along that rest, which rewrites nothing. The mark is a part of the text.
#![tactic(auto)]

ghost use Rattle.std.specs.Prelude.{◌≡◌, drop};
ghost use Rattle.words.specs.Words.{part};
ghost use Rattle.congruence.specs.Rows.{clean_relation_prefix};
ghost use Rattle.least.specs.Possible.{possible};
ghost use Rattle.walks.specs.Walks.{PlaceAsked, PlacesAsked, FirstClean, Walking, Turning, Parting, LegMade};
ghost use Rattle.layout.specs.Views.{words_of, family_of, on};

use joined::Joined;
use layout::RelationWords;

// One leg of a walk: the mark is possible; it is not; or it is if text[at..to] is possible behind place `from` of the given word.
#[derive(Clone, Copy)]
pub enum Leg {
    Yes,
    No,
    Next(usize, usize, usize),
}

// The relation word whose X and Y are a clean relation prefix of the given word from place q on, or n.
pub fn clean_at(words: &RelationWords, given: &[u16], q: usize) -> usize
    requires { on words.now PlaceAsked given.now q }
    ensures { result ≡ clean_relation_prefix (words_of words.now) (drop q given.now) }
{
    let rest = Joined {
        front: &given[..0],
        rest: &given[q..],
    };
    sites::clean_prefix(words, &rest)
}

// The first place from `from` on and below `to` at which the given word has a clean relation prefix, or `to`.
pub fn first_clean(words: &RelationWords, given: &[u16], from: usize, to: usize) -> usize
    requires { on words.now PlacesAsked given.now from to }
    ensures { FirstClean (words_of words.now) given.now from to result }
{
    for q in from..to {
        if clean_at(words, given, q) < words.n {
            return q;
        }
    }
    to
}

// A leg that begins with a clean relation prefix: the mark has to lie in the X of a member of that word's family, and Z has to be possible behind X and Y.
fn take_turn(words: &RelationWords, given: &[u16], at: usize, to: usize, from: usize) -> Leg
    requires { on words.now Turning given.now at to from }
    ensures { on words.now LegMade given.now at to from result }
{
    let i = clean_at(words, given, from);
    if kin::mark_in_any_x(words, i, &words.text[at..to]) {
        let own = sites::read_site(words.table, i);
        return Leg::Next(own.tail, own.stop, from + (own.tail - own.start));
    }
    Leg::No
}

// A leg behind whose first m letters, which the mark and the given word have in common, they part: it goes to the first clean relation prefix before that.
fn turn_before(
    words: &RelationWords,
    given: &[u16],
    at: usize,
    to: usize,
    from: usize,
    m: usize,
) -> Leg
    requires { on words.now Parting given.now at to from m }
    ensures { on words.now LegMade given.now at to from result }
{
    let end = (from + m + 1).min(given.len());
    let q = first_clean(words, given, from, end);
    if q < end {
        return take_turn(words, given, at + (q - from), to, q);
    }
    Leg::No
}

// One leg: along the letters that the mark and the given word have in common, up to the first clean relation prefix.
#[tactic(auto, using(crate::proofs::Laws::legs))]
fn walk_leg(words: &RelationWords, given: &[u16], at: usize, to: usize, from: usize) -> Leg
    requires { on words.now Walking given.now at to from }
    ensures { on words.now LegMade given.now at to from result }
{
    let m = joined::common_prefix_in(words.text, at, to, given, from, 0);
    if m == to - at {
        return Leg::Yes;
    }
    turn_before(words, given, at, to, from, m)
}

// Whether text[at..to] is a possible prefix of the given word from `from` on.
pub fn possible(words: &RelationWords, given: &[u16], at: usize, to: usize, from: usize) -> bool
    requires { on words.now Walking given.now at to from }
    ensures { result ≡ possible (words_of words.now) (family_of words.now) (part words.now.text.now at to) (drop from given.now) }
{
    let mut a = at;
    let mut b = to;
    let mut q = from;
    // Kept: a `loop`, since no index is counted here: each leg tells where the next one begins, and how many there are is known only at the end.
    loop {
        let leg = walk_leg(words, given, a, b, q);
        match leg {
            Leg::Yes => return true,
            Leg::No => return false,
            Leg::Next(x, y, z) => {
                a = x;
                b = y;
                q = z;
            }
        }
    }
}
