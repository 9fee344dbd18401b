// What the first row that fits makes of u, v and p: it is decided over read-only data, as a plan of three changes.
// A word is a `Joined`: a head part, and what follows it.
#![tactic(auto)]

ghost use Rattle.std.specs.Prelude.{◌≡◌, ◌-◌, drop};
ghost use Rattle.congruence.specs.Rows.{tail_member};
ghost use Rattle.sites.specs.Sites.{site_of, SiteInText, SitesInText};
ghost use Rattle.changes.specs.Changes.{shared_suffix};
ghost use Rattle.plans.specs.Plans.{PlansRound};
ghost use Rattle.plans.specs.Asked.{HeadClear, BothNonEmpty, WholeWords, TailsHave};
ghost use Rattle.plans.specs.RowPlans.{plan1, drop_one, mark_drop, letter_drop, plan2, plan4, plan5, plan8_of};
ghost use Rattle.layout.specs.Views.{words_of, family_of, on};
ghost use Rattle.joined.specs.Words.{word_of};

pub use changes::{Change, Changes, Round};
use joined::Joined;
use layout::RelationWords;
use sites::Site;

// Row 1.
#[tactic(auto, using(crate::proofs::Laws::finishes))]
fn finish(u: &Joined, v: &Joined, p: &[u16]) -> Round<Changes>
    ensures { result ≡ plan1 (word_of u.now) (word_of v.now) p.now }
{
    if u.is_empty() {
        if v.is_empty() {
            return Round::End(p.len() == 0);
        }
        return Round::End(false);
    }
    Round::End(false)
}

// Row 2, where it goes on: u and v lose a letter, the mark m letters.
#[tactic(auto, using(crate::proofs::Laws::mades))]
fn drop_one(m: usize) -> Round<Changes>
    ensures { result ≡ drop_one m }
{
    let c = changes::cut_by(1);
    Round::Next(Changes {
        u: c,
        v: c,
        mark: changes::cut_by(m),
    })
}

// Row 2, where u and v begin with x.
#[tactic(auto, using(crate::proofs::Laws::mark_drops))]
fn drop_mark(x: u16, p: &[u16]) -> Round<Changes>
    ensures { result ≡ mark_drop x p.now }
{
    if p.len() == 0 {
        return drop_one(0);
    }
    if p[0] == x {
        return drop_one(1);
    }
    Round::End(false)
}

// Row 2, where u begins with x and v with y.
#[tactic(auto, using(crate::proofs::Laws::alike_drops))]
pub fn drop_by_letters(x: u16, y: u16, p: &[u16]) -> Round<Changes>
    ensures { result ≡ letter_drop x y p.now }
{
    if x == y {
        return drop_mark(x, p);
    }
    Round::End(false)
}

// Row 2.
#[tactic(auto, using(crate::proofs::Laws::letter_drops))]
fn drop_letters(u: &Joined, v: &Joined, p: &[u16]) -> Round<Changes>
    requires { BothNonEmpty (word_of u.now) (word_of v.now) }
    ensures { result ≡ plan2 (word_of u.now) (word_of v.now) p.now }
{
    let x = u.letter_at(0);
    let y = v.letter_at(0);
    drop_by_letters(x, y, p)
}

// Row 4, where relation word i lies at s and begins u, and the member at t begins v: the tail of a member takes the place of both. Whether the rest of u is active for
// the own tail is asked where that stands in u; the rest is in `u.rest`.
#[tactic(auto, using(crate::proofs::Laws::replacements))]
fn replace_words(
    words: &RelationWords,
    i: usize,
    s: Site,
    t: Site,
    u: &Joined,
    k: usize,
) -> Round<Changes>
    requires { on words.now WholeWords i s t u.now.front.now u.now.rest.now }
    ensures { result ≡ plan4 s t (site_of words.now.table.now (tail_member (words_of words.now) (family_of words.now) i (drop (s.stop - s.start) (word_of u.now)))) k }
{
    let m = s.stop - s.start;
    if sites::has_prefix_between(words, u, s.tail - s.start, m) {
        return changes::put_both(m, s, t.stop - t.start, k);
    }
    let j = kin::other_tail(words, u.rest, i, m - u.front.len());
    changes::put_both(m, sites::read_site(words.table, j), t.stop - t.start, k)
}

// Row 5.
#[tactic(auto, using(crate::proofs::Laws::mades))]
fn cut_prefixes(text: &[u16], s: Site, p: &[u16]) -> Round<Changes>
    requires { SiteInText text.now s }
    ensures { result ≡ plan5 text.now s p.now }
{
    let m = changes::mark_after(text, s, p);
    let c = changes::cut_by(s.tail - s.start);
    Round::Next(Changes {
        u: c,
        v: c,
        mark: m,
    })
}

// Row 8, where the last l letters of both Z are the same.
#[tactic(auto, using(crate::proofs::Laws::commons))]
fn cut_common(
    text: &[u16],
    s: Site,
    t: Site,
    l: usize,
    u: &Joined,
    v: &Joined,
    p: &[u16],
) -> Round<Changes>
    requires { TailsHave text.now s t l }
    ensures { result ≡ plan8_of text.now s t l (word_of u.now) (word_of v.now) p.now }
{
    if changes::rest_at(text, s, l, u) {
        if changes::rest_at(text, t, l, v) {
            return changes::cut_heads(s, t, l, p.len());
        }
        return Round::End(false);
    }
    Round::End(false)
}

// Row 8.
fn cut_ends(text: &[u16], s: Site, t: Site, u: &Joined, v: &Joined, p: &[u16]) -> Round<Changes>
    requires { SitesInText text.now s t }
    ensures { result ≡ plan8_of text.now s t (shared_suffix text.now s t) (word_of u.now) (word_of v.now) p.now }
{
    let l = changes::common_suffix(text, s, t);
    cut_common(text, s, t, l, u, v, p)
}

// One round: the plan of what the rows make of u, v and p. No X and Y stands in the head part of u, so that the rest behind a relation word is in what follows it.
pub fn decide(words: &RelationWords, u: &Joined, v: &Joined, p: &[u16]) -> Round<Changes>
    requires { on words.now HeadClear u.now.front.now }
    ensures { on words.now PlansRound (word_of u.now) (word_of v.now) p.now result }
{
    let found = rows::find_row(words, u, v, p);
    let row = found.row;
    let s = found.own;
    let t = found.member;
    match row {
        1 => finish(u, v, p),
        2 => drop_letters(u, v, p),
        3 => Round::End(false),
        4 => replace_words(words, found.word, s, t, u, p.len()),
        5 => cut_prefixes(words.text, s, p),
        6 => changes::put_on_v(s, t, p.len()),
        7 => changes::put_on_u(s, t, p.len()),
        _ => cut_ends(words.text, s, t, u, v, p),
    }
}
