// What plans are made of: the changes of one word, the plans that two sites give by their positions alone, and what is read to cut equal ends.
// A word is a `Joined`: a head part, and what follows it.
#![tactic(auto)]

ghost use Rattle.std.specs.Prelude.{◌≡◌};
ghost use Rattle.sites.specs.Sites.{SiteInText, SitesInText};
ghost use Rattle.changes.specs.Asked.{BackRoom, AgreeBack, SitesUpwards, TailHas, SitesHave};
ghost use Rattle.changes.specs.Changes.{cut_by, tail_by, put_both, mark_after, plan6, plan7, shared_suffix, rest_at, plan8};
ghost use Rattle.joined.specs.Words.{word_of};

pub use asked::Round;
use joined::Joined;
use sites::Site;

// The next word is text[from..to], and then the old word without its first `cut` letters.
#[derive(Clone, Copy)]
pub struct Change {
    pub from: usize,
    pub to: usize,
    pub cut: usize,
}

// The changes of u, v and the front mark p.
#[derive(Clone, Copy)]
pub struct Changes {
    pub u: Change,
    pub v: Change,
    pub mark: Change,
}

// Only cuts n letters.
#[tactic(auto, using(crate::proofs::Laws::changes_made))]
pub fn cut_by(n: usize) -> Change
    ensures { result ≡ cut_by n }
{
    Change {
        from: 0,
        to: 0,
        cut: n,
    }
}

// Puts the Z at s in the place of n letters.
#[tactic(auto, using(crate::proofs::Laws::changes_made))]
fn put_tail(s: Site, n: usize) -> Change
    ensures { result ≡ tail_by s n }
{
    Change {
        from: s.tail,
        to: s.stop,
        cut: n,
    }
}

// The tail at z takes the place of m letters of u and of l letters of v.
#[tactic(auto, using(crate::proofs::Laws::mades))]
pub fn put_both(m: usize, z: Site, l: usize, k: usize) -> Round<Changes>
    ensures { result ≡ put_both m z l k }
{
    Round::Next(Changes {
        u: put_tail(z, m),
        v: put_tail(z, l),
        mark: cut_by(k),
    })
}

// The front mark after row 5.
#[tactic(auto, using(crate::proofs::Laws::afters))]
pub fn mark_after(text: &[u16], s: Site, p: &[u16]) -> Change
    requires { SiteInText text.now s }
    ensures { result ≡ mark_after text.now s p.now }
{
    if sites::mark_in_x(text, s, p) {
        return cut_by(p.len());
    }
    put_tail(s, p.len())
}

// Row 6.
#[tactic(auto, using(crate::proofs::Laws::mades))]
pub fn put_on_v(s: Site, t: Site, k: usize) -> Round<Changes>
    requires { SitesUpwards s t }
    ensures { result ≡ plan6 s t k }
{
    Round::Next(Changes {
        u: cut_by(s.tail - s.start),
        v: put_tail(s, t.stop - t.start),
        mark: cut_by(k),
    })
}

// Row 7.
#[tactic(auto, using(crate::proofs::Laws::mades))]
pub fn put_on_u(s: Site, t: Site, k: usize) -> Round<Changes>
    requires { SitesUpwards s t }
    ensures { result ≡ plan7 s t k }
{
    Round::Next(Changes {
        u: put_tail(t, s.stop - s.start),
        v: cut_by(t.tail - t.start),
        mark: cut_by(k),
    })
}

// How many letters before x and before y agree, of at most `room`.
fn agree_back(text: &[u16], x: usize, y: usize, room: usize) -> usize
    requires { BackRoom text.now x y room }
    ensures { AgreeBack text.now x y room result }
{
    for l in 0..room {
        if text[x - 1 - l] != text[y - 1 - l] {
            return l;
        }
    }
    room
}

// How many letters of the Z at s and of the Z at t agree at their ends.
#[tactic(auto, using(crate::proofs::CommonSuffixes::shared_suffixes))]
pub fn common_suffix(text: &[u16], s: Site, t: Site) -> usize
    requires { SitesInText text.now s t }
    ensures { result ≡ shared_suffix text.now s t }
{
    let room = (s.stop - s.tail).min(t.stop - t.tail);
    agree_back(text, s.stop, t.stop, room)
}

// Whether Z without its last l letters follows X and Y.
#[tactic(auto, using(crate::proofs::Laws::rests))]
pub fn rest_at(text: &[u16], s: Site, l: usize, word: &Joined) -> bool
    requires { TailHas text.now s l }
    ensures { result ≡ rest_at text.now s l (word_of word.now) }
{
    word.has_part_at(text, s.tail, s.stop - l, s.tail - s.start)
}

// Row 8, where it goes on.
pub fn cut_heads(s: Site, t: Site, l: usize, k: usize) -> Round<Changes>
    requires { SitesHave s t l }
    ensures { result ≡ plan8 s t l k }
{
    let x = s.stop - l;
    Round::Next(Changes {
        u: cut_by(x - s.start),
        v: cut_by(t.stop - l - t.start),
        mark: Change {
            from: x,
            to: s.stop,
            cut: k,
        },
    })
}
