// A word that is given as two slices: its letters, and what a part of the text has in common with it.
#![tactic(auto)]

ghost use Rattle.std.specs.Prelude.{◌≡◌, ◌+◌, ◌<◌, length, get_or, drop};
ghost use Rattle.words.specs.Words.{is_empty, is_prefix, common_prefix, part};
ghost use Rattle.layout.specs.Layout.{Span};
ghost use Rattle.joined.specs.Joined.{has_place, Agreed};
ghost use Rattle.joined.specs.Words.{word_of};

// How many letters of text[from..to) agree with s at place q, where m are known to.
pub fn common_prefix_in(
    text: &[u16],
    from: usize,
    to: usize,
    s: &[u16],
    q: usize,
    m: usize,
) -> usize
    requires { Agreed text.now from to s.now q m }
    ensures { result ≡ common_prefix (part text.now from to) (drop q s.now) }
{
    if s.len() <= q {
        return 0;
    }
    let n = (to - from).min(s.len() - q);
    for i in m..n {
        if text[from + i] != s[q + i] {
            return i;
        }
    }
    n
}

// Whether text[from..to) stands in s at place q.
#[tactic(auto, using(crate::proofs::Laws::beginnings))]
pub fn begins_in(text: &[u16], from: usize, to: usize, s: &[u16], q: usize) -> bool
    requires { Span text.now from to }
    ensures { result ≡ is_prefix (part text.now from to) (drop q s.now) }
{
    common_prefix_in(text, from, to, s, q, 0) == to - from
}

// A word in two slices, one behind the other: a part that the text has, and a part of the given word.
#[derive(Clone, Copy)]
pub struct Joined<'w> {
    pub front: &'w [u16],
    pub rest: &'w [u16],
}

impl<'w> Joined<'w> {
    // Whether the word is empty.
    #[tactic(auto, using(crate::proofs::Laws::empties))]
    pub fn is_empty(&self) -> bool
        ensures { result ≡ is_empty (word_of self.now) }
    {
        if 0 < self.front.len() {
            return false;
        }
        self.rest.len() == 0
    }

    // Whether the word has a letter at place q.
    #[tactic(auto, using(crate::proofs::Laws::letters))]
    pub fn has_place(&self, q: usize) -> bool
        ensures { result ≡ has_place (word_of self.now) q }
    {
        if q < self.front.len() {
            return true;
        }
        q - self.front.len() < self.rest.len()
    }

    // The letter of the word at place q.
    pub fn letter_at(&self, q: usize) -> u16
        requires { q < length self.now.front.now + length self.now.rest.now }
        ensures { result ≡ get_or (word_of self.now) q 0 }
    {
        if q < self.front.len() {
            return self.front[q];
        }
        self.rest[q - self.front.len()]
    }

    // How many letters of text[from..to) agree with the word at place q, where m are known to.
    pub fn common_prefix(&self, text: &[u16], from: usize, to: usize, q: usize, m: usize) -> usize
        requires { Agreed text.now from to (word_of self.now) q m }
        ensures { result ≡ common_prefix (part text.now from to) (drop q (word_of self.now)) }
    {
        let Joined { front, rest } = *self;
        if front.len() <= q {
            return common_prefix_in(text, from, to, rest, q - front.len(), m);
        }
        let room = front.len() - q;
        if room <= m {
            return room + common_prefix_in(text, from + room, to, rest, 0, m - room);
        }
        let r = common_prefix_in(text, from, to, front, q, m);
        if r < room {
            return r;
        }
        room + common_prefix_in(text, from + room, to, rest, 0, 0)
    }

    // Whether text[from..to) stands in the word at place q.
    #[tactic(auto, using(crate::proofs::Laws::beginnings))]
    pub fn has_part_at(&self, text: &[u16], from: usize, to: usize, q: usize) -> bool
        requires { Span text.now from to }
        ensures { result ≡ is_prefix (part text.now from to) (drop q (word_of self.now)) }
    {
        self.common_prefix(text, from, to, q, 0) == to - from
    }
}
