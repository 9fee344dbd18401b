// Which row of document 01 fits first, by how u, v and p begin with the parts of two relation words where these lie in the text.
// A word is a `Joined`: a head part, and what follows it.
#![tactic(auto)]

ghost use Rattle.std.specs.Prelude.{◌||◌, ◌≡◌, ◌<◌};
ghost use Rattle.words.specs.Words.{is_empty, is_prefix};
ghost use Rattle.overlap.specs.Cuts.{xy_of};
ghost use Rattle.congruence.specs.Rows.{member_of};
ghost use Rattle.layout.specs.Families.{Grouped};
ghost use Rattle.sites.specs.Sites.{SitesInText};
ghost use Rattle.rows.specs.Shapes.{row_by, shaped_row, kin_or_none, OneLeft, CleanWord, FoundRow};
ghost use Rattle.layout.specs.Views.{words_of, family_of, on};
ghost use Rattle.joined.specs.Words.{word_of};

use joined::Joined;
use layout::RelationWords;
use sites::Site;

// The first row that fits; from row 3 on, also the relation word of u's clean relation prefix and where it lies, and from row 4 on where the member of its family
// lies that v begins with.
#[derive(Clone, Copy)]
pub struct Found {
    // Kept: a number, since document 01 numbers the rows, and so does the definition `first_row`, by which `FoundRow` says what is found.
    pub row: u8,
    pub word: usize,
    pub own: Site,
    pub member: Site,
}

// The row from row 4 on: whether u begins with all of its relation word, whether v begins with all of its member, and whether these two are the same.
#[tactic(auto, using(crate::proofs::Laws::rows))]
fn row_by(whole: bool, all: bool, same: bool) -> u8
    ensures { result ≡ row_by whole all same }
{
    if whole {
        if all {
            return 4;
        }
        if same {
            return 5;
        }
        return 7;
    }
    if same {
        return 5;
    }
    if all {
        return 6;
    }
    8
}

// The same by how u and v begin: u begins with X and Y of the relation word at s, and v with those of the member at t.
#[tactic(auto, using(crate::proofs::Laws::shaped_rows))]
fn shaped_row(text: &[u16], s: Site, t: Site, same: bool, u: &Joined, v: &Joined) -> u8
    requires { SitesInText text.now s t }
    ensures { result ≡ shaped_row text.now s t same (word_of u.now) (word_of v.now) }
{
    let whole = u.has_part_at(text, s.tail, s.stop, s.tail - s.start);
    let all = v.has_part_at(text, t.tail, t.stop, t.tail - t.start);
    row_by(whole, all, same)
}

// Relation word j where it is of i's family, else n; there may be no word j.
#[tactic(auto, using(crate::proofs::Laws::kins))]
fn kin_or_none(words: &RelationWords, i: usize, j: usize) -> usize
    requires { i < words.now.n }
    ensures { result ≡ kin_or_none words.now.table.now words.now.n i j }
{
    if words.n <= j {
        return words.n;
    }
    if layout::family_of(words.table, i) == layout::family_of(words.table, j) {
        return j;
    }
    words.n
}

// Whether a word begins with X and Y of relation word j.
#[tactic(auto, using(crate::proofs::Laws::begins_here))]
fn begins_with(words: &RelationWords, j: usize, word: &Joined) -> bool
    requires { j < words.now.n }
    ensures { result ≡ is_prefix (xy_of (words_of words.now) j) (word_of word.now) }
{
    let s = sites::read_site(words.table, j);
    word.has_part_at(words.text, s.start, s.tail, 0)
}

// The other member of relation word i's family, which has two members or i alone, where the word begins with its X and Y, else n; it does not begin with those of i.
#[tactic(auto, using(crate::proofs::Laws::lefts))]
fn other_of_two(words: &RelationWords, i: usize, word: &Joined) -> usize
    requires { on words.now OneLeft (word_of word.now) i }
    ensures { result ≡ member_of (words_of words.now) (family_of words.now) i (word_of word.now) }
{
    let j = kin::first_other(words.table, words.n, i);
    if words.n <= j {
        return words.n;
    }
    if begins_with(words, j, word) {
        return j;
    }
    words.n
}

// The member of relation word i's family whose X and Y the word begins with, or n. X and Y of one relation word at most begin it. So i is tried first, in a family of
// two the other one, and in a larger family the one that the index finds.
#[tactic(auto, using(crate::proofs::Laws::members))]
fn member_of(words: &RelationWords, i: usize, word: &Joined) -> usize
    requires { i < words.now.n }
    ensures { result ≡ member_of (words_of words.now) (family_of words.now) i (word_of word.now) }
{
    if begins_with(words, i, word) {
        return i;
    }
    if kin::two_at_most(words.table, words.n, i) {
        return other_of_two(words, i, word);
    }
    kin_or_none(words, i, index::prefix_at(words, word, 0))
}

// Whether u or v is empty.
fn either_empty(u: &Joined, v: &Joined) -> bool
    ensures { result ≡ (is_empty (word_of u.now) || is_empty (word_of v.now)) }
{
    if u.is_empty() {
        return true;
    }
    v.is_empty()
}

// Row 1 or 2, for which no relation word is looked at.
fn without_sites(row: u8) -> Found
    ensures { result.row ≡ row }
{
    Found {
        row,
        word: 0,
        own: Site::NOWHERE,
        member: Site::NOWHERE,
    }
}

// Row 3 or a later one, where relation word i is the clean relation prefix of u. Row 3 names no member: the own site stands in its place.
fn with_sites(words: &RelationWords, i: usize, u: &Joined, v: &Joined, p: &[u16]) -> Found
    requires { on words.now CleanWord (word_of u.now) (word_of v.now) i }
    ensures { on words.now FoundRow (word_of u.now) (word_of v.now) p.now result }
{
    let own = sites::read_site(words.table, i);
    if kin::mark_in_any_x(words, i, p) {
        let j = member_of(words, i, v);
        if j < words.n {
            let member = sites::read_site(words.table, j);
            return Found {
                row: shaped_row(words.text, own, member, i == j, u, v),
                word: i,
                own,
                member,
            };
        }
    }
    Found {
        row: 3,
        word: i,
        own,
        member: own,
    }
}

// The first row that fits. What a row needs is looked for only where no row before it fits.
pub fn find_row(words: &RelationWords, u: &Joined, v: &Joined, p: &[u16]) -> Found
    ensures { on words.now FoundRow (word_of u.now) (word_of v.now) p.now result }
{
    if either_empty(u, v) {
        return without_sites(1);
    }
    let i = sites::clean_prefix(words, u);
    if words.n <= i {
        return without_sites(2);
    }
    with_sites(words, i, u, v, p)
}
