// The table of longest pieces: for each place of the text how many letters the longest piece there has (document 01, "Pieces, C(4) and cuts").
// The loops know nothing of relation words: a fence stands once in the text, so no common prefix of two places goes past one.
#![tactic(auto)]

ghost use Rattle.std.specs.Prelude.{◌≡◌, ◌≤◌};
ghost use Rattle.longest.specs.Longest.{next, PassRoom, Passed, Ready, Advanced, Space, Tabled};

use layout::Text;

// The letters x and t agree: one letter more than behind them.
#[tactic(auto, using(crate::proofs::Passes::nexts))]
fn next_entry(x: u8, t: u8, behind: u8) -> u8
    requires { next x t behind ≤ 255 }
    ensures { result ≡ next x t behind }
{
    if x == t {
        return behind + 1;
    }
    0
}

// Loads and stores are unconditional, so that the compiler takes many places at a time.
fn pass(text: &[u8], row: &mut [u8], x: u8, from: usize, to: usize) -> u8
    requires { PassRoom text.now row.old x from to }
    ensures { Passed text.now row.old x from to row.new result }
{
    let mut best: u8 = 0;
    for q in from..to {
        let v = next_entry(x, text[q], row[q + 1]);
        row[q] = v;
        best = best.max(v);
    }
    best
}

// Place p itself is left out by two passes.
fn longest_at(text: &[u8], row: &mut [u8], p: usize) -> u8
    requires { Ready text.now p row.old }
    ensures { Advanced text.now p row.old row.new result }
{
    let x = text[p];
    let before = pass(text, row, x, 0, p);
    let behind = pass(text, row, x, p + 1, text.len());
    before.max(behind)
}

// From the last place to the first.
#[tactic(auto, using(crate::proofs::Passes::tablings))]
pub fn fill_longest(text: &[u8], longest: &mut [u8])
    requires { Space text.now longest.old }
    ensures { Tabled text.now longest.new }
{
    let mut row = [0u8; Text::ROOM + 1];
    for p in (0..text.len()).rev() {
        longest[p] = longest_at(text, &mut row, p);
    }
}
