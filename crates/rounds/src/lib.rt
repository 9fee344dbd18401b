// The single round: it is decided as a plan, and the next words are written into three lent buffers.
#![tactic(auto)]

ghost use Rattle.std.specs.Prelude.{◌≡◌};
ghost use Rattle.congruence.specs.Rows.{round};
ghost use Rattle.plans.specs.Plans.{planned, PlansRound};
ghost use Rattle.asked.specs.declared.Round.TheVariants.{Next};
ghost use Rattle.rounds.specs.Writing.{Writable, Written, written_by, AllWritable, Planned, GivenShort, GivenRoom, LentInBytes, Lent};
ghost use Rattle.rounds.specs.Writing.Outcome.{after};
ghost use Rattle.layout.specs.Views.{words_of, family_of, on};

pub use asked::{Lengths, Round};
use given::widen_word;
use joined::Joined;
use layout::RelationWords;
use limits::Word;
use plans::{Change, Changes, decide};

// The word that a change makes of w goes to the start of the buffer; its length comes back.
fn write_change(text: &[u16], c: Change, w: &[u8], out: &mut [u8]) -> usize
    requires { Writable text.now c w.now out.old }
    ensures { Written text.now c w.now out.old result out.new }
{
    let from = c.from;
    let to = c.to;
    let cut = c.cut;
    writing::narrow(&text[from..to], out, 0);
    writing::put_bytes(&w[cut..w.len()], out, to - from);
    to - from + (w.len() - cut)
}

// The three changes of a round are written, each into its buffer.
fn write_changes(
    text: &[u16],
    changes: Changes,
    u: &[u8],
    v: &[u8],
    p: &[u8],
    nu: &mut [u8],
    nv: &mut [u8],
    np: &mut [u8],
) -> Round<Lengths>
    requires { AllWritable text.now changes u.now v.now p.now nu.old nv.old np.old }
    ensures { after result nu.new nv.new np.new ≡ written_by (planned text.now u.now v.now p.now (Next changes)) nu.old nv.old np.old }
{
    Round::Next(Lengths {
        u: write_change(text, changes.u, u, nu),
        v: write_change(text, changes.v, v, nv),
        p: write_change(text, changes.mark, p, np),
    })
}

// An end writes nothing.
fn write_plan(
    text: &[u16],
    plan: Round<Changes>,
    u: &[u8],
    v: &[u8],
    p: &[u8],
    nu: &mut [u8],
    nv: &mut [u8],
    np: &mut [u8],
) -> Round<Lengths>
    requires { Planned text.now plan u.now v.now p.now nu.old nv.old np.old }
    ensures { after result nu.new nv.new np.new ≡ written_by (planned text.now u.now v.now p.now plan) nu.old nv.old np.old }
{
    match plan {
        Round::End(same) => Round::End(same),
        Round::Next(changes) => write_changes(text, changes, u, v, p, nu, nv, np),
    }
}

// The plan of a round whose words are given in bytes. u and v are widened into lent arrays.
fn decide_bytes(
    words: &RelationWords,
    u: &[u8],
    v: &[u8],
    p: &[u8],
    wide_u: &mut [u16],
    wide_v: &mut [u16],
) -> Round<Changes>
    requires { on words.now GivenRoom u.now v.now p.now wide_u.old wide_v.old }
    ensures { on words.now PlansRound u.now v.now p.now result }
{
    let mut wide_p = [0u16; Word::MARK];
    widen_word(u, wide_u);
    widen_word(v, wide_v);
    widen_word(p, &mut wide_p);
    let first = Joined {
        front: &words.text[..0],
        rest: &wide_u[..u.len()],
    };
    let second = Joined {
        front: &words.text[..0],
        rest: &wide_v[..v.len()],
    };
    decide(words, &first, &second, &wide_p[..p.len()])
}

// The plan of a round whose words may be as long as their limit, widened into arrays for the longest.
#[inline(never)]
fn decide_long(words: &RelationWords, u: &[u8], v: &[u8], p: &[u8]) -> Round<Changes>
    requires { on words.now GivenShort u.now v.now p.now }
    ensures { on words.now PlansRound u.now v.now p.now result }
{
    let mut first = [0u16; Word::ROUND];
    let mut second = [0u16; Word::ROUND];
    decide_bytes(words, u, v, p, &mut first, &mut second)
}

// The plan of a round whose words are given in bytes, widened into short arrays where these suffice.
fn decide_given(words: &RelationWords, u: &[u8], v: &[u8], p: &[u8]) -> Round<Changes>
    requires { on words.now GivenShort u.now v.now p.now }
    ensures { on words.now PlansRound u.now v.now p.now result }
{
    if given::SHORT < u.len() {
        return decide_long(words, u, v, p);
    }
    if given::SHORT < v.len() {
        return decide_long(words, u, v, p);
    }
    let mut first = [0u16; given::SHORT];
    let mut second = [0u16; given::SHORT];
    decide_bytes(words, u, v, p, &mut first, &mut second)
}

// The single round over a text that ends with its last fence: it is decided over u, v and p, and then the next words are written at the start of the three
// buffers. What the text holds fits in bytes.
fn write_next(
    words: &RelationWords,
    u: &[u8],
    v: &[u8],
    p: &[u8],
    nu: &mut [u8],
    nv: &mut [u8],
    np: &mut [u8],
) -> Round<Lengths>
    requires { on words.now LentInBytes u.now v.now p.now nu.old nv.old np.old }
    ensures { after result nu.new nv.new np.new ≡ written_by (round (words_of words.now) (family_of words.now) u.now v.now p.now) nu.old nv.old np.old }
{
    let plan = decide_given(words, u, v, p);
    write_plan(words.text, plan, u, v, p, nu, nv, np)
}

// The single round.
pub fn write_round(
    words: &RelationWords,
    u: &[u8],
    v: &[u8],
    p: &[u8],
    nu: &mut [u8],
    nv: &mut [u8],
    np: &mut [u8],
) -> Round<Lengths>
    requires { on words.now Lent u.now v.now p.now nu.old nv.old np.old }
    ensures { after result nu.new nv.new np.new ≡ written_by (round (words_of words.now) (family_of words.now) u.now v.now p.now) nu.old nv.old np.old }
{
    let RelationWords { text, table, n } = *words;
    let total = layout::start_of(table, n);
    let whole = RelationWords {
        text: &text[..total],
        table,
        n,
    };
    write_next(&whole, u, v, p, nu, nv, np)
}
