// What is asked of a loaded book, and what is answered: given words and their refusals, rounds, comparisons, least words. Definitions that the public contracts name, and
// the types that they speak of, with no code under them.
#![tactic(auto)]

// One round: its end, with 'same' for true, or what it goes on with. Of `Lengths` this is the answer of the single round, of `changes::Changes` the plan of a round.
#[derive(Clone, Copy)]
pub enum Round<T> {
    End(bool),
    Next(T),
}

// The lengths of the next u, v and p.
#[derive(Clone, Copy)]
pub struct Lengths {
    pub u: usize,
    pub v: usize,
    pub p: usize,
}

// A comparison's answer, where it is not refused: the words are congruent ('same') or not ('different'), with the count of rounds.
#[derive(Clone, Copy)]
pub enum Comparison {
    Same(u32),
    Different(u32),
}
