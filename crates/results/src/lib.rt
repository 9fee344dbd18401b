// What the C functions return: the specification's numbers in plain structs, for each answer of the entries as specs/Numbers.antt gives them; and, in specs/Calls.antt, what
// each of the functions promises.
// The fields have the words of the C header, which are the specification's: a rule is a relation, a run a word.
#![tactic(auto)]

// Of the check and of the cut sheet. In every struct: the number of a refusal and its place, or 0 and 0; what an answer does not give is 0.
#[repr(C)]
#[derive(Clone, Copy)]
pub struct CheckResult {
    pub refusal: u32,
    pub place: u64,
    pub rules: u64,
}

// Of a single round: its outcome, and the lengths of the next u, v and p where that is NEXT.
#[repr(C)]
#[derive(Clone, Copy)]
pub struct RoundResult {
    pub refusal: u32,
    pub place: u64,
    pub outcome: u32,
    pub u_length: u64,
    pub v_length: u64,
    pub p_length: u64,
}

// Of a comparison: its outcome, and the rounds that it took.
#[repr(C)]
#[derive(Clone, Copy)]
pub struct CompareResult {
    pub refusal: u32,
    pub place: u64,
    pub outcome: u32,
    pub rounds: u64,
}

// Of the program: the length of what it wrote.
#[repr(C)]
#[derive(Clone, Copy)]
pub struct ProgramResult {
    pub refusal: u32,
    pub place: u64,
    pub length: u64,
}

// Of the least word, and of the one behind a prefix: its length.
#[repr(C)]
#[derive(Clone, Copy)]
pub struct LeastResult {
    pub refusal: u32,
    pub place: u64,
    pub length: u64,
}

// Of a held book: where in its buffer the book's bytes begin, how many they are, and the count of changes.
#[repr(C)]
#[derive(Clone, Copy)]
pub struct HeldResult {
    pub start: u64,
    pub length: u64,
    pub changes: u64,
}
