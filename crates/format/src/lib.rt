// What reading a book gives (document 01, "Book bytes"): what the reader's parts answer where they refuse nothing, over the definitions of specs/Book.antt and
// specs/Bytes.antt. Crate `theorems` tells what is shown of these.
#![tactic(auto)]

// What a head record says: the number of letters, and the position behind the record.
#[derive(Clone, Copy)]
pub struct HeadFields {
    pub letters: u8,
    pub end: usize,
}

// What a relation record says: where its left word begins, where its right word begins, and where that ends.
#[derive(Clone, Copy)]
pub struct RelationFields {
    pub left: usize,
    pub right: usize,
    pub end: usize,
}

// What a whole book holds: the number of letters, and the number of relations.
#[derive(Clone, Copy)]
pub struct BookSize {
    pub letters: u8,
    pub relations: usize,
}
