// Families (document 01, "Distinct words and families"): which relation words the relations join, and links from each member to the next.
#![tactic(auto)]

ghost use Rattle.std.specs.Prelude.{◌≡◌};
ghost use Rattle.layout.specs.Families.{side_word_of, family_at};
ghost use Rattle.families.specs.Joining.{renamed_at, Alone, Countable, Nameable, Renamable, Renamed, SideKnown, Joinable, Joined, Groupable, Separate, AllJoined};
ghost use Rattle.families.specs.Grouping.{linked_at, Linkable, MembersUnlinked, MembersLinked, GroupsMade};

use layout::{Table, family_of, next_of, side_word};

// Each of n relation words is a family of its own, and has no next member.
#[tactic(auto, using(crate::proofs::Naming::starts))]
fn start_families(table: &mut [u16], n: usize)
    requires { Countable table.old n }
    ensures { Alone table.old n table.new }
{
    for i in 0..n {
        table[Table::FAMILY + i] = i as u16;
        table[Table::NEXT + i] = n as u16;
    }
}

// Relation word i goes over to family `low` if it is of family `high`.
#[tactic(auto, using(crate::proofs::Naming::names))]
fn rename_word(table: &mut [u16], i: usize, low: usize, high: usize)
    requires { Nameable table.old i low }
    ensures { table.new ≡ renamed_at table.old i low high }
{
    if family_of(table, i) == high {
        table[Table::FAMILY + i] = low as u16;
    }
}

// Families `low` and `high` become one. No member of a family is below its number.
#[tactic(auto, using(crate::proofs::Naming::renames))]
fn rename_family(table: &mut [u16], n: usize, low: usize, high: usize)
    requires { Renamable table.old n low high }
    ensures { Renamed table.old n low high table.new }
{
    for i in high..n {
        rename_word(table, i, low, high);
    }
}

// The family of the word of side s.
#[tactic(auto, using(crate::proofs::Joining::side_families))]
fn family_of_side(table: &[u16], s: usize) -> usize
    requires { SideKnown table.now s }
    ensures { result ≡ family_at table.now (side_word_of table.now s) }
{
    family_of(table, side_word(table, s))
}

// The families of the two words of relation r become one; where they are one, nothing is done.
#[tactic(auto, using(crate::proofs::Joining::joins))]
fn join_relation(table: &mut [u16], n: usize, r: usize)
    requires { Joinable table.old n r }
    ensures { Joined table.old n r table.new }
{
    let a = family_of_side(table, 2 * r);
    let b = family_of_side(table, 2 * r + 1);
    if a < b {
        rename_family(table, n, a, b);
        return;
    }
    if b < a {
        rename_family(table, n, b, a);
    }
}

// Makes one of the families of the two words of each relation.
#[tactic(auto, using(crate::proofs::Joining::gathers))]
fn join_relations(table: &mut [u16], n: usize, relations: usize)
    requires { Separate table.old n relations }
    ensures { AllJoined table.old n relations table.new }
{
    for r in 0..relations {
        join_relation(table, n, r);
    }
}

// Links relation word i, below which no word is linked. Until a family's lowest member is reached, its link leads to the lowest that was.
#[tactic(auto, using(crate::proofs::Linking::stores))]
fn link_word(table: &mut [u16], i: usize)
    requires { Linkable table.old i }
    ensures { table.new ≡ linked_at table.old i }
{
    let family = family_of(table, i);
    let next = next_of(table, family);
    table[Table::NEXT + family] = i as u16;
    table[Table::NEXT + i] = next as u16;
}

// Links each member of a family to the next.
#[tactic(auto, using(crate::proofs::Linking::linkings))]
fn link_members(table: &mut [u16], n: usize)
    requires { MembersUnlinked table.old n }
    ensures { MembersLinked table.old n table.new }
{
    for i in (0..n).rev() {
        link_word(table, i);
    }
}

// Writes the families of n relation words and the links of their members; positions, cuts, numbers of pieces, sides and index are kept.
#[tactic(auto, using(crate::proofs::Linking::groups))]
pub fn group(table: &mut [u16], n: usize, relations: usize)
    requires { Groupable table.old n relations }
    ensures { GroupsMade table.old n relations table.new }
{
    start_families(table, n);
    join_relations(table, n, relations);
    link_members(table, n);
}
