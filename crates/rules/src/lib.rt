// The constant tables of a listing: names of rules, judgments and nodes, what each rule concludes and what each takes.
// A number past a table's end has an empty name and takes nothing.
#![tactic(auto)]

mod tables;

ghost use Rattle.std.specs.Prelude.{◌≡◌, get_or};
ghost use Rattle.rules.specs.Names.{name_of};
ghost use Rattle.walk.specs.Rule.{kind_of};
ghost use Rattle.rules.specs.Kinds.{sorts_of, sort_of, parts_of, part_of};

use crate::tables::{JUDGMENTS, NO_JUDGMENT, NO_NODE, NO_RULE, NODES, RULES};

// What has a name: a rule, a judgment by its kind, a node of a term, an interval or a context by its kind.
#[derive(Clone, Copy)]
pub enum Name {
    Rule(u32),
    Judgment(u32),
    Node(u32),
}

// What an argument of a judgment or a part of a node is: a number stands as itself, the others as a cell.
#[derive(Clone, Copy, PartialEq, Eq)]
pub enum Sort {
    Number,
    Term,
    Interval,
    Context,
}

// A part of a node that a quote shows: its sort, and the word of the cell where it stands.
#[derive(Clone, Copy)]
pub struct Part {
    pub sort: Sort,
    pub word: u32,
}

// The entry of a table at a number, and `none` past its end.
fn entry<T: Copy>(table: &[T], n: u32, none: T) -> T
    ensures { result ≡ get_or table.now n none }
{
    let at = n as usize;
    if at < table.len() { table[at] } else { none }
}

// The kind of judgment that a rule concludes, and 255 where there is no such rule.
pub fn rule_kind(rule: u32) -> u32
    ensures { result ≡ kind_of rule }
{
    entry(&RULES, rule, NO_RULE).kind
}

// The sorts of a judgment's arguments; none where there is no such kind.
pub fn sorts(kind: u32) -> &'static [Sort]
    ensures { result.now ≡ sorts_of kind }
{
    entry(&JUDGMENTS, kind, NO_JUDGMENT).sorts
}

// The sort of a judgment's argument, counted from 0; none past the last.
#[tactic(auto, unfolding(crate::specs::Kinds::sort_of))]
pub fn argument_sort(kind: u32, n: u32) -> Option<Sort>
    ensures { result ≡ sort_of kind n }
{
    sorts(kind).get(n as usize).copied()
}

// The parts that a node's quote shows; none where there is no such kind.
pub fn parts(kind: u32) -> &'static [Part]
    ensures { result.now ≡ parts_of kind }
{
    entry(&NODES, kind, NO_NODE).parts
}

// The part that a node's quote shows at a place, counted from 0; none past the last.
#[tactic(auto, unfolding(crate::specs::Kinds::part_of))]
pub fn node_part(kind: u32, n: u32) -> Option<Part>
    ensures { result ≡ part_of kind n }
{
    parts(kind).get(n as usize).copied()
}

impl Name {
    // The name's bytes.
    pub fn bytes(self) -> &'static [u8]
        ensures { result.now ≡ name_of self }
    {
        match self {
            Name::Rule(n) => entry(&RULES, n, NO_RULE).name,
            Name::Judgment(kind) => entry(&JUDGMENTS, kind, NO_JUDGMENT).name,
            Name::Node(kind) => entry(&NODES, kind, NO_NODE).name,
        }
    }
}
