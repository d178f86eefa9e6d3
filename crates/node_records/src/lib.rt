// The records of work tables by value, the edges of a stored node, and the limits of the code.
#![tactic(auto)]

ghost use Rattle.std.specs.Prelude.{◌≡◌, ◌||◌, eqb, ltb};
ghost use Rattle.node_records.specs.Edges.{first_edge, second_edge};
ghost use Rattle.node_records.specs.Records.{no_record, no_writer_record};
ghost use Rattle.node_records.specs.Words.{first_child, second_child, some_yes, some_below, with_words};

// ---- Limits, by the names of the definitions

pub const OPTION_LIMIT: u32 = 32;

pub const TABLE_LIMIT: usize = 768;

pub const TRUTH_TABLE_LEAST: u32 = 3;

pub const TRUTH_TABLE_MOST: u32 = 16;

pub const WORD_LIMIT: u64 = 1 << OPTION_LIMIT;

// ---- Records

// A record of a work table for reading: the level (0: none), the children, whether the edge to the second is complemented (0: it is not), how often the
// number was given out, how many records have it as a child, and whether some word below the node is yes and whether some is no (0: none is).
// Numbers say so, and not `bool`: it is the record of include/rule.h, and a caller may lend any bytes.
#[repr(C)]
#[derive(Clone, Copy, Default)]
pub struct NodeRecord {
    pub level: u32,
    pub first: u32,
    pub second: u32,
    pub complement: u32,
    pub stamp: u32,
    pub parents: u32,
    pub admits: u32,
    pub refuses: u32,
}

// A record of a work table for writing: a number's node as above; the numbers after and before it in the recycling queue, and in its bucket of the unique
// table; and the first and the last number of the bucket that has this place.
#[repr(C)]
#[derive(Clone, Copy, Default)]
pub struct WriterRecord {
    pub level: u32,
    pub first: u32,
    pub second: u32,
    pub complement: u32,
    pub stamp: u32,
    pub parents: u32,
    pub after: u32,
    pub before: u32,
    pub next: u32,
    pub previous: u32,
    pub head: u32,
    pub tail: u32,
}

// What a number of a table stands for: a node's level, its children, and whether the edge to the second is complemented (0: it is not).
// A number says so, as in a lent record, which may hold any: `bucket_at` of Recycling goes by what stands there.
#[derive(Clone, Copy, PartialEq, Eq)]
pub struct Node {
    pub level: u32,
    pub first: u32,
    pub second: u32,
    pub complement: u32,
}

// A record of a work table; the empty one is of zeros.
pub trait Record: Copy {
    ghost empty: { Self };

    fn empty() -> Self
        ensures { result ≡ empty };

    // A clone is the record again.
    ghost is_copied: { (x : Self) → Self.is_infallible x };

    ghost is_same: { (x y : Self) → Self.is_clone x y → y ≡ x };
}

impl Record for NodeRecord {
    ghost empty = { no_record };

    fn empty() -> NodeRecord {
        NodeRecord::default()
    }

    ghost is_copied = { λ _. tt };

    ghost is_same = { λ _ _ e. e };
}

impl Record for WriterRecord {
    ghost empty = { no_writer_record };

    fn empty() -> WriterRecord {
        WriterRecord::default()
    }

    ghost is_copied = { λ _. tt };

    ghost is_same = { λ _ _ e. e };
}

// ---- Edges

// What a node stands for: a number (0: the terminal), turned about or not.
#[derive(Clone, Copy)]
pub struct Edge {
    pub number: u32,
    pub complement: bool,
}

// The number k, of level l, stands for a node of level i inside brackets, or is the terminal.
pub fn skips(k: u32, i: u32, l: u32) -> bool
    ensures { result ≡ (eqb k 0 || ltb i l) }
{
    k == 0 || i < l
}

// The first child of the node of x, turned about if c
fn first_child(x: NodeRecord, c: bool) -> Edge
    ensures { result ≡ first_child x c }
{
    Edge {
        number: x.first,
        complement: c,
    }
}

// Its second child.
fn second_child(x: NodeRecord, c: bool) -> Edge
    ensures { result ≡ second_child x c }
{
    Edge {
        number: x.second,
        complement: (x.complement != 0) != c,
    }
}

// The first child of the node of level i that e stands for; x: its record. It and the second child's are two functions, as Edges has two definitions.
pub fn first_edge(x: NodeRecord, i: u32, e: Edge) -> Edge
    ensures { result ≡ first_edge x i e }
{
    if skips(e.number, i, x.level) {
        e
    } else {
        first_child(x, e.complement)
    }
}

// Its second child.
pub fn second_edge(x: NodeRecord, i: u32, e: Edge) -> Edge
    ensures { result ≡ second_edge x i e }
{
    if skips(e.number, i, x.level) {
        e
    } else {
        second_child(x, e.complement)
    }
}

// ---- What a record says of the words below its node

// Some word below what e stands for is yes; x: the record of its number
pub fn some_yes(x: NodeRecord, e: Edge) -> bool
    ensures { result ≡ some_yes x e }
{
    if e.number == 0 {
        e.complement
    } else if e.complement {
        x.refuses != 0
    } else {
        x.admits != 0
    }
}

// Some word below the node of x is yes, turned about if c; a, b: the records of its children
fn some_below(x: NodeRecord, a: NodeRecord, b: NodeRecord, c: bool) -> bool
    ensures { result ≡ some_below x a b c }
{
    some_yes(a, first_child(x, c)) || some_yes(b, second_child(x, c))
}

// The record x with what the records a and b of its children say
pub fn with_words(x: NodeRecord, a: NodeRecord, b: NodeRecord) -> NodeRecord
    ensures { result ≡ with_words x a b }
{
    NodeRecord {
        admits: u32::from(some_below(x, a, b, false)),
        refuses: u32::from(some_below(x, a, b, true)),
        ..x
    }
}
