// Records of the unique table by value: what is read of a record, and what it becomes.
#![tactic(auto)]

ghost use Rattle.std.specs.Prelude.{◌≡◌, get_or, ◌+◌, ◌-◌};
ghost use Rattle.writer_numbers.specs.Numbers.{one_more};
ghost use Rattle.writer_records.specs.Fields.{fields_of, with_field, parents_field, head_field, tail_field};
ghost use Rattle.writer_records.specs.Records.{lane_field, with_node, node_of, is_node};

use node_records::{Node, WriterRecord};

// ---- Numbers linked both ways: in the recycling queue, or in a bucket

// The number after this one
pub fn after_of<const QUEUE: bool>(x: WriterRecord) -> u32
    ensures { result ≡ get_or (fields_of x) (lane_field QUEUE) 0 }
{
    if QUEUE { x.after } else { x.next }
}

// The number before it
pub fn before_of<const QUEUE: bool>(x: WriterRecord) -> u32
    ensures { result ≡ get_or (fields_of x) (lane_field QUEUE + 1) 0 }
{
    if QUEUE { x.before } else { x.previous }
}

// v comes after this number.
pub fn with_after<const QUEUE: bool>(x: WriterRecord, v: u32) -> WriterRecord
    ensures { result ≡ with_field x (lane_field QUEUE) v }
{
    if QUEUE {
        WriterRecord { after: v, ..x }
    } else {
        WriterRecord { next: v, ..x }
    }
}

// v comes before it.
pub fn with_before<const QUEUE: bool>(x: WriterRecord, v: u32) -> WriterRecord
    ensures { result ≡ with_field x (lane_field QUEUE + 1) v }
{
    if QUEUE {
        WriterRecord { before: v, ..x }
    } else {
        WriterRecord { previous: v, ..x }
    }
}

// The bucket that has this place gets its first and its last number.
pub fn with_ends(x: WriterRecord, h: u32, l: u32) -> WriterRecord
    ensures { result ≡ with_field (with_field x head_field h) tail_field l }
{
    WriterRecord {
        head: h,
        tail: l,
        ..x
    }
}

// ---- Nodes

// One node more has it as a child.
pub fn with_parent(x: WriterRecord) -> WriterRecord
    ensures { result ≡ with_field x parents_field (one_more x.parents) }
{
    WriterRecord {
        parents: x.parents.saturating_add(1),
        ..x
    }
}

// One less.
pub fn without_parent(x: WriterRecord) -> WriterRecord
    ensures { result ≡ with_field x parents_field (x.parents - 1) }
{
    WriterRecord {
        parents: x.parents.saturating_sub(1),
        ..x
    }
}

// It gets a node, and its stamp is one more.
pub fn with_node(x: WriterRecord, n: Node) -> WriterRecord
    ensures { result ≡ with_node x n.level n.first n.second n.complement }
{
    WriterRecord {
        level: n.level,
        first: n.first,
        second: n.second,
        complement: n.complement,
        stamp: x.stamp.saturating_add(1),
        ..x
    }
}

// Its node.
pub fn node_of(x: WriterRecord) -> Node
    ensures { result ≡ node_of x }
{
    Node {
        level: x.level,
        first: x.first,
        second: x.second,
        complement: x.complement,
    }
}

// It has that node.
pub fn is_node(x: WriterRecord, n: Node) -> bool
    ensures { result ≡ is_node x n.level n.first n.second n.complement }
{
    node_of(x) == n
}
