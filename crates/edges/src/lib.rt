// Inputs at edges of their own tables: at the two halves of a part, and where terminals fix what the operator gives.
#![tactic(auto)]

ghost use Rattle.std.specs.Prelude.{◌≡◌, true, ◌&&◌, ◌||◌, List, [], ◌∷◌, eqb, ltb};
ghost use Rattle.theory_writing.specs.Run.{operate};
ghost use Rattle.work_table.specs.Table.{get_in};
ghost use Rattle.theory_applying.specs.Applying.{first_source, second_source, fixed};
ghost use Rattle.edges.specs.Abstraction.{edge_in};

use node_records::{
    Edge, NodeRecord, first_edge as first_child, second_edge as second_child, skips,
};
use operators::{opens_first, opens_second};

// ---- Edges

// An input at an edge of its own table, which has so many numbers
#[derive(Clone, Copy)]
pub struct TableEdge {
    pub edge: Edge,
    pub size: u32,
}

// The edge at the two halves of a part of level i; r: the record of its number. Two functions: each goes by the law of its own child.
pub fn first_edge(i: u32, x: TableEdge, r: NodeRecord) -> TableEdge
    ensures { (t : List NodeRecord) → r ≡ get_in t x.size x.edge.number → edge_in result t ≡ first_source i (edge_in x t) }
{
    TableEdge {
        edge: first_child(r, i, x.edge),
        ..x
    }
}

pub fn second_edge(i: u32, x: TableEdge, r: NodeRecord) -> TableEdge
    ensures { (t : List NodeRecord) → r ≡ get_in t x.size x.edge.number → edge_in result t ≡ second_source i (edge_in x t) }
{
    TableEdge {
        edge: second_child(r, i, x.edge),
        ..x
    }
}

// Both are the same at the two halves of a part of level i; r and s: the records of their numbers
pub fn both_pass(i: u32, x: TableEdge, r: NodeRecord, y: TableEdge, s: NodeRecord) -> bool
    ensures { result ≡ ((eqb x.edge.number 0 || ltb i r.level) && ((eqb y.edge.number 0 || ltb i s.level) && true)) }
{
    skips(x.edge.number, i, r.level) && skips(y.edge.number, i, s.level)
}

// ---- What terminals fix

// With the first decision a, the operator gives the same for both decisions of y, or y is the terminal
fn is_settled(op: u32, a: bool, y: TableEdge) -> bool
    ensures { (t : List NodeRecord) → result ≡ fixed (λ ds. operate op (a ∷ ds)) (edge_in y t ∷ []) }
{
    y.edge.number == 0 || !opens_second(op, a)
}

// The terminals among x and y fix what the operator gives.
pub fn is_fixed(op: u32, x: TableEdge, y: TableEdge) -> bool
    ensures { (t u : List NodeRecord) → result ≡ fixed (operate op) (edge_in x t ∷ edge_in y u ∷ []) }
{
    let a = x.edge.complement;
    let b = y.edge.complement;
    is_settled(op, a, y) && (x.edge.number == 0 || (is_settled(op, !a, y) && !opens_first(op, b)))
}
