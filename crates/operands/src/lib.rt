// The inputs of a run: each is inside its text, at the block that was read last, or at an edge of its own table.
#![tactic(auto)]

ghost use Rattle.std.specs.Prelude.{◌≡◌, List, ℕ, ◌+◌};
ghost use Rattle.theory_applying.specs.Operands.{edge_of, settle, first_operand, second_operand};
ghost use Rattle.theory_combining.specs.BlockReaders.{deep_of, source_of, ended_of, next_reader};
ghost use Rattle.blocks.specs.Blocks.{block_in};
ghost use Rattle.elements.specs.declared.Opens.{Opens};
ghost use Rattle.edges.specs.Abstraction.{edge_in};
ghost use Rattle.operands.specs.Abstraction.{same_stream, standing, reader_of, input_on, input_of, first_value_of, begun_from};

use blocks::{Block, next_block};
use cursors::first_cursor;
use edges::{TableEdge, first_edge, second_edge};
use elements::{OPEN_LIMIT, Open};
use node_records::{Edge, NodeRecord};
use work_table::get as record_at;

pub const TERMINAL: Edge = Edge {
    number: 0,
    complement: false,
};

// A stream that is read block by block: its bytes, its table, the open nodes where it is read
#[derive(Drop)]
pub struct Stream<'a> {
    pub bytes: &'a [u8],
    pub table: &'a mut [NodeRecord],
    pub opens: &'a mut [Open; OPEN_LIMIT],
}

// An input at a part: at an edge of its table; or, with none, inside its text, where the block that was read last begins with the part and is smaller
#[derive(Clone, Copy)]
pub struct Input {
    pub edge: Option<Edge>,
    pub block: Block,
}

// The edge that an input is at, in its table
pub fn edge_of(f: Input) -> TableEdge
    ensures given { result ≡ record { edge = standing f.edge; size = f.block.cursor.run.size } }
    ensures read { (n : ℕ) (o : Opens) (s : List ℕ) (t : List NodeRecord) → edge_in result t
        ≡ edge_of deep_of source_of ended_of (next_reader n) (input_on f o s t) }
{
    TableEdge {
        edge: f.edge.unwrap_or(TERMINAL),
        size: f.block.cursor.run.size,
    }
}

// A block as great as a part that i open nodes are around is an edge. Past the end of its text an input is at the terminal.
fn settle(i: u32, f: Input) -> Option<Edge>
    ensures { (n : ℕ) (o : Opens) (s : List ℕ) (t : List NodeRecord) → input_on (record { edge = result; block = f.block }) o s t
        ≡ settle deep_of source_of ended_of (next_reader n) (i + 1) (input_on f o s t) }
{
    let b = f.block;
    match f.edge {
        None if b.halted => Some(TERMINAL),
        None if b.deep == i as usize => Some(Edge {
            number: b.number,
            complement: b.complement,
        }),
        edge => edge,
    }
}

// THE FIRST HALF of a part of level i: the edge of an input there, at the same block
pub fn first_half(t: &[NodeRecord], i: u32, f: Input) -> Option<Edge>
    ensures { (n : ℕ) (o : Opens) (s : List ℕ) → input_on (record { edge = result; block = f.block }) o s t.now
        ≡ first_operand deep_of source_of ended_of (next_reader n) i (input_on f o s t.now) }
{
    if f.edge.is_none() {
        return settle(i, f);
    }
    let x = edge_of(f);
    Some(first_edge(i, x, record_at(t, x.size, x.edge.number)).edge)
}

// The next block, unless the text has ended
fn read_on(n: u32, s: &mut Stream<'_>, b: Block) -> Block
    ensures same { same_stream s.new s.old }
    ensures read { reader_of result s.new ≡ next_reader n (reader_of b s.old) }
{
    if b.halted {
        return b;
    }
    next_block(n, s.bytes, s.table, s.opens, b.cursor)
}

// THE FIRST BLOCK of a stream: the input at the outermost node
pub fn begin(n: u32, s: &mut Stream<'_>) -> Input
    ensures same { same_stream s.new s.old }
    ensures begun { input_of result s.new ≡ begun_from n s.old.bytes.now s.old.opens.now s.old.table.now }
{
    let block = next_block(n, s.bytes, s.table, s.opens, first_cursor());
    let edge = settle(0, Input { edge: None, block });
    Input { edge, block }
}

// THE SECOND HALF of a part of level i; f: the input there, with the block that was read last. For it the next block is read, if it is inside its text.
pub fn second_half(n: u32, i: u32, s: &mut Stream<'_>, f: Input) -> Input
    ensures same { same_stream s.new s.old }
    ensures gone { input_of result s.new ≡ second_operand deep_of source_of ended_of (next_reader n) i (input_of f s.old) }
{
    if f.edge.is_none() {
        let block = read_on(n, s, f.block);
        let edge = settle(i, Input { block, ..f });
        return Input { edge, block };
    }
    let x = edge_of(f);
    let t = &mut *s.table;
    let y = second_edge(i, x, record_at(t, x.size, x.edge.number));
    Input {
        edge: Some(y.edge),
        ..f
    }
}

// What it decides at the first word of the part
pub fn first_value(f: Input) -> bool
    ensures { result ≡ first_value_of f }
{
    match f.edge {
        Some(edge) => edge.complement,
        None => f.block.complement,
    }
}
