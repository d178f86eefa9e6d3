// Reading a stream block by block, or whole into its table.
#![tactic(auto)]

ghost use Rattle.std.specs.Prelude.{◌≡◌, List, cond, not, ◌+◌, ◌-◌, ◌≤◌};
ghost use Rattle.theory_reading.specs.Covered.{parity};
ghost use Rattle.theory_reading.specs.Deciding.{ended};
ghost use Rattle.theory_reading.specs.Limits.{open_limit, table_limit};
ghost use Rattle.theory_reading.specs.Spine.{first_stays, firsts_stay, spine_number};
ghost use Rattle.elements.specs.Abstraction.{open_of, opens_of, deep_of, open_list, context_of, cause_of};
ghost use Rattle.node_records.specs.declared.NodeRecord.{NodeRecord};
ghost use Rattle.work_table.specs.TableLaws.{table_of};
ghost use Rattle.reader.specs.OpenNodes.{opens_in, reached_in, cursor_in};
ghost use Rattle.blocks.specs.Blocks.{edge_at, block_in, block_of, next_block};
ghost use Rattle.blocks.specs.Spine.{stays_in, highest_in, record_as, spine_record, worded_at, spine_at};
ghost use Rattle.blocks.specs.Load.{rooting_in, last_stays, can_root, last_in, pair_open, rows_in, row_count, root_in};
ghost use Rattle.blocks.specs.Load.{load_in, refused_load, load_of, load};

use answers::{Checked, Refusal, early};
use checker::checked_at;
use cursors::{Cursor, Pair, Run, first_cursor};
use elements::{Cause, Context, OPEN_LIMIT, Open, Ref};
use node_records::{Edge, NodeRecord, OPTION_LIMIT, Record, TABLE_LIMIT, WORD_LIMIT, with_words};
use reader::{Reached, complements, read_on};
use record_tables::{get_record, put_record};
use work_table::get;

// ---- What was passed last

// How many open nodes count.
fn deep_of(d: usize) -> usize
    ensures { result ≡ deep_of d }
{
    d.min(OPEN_LIMIT)
}

// The edges to second children that are complemented, of d open nodes: an odd number? Past the limit none is looked at.
fn parity_of(o: &[Open; OPEN_LIMIT], d: usize) -> bool
    ensures { result ≡ parity (open_list (opens_in o.now d)) }
{
    let mut p = false;
    for e in &o[..deep_of(d)] {
        p = p != complements(*e);
    }
    p
}

// What the words passed last stand for.
pub fn edge_of(r: Reached, o: &[Open; OPEN_LIMIT]) -> Edge
    ensures { result ≡ edge_at (reached_in r o.now) }
{
    Edge {
        number: r.run.last.number,
        complement: parity_of(o, r.depth) != r.run.complement,
    }
}

// The options below d open nodes.
pub fn below(n: u32, d: usize) -> u32
    ensures { result ≡ n - d }
{
    (n as usize).saturating_sub(d) as u32
}

// ---- Block by block

// The words that one element passes: the first of them, how many nodes are open around them, and what they stand for: a number (0: the terminal),
// turned about or not. The cursor stands behind them. Halted: reading has come to its end, and no words were passed.
// (No Option of a block: the clause of `next_block` says where the cursor stands also where reading has halted. Number and complement stand apart as in `block_in`.)
#[derive(Clone, Copy)]
pub struct Block {
    pub cursor: Cursor,
    pub from: u64,
    pub deep: usize,
    pub number: u32,
    pub complement: bool,
    pub halted: bool,
}

// The block that the loop's last element passed.
fn block_of(r: Reached, o: &[Open; OPEN_LIMIT]) -> Block
    ensures { block_in result o.now ≡ block_of (reached_in r o.now) }
{
    let e = edge_of(r, o);
    Block {
        cursor: Cursor {
            run: r.run,
            depth: r.depth,
        },
        from: r.from,
        deep: r.deep,
        number: e.number,
        complement: e.complement,
        halted: r.halted,
    }
}

// THE NEXT BLOCK: reads on until more words are covered. o: the open nodes, as reading left them
pub fn next_block(
    n: u32,
    s: &[u8],
    t: &mut [NodeRecord],
    o: &mut [Open; OPEN_LIMIT],
    c: Cursor,
) -> Block
    ensures { record { block = block_in result o.new; table = t.new }
        ≡ next_block n s.now (cursor_in c o.old) t.old }
{
    let r = read_on(n, s, t, o, c, c.run.covered);
    block_of(r, o)
}

// ---- The nodes that are open at the end

// What is open at the end of a stream that was cut: the open nodes, each with its first child if its second has begun, and what ended last. If the table has
// these, a record for each open node makes it complete: what was not read counts as the terminal. A two-child node that ended last has no number yet, and
// counts as open, with its second child read.

// The number of a is the terminal or was not given out again. z: how many numbers there are. (The reader's `is_stale` says the opposite, for the rule on storing.)
fn stays(t: &[NodeRecord], z: u32, a: Ref) -> bool
    ensures { result ≡ stays_in t.now z a }
{
    get(t, z, a.number).stamp == a.stamp
}

// The same of the first child of the open node x, if its second child has begun.
fn first_stays(t: &[NodeRecord], z: u32, x: Open) -> bool
    ensures { result ≡ first_stays (table_of t.now z) (open_of x) }
{
    !x.second || stays(t, z, x.first)
}

// The same of all of d open nodes.
fn firsts_stay(t: &[NodeRecord], z: u32, o: &[Open; OPEN_LIMIT], d: usize) -> bool
    requires { d ≤ open_limit }
    ensures { result ≡ firsts_stay (table_of t.now z) (opens_of o.now d) }
{
    o[..d].iter().all(|x| first_stays(t, z, *x))
}

// The highest number up to z that has a node, or is not above f.
fn highest(t: &[NodeRecord], f: u32, z: u32) -> u32
    ensures { result ≡ highest_in t.now f z }
{
    for k in (f..z).rev() {
        if get_record(t, k + 1).level != 0 {
            return k + 1;
        }
    }
    z.min(f)
}

// A record of level i with the children f and e; c: 1 if the edge to the second is complemented, 0 if not
fn record_as(i: u32, f: u32, e: u32, c: u32) -> NodeRecord
    ensures { result ≡ record_as i f e c }
{
    NodeRecord {
        level: i,
        first: f,
        second: e,
        complement: c,
        stamp: 1,
        ..NodeRecord::empty()
    }
}

// The record of the open node x of level i. e: the number of its child that is being read, or is to be read
fn spine_record(x: Open, i: u32, e: u32) -> NodeRecord
    ensures { result ≡ spine_record (open_of x) i e }
{
    if x.second {
        record_as(i, x.first.number, e, u32::from(x.complement))
    } else {
        record_as(i, e, 0, 0)
    }
}

// The same of a two-child node that has just ended.
fn pair_record(p: Pair, i: u32, e: u32) -> NodeRecord
    ensures { result ≡ spine_record (pair_open p) i e }
{
    record_as(i, p.first.number, e, u32::from(p.complement))
}

// The record x, with what its children say of the words below, is put under the number k.
fn put_worded(t: &mut [NodeRecord], z: u32, k: u32, x: NodeRecord)
    ensures { t.new ≡ worded_at t.old z k x }
{
    let y = with_words(x, get(t, z, x.first), get(t, z, x.second));
    put_record(t, k, y);
}

// The records of d open nodes are put under the numbers from k on, the innermost first: the number of the outermost. e: what the innermost has begun with
fn put_spine(t: &mut [NodeRecord], z: u32, o: &[Open; OPEN_LIMIT], d: usize, k: u32, e: u32) -> u32
    requires { (d ≤ open_limit) × (k + d ≤ table_limit + 1) }
    ensures { (t.new ≡ spine_at t.old z (opens_of o.now d) k e)
        × (result ≡ spine_number (opens_of o.now d) k e) }
{
    let mut inner = e;
    for j in 0..d {
        let i = d - j;
        let number = k + j as u32;
        put_worded(t, z, number, spine_record(o[i - 1], i as u32, inner));
        inner = number;
    }
    inner
}

// ---- A whole stream

// One number that stands for all that was read, and the size of its table.
#[derive(Clone, Copy)]
struct Rooted {
    size: u32,
    number: u32,
}

// A node has just ended.
fn has_ended(m: Context) -> bool
    ensures { result ≡ ended (context_of m) }
{
    matches!(
        m,
        Context::AfterDigit | Context::AfterTwo | Context::AfterOne | Context::Over
    )
}

// What ended last is the terminal or was not given out again; of a two-child node, which has no number yet: both its children.
fn last_stays(t: &[NodeRecord], q: Run) -> bool
    ensures { result ≡ last_stays t.now q }
{
    if q.context == Context::AfterTwo {
        stays(t, q.size, q.pair.first) && stays(t, q.size, q.pair.second)
    } else {
        stays(t, q.size, q.last)
    }
}

// No fault was met, and the table has what ended last, if a node has just ended, and the first children of all open nodes.
fn can_root(t: &[NodeRecord], o: &[Open; OPEN_LIMIT], r: Reached) -> bool
    ensures { result ≡ can_root (reached_in r o.now) t.now }
{
    r.fault.is_none()
        && (!has_ended(r.run.context) || last_stays(t, r.run))
        && firsts_stay(t, r.run.size, o, deep_of(r.depth))
}

// The number of what ended last, if a node has just ended; of a two-child node: that of its second child.
fn last_number(q: Run) -> u32
    ensures { result ≡ last_in q }
{
    if !has_ended(q.context) {
        return 0;
    }
    if q.context == Context::AfterTwo {
        return q.pair.second.number;
    }
    q.last.number
}

// How many nodes are open, with a two-child node that has just ended.
fn row_count(d: usize, m: Context) -> usize
    ensures { result ≡ row_count d (context_of m) }
{
    deep_of(d) + usize::from(m == Context::AfterTwo)
}

// These get records under the numbers from k on, the innermost first: the number of the outermost.
fn put_rows(t: &mut [NodeRecord], z: u32, o: &[Open; OPEN_LIMIT], r: Reached, k: u32) -> u32
    requires { k + row_count r.depth (context_of r.run.context) ≤ table_limit + 1 }
    ensures { (t.new ≡ spine_at t.old z (rows_in (reached_in r o.now)) k (last_in r.run))
        × (result ≡ spine_number (rows_in (reached_in r o.now)) k (last_in r.run)) }
{
    let d = deep_of(r.depth);
    let e = last_number(r.run);
    if r.run.context == Context::AfterTwo {
        put_worded(t, z, k, pair_record(r.run.pair, d as u32 + 1, e));
        return put_spine(t, z, o, d, k + 1, k);
    }
    put_spine(t, z, o, d, k, e)
}

// The number of the outermost node, if all that was read can have one. The open nodes get records, above all numbers that have a node, if there is room.
fn root(t: &mut [NodeRecord], o: &[Open; OPEN_LIMIT], r: Reached) -> Option<Rooted>
    ensures { rooting_in r.run.size result t.new ≡ root_in (reached_in r o.now) t.old }
{
    if !can_root(t, o, r) {
        return None;
    }
    let d = row_count(r.depth, r.run.context);
    if d == 0 {
        return Some(Rooted {
            size: r.run.size,
            number: last_number(r.run),
        });
    }
    let h = highest(t, (TABLE_LIMIT - d) as u32, r.run.size);
    if TABLE_LIMIT < h as usize + d {
        return None;
    }
    let size = r.run.size.max(h + d as u32);
    let number = put_rows(t, size, o, r, h + 1);
    Some(Rooted { size, number })
}

// A stream that was read to its end: what checking answers, and a block. Whole: no fault was met, and in the table, of the size of the block's cursor, the
// block's number stands for the outermost node, as far as it was read; what was not read counts as the terminal.
// (No Option of a block: the clause of `load` says the size and the leading `~` also of a stream that is not whole.)
#[derive(Clone, Copy)]
pub struct Loaded {
    pub checking: Result<Checked, Refusal>,
    pub block: Block,
    pub whole: bool,
}

// What the loop reached, with the number that stands for it.
fn rooted_block(r: Reached, x: Rooted) -> Block
    ensures { (result.cursor.run.size ≡ x.size) × ((result.number ≡ x.number) × (result.complement ≡ r.run.complement)) }
{
    let Reached {
        depth,
        from,
        deep,
        halted,
        ..
    } = r;
    let run = Run {
        size: x.size,
        ..r.run
    };
    Block {
        cursor: Cursor { run, depth },
        from,
        deep,
        number: x.number,
        complement: run.complement,
        halted,
    }
}

// Turned down before anything is read.
fn not_loaded(c: Cause) -> Loaded
    ensures { (t : List NodeRecord) → load_in result t ≡ refused_load (cause_of c) t }
{
    Loaded {
        checking: Err(early(c)),
        block: Block {
            cursor: first_cursor(),
            from: 0,
            deep: 0,
            number: 0,
            complement: false,
            halted: true,
        },
        whole: false,
    }
}

// WHAT IS LOADED where the loop has come to the end of a stream. o: the open nodes, as reading left them
pub fn loaded_at(t: &mut [NodeRecord], o: &[Open; OPEN_LIMIT], r: Reached) -> Loaded
    ensures { load_in result t.new ≡ load_of (record { reached = reached_in r o.now; table = t.old }) }
{
    let x = root(t, o, r);
    let none = Rooted {
        size: r.run.size,
        number: 0,
    };
    Loaded {
        checking: checked_at(r),
        block: rooted_block(r, x.unwrap_or(none)),
        whole: x.is_some(),
    }
}

// READING A STREAM TO ITS END into its table, which is left as it is then, with records for the nodes that are open: the answer of `check`, and the number
// of the outermost node if the table has it.
pub fn load(n: u32, s: &[u8], t: &mut [NodeRecord]) -> Loaded
    ensures { load_in result t.new ≡ load n s.now t.old }
{
    if OPTION_LIMIT < n {
        return not_loaded(Cause::OptionCount);
    }
    if t.len() < TABLE_LIMIT {
        return not_loaded(Cause::WorkTable);
    }
    let mut o = [Open::INSIDE; OPEN_LIMIT];
    let r = read_on(n, s, t, &mut o, first_cursor(), WORD_LIMIT);
    loaded_at(t, &o, r)
}
