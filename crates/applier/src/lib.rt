// Combining stored nodes: two inputs at edges of their own tables are walked together, with an operation cache of the parts that were walked.
#![tactic(auto)]

ghost use Rattle.std.specs.Prelude.{◌≡◌, [], ◌∷◌, ◌+◌, ◌≤◌};
ghost use Rattle.theory_reading.specs.Limits.{option_limit, level_limit};
ghost use Rattle.theory_writing.specs.Run.{operate};
ghost use Rattle.theory_applying.specs.Memo.{slot_of};
ghost use Rattle.theory_applying.specs.Recalling.{recall_in};
ghost use Rattle.operation_cache.specs.Abstraction.{rows_of};
ghost use Rattle.meeting.specs.Abstraction.{same_sink, progress_of};
ghost use Rattle.edges.specs.Abstraction.{edge_in};
ghost use Rattle.applier.specs.Abstraction.{recalled_of, applied};

use edges::{TableEdge, both_pass, first_edge, is_fixed, second_edge};
use meeting::{Gap, Progress, Sink, Walked, constant, numbered, second};
use node_records::{NodeRecord, OPTION_LIMIT};
use operation_cache::{Entry, key_of, note, recall, slot};
use operators::operate;
use pending_text::{push, push_tilde, wait};
use work_table::get as record_at;

// The level of a word, below all options.
const LEVEL_LIMIT: u32 = OPTION_LIMIT + 1;

// What is combined: the option count, the operator, the size to write, how many words are covered
#[derive(Clone, Copy)]
pub struct Task {
    pub n: u32,
    pub op: u32,
    pub size: u32,
    pub covered: u64,
}

// ---- The walk

// The part of level i with d options left, m bytes waiting before it; x and y: the inputs there, in the tables t1 and t2.
// (Many parameters: the two inputs, each with what it needs, and the operation cache beside the sink, since of a struct of `&mut` in a struct the proof of `run` in
// `combiner` has no link from the inner reference to the lender.)
fn walk(
    k: Task,
    d: u32,
    i: u32,
    m: usize,
    x: TableEdge,
    y: TableEdge,
    t1: &[NodeRecord],
    t2: &[NodeRecord],
    to: &mut Sink<'_>,
    cache: &mut [Option<Entry>],
    progress: Progress,
) -> Walked
    requires { i + d ≤ option_limit + level_limit }
    ensures same { same_sink to.new to.old }
    ensures walked { recalled_of result to.new cache.new
        ≡ recall_in slot_of (operate k.op) k.size d i m (edge_in x t1.now ∷ edge_in y t2.now ∷ []) (rows_of cache.old)
        to.old.table.now to.old.out.now to.old.waiting.now (progress_of progress) }
{
    if d == 0 || is_fixed(k.op, x, y) {
        let half = constant(operate(k.op, x.edge.complement, y.edge.complement));
        return Walked { progress, half };
    }
    let r1 = record_at(t1, x.size, x.edge.number);
    let r2 = record_at(t2, y.size, y.edge.number);
    let key = key_of(x.edge, r1.stamp, y.edge, r2.stamp);
    let s = slot(key);
    // Lent by itself: what a slice in a field holds is not known where it is passed as `&`.
    let t = &mut *to.table;
    if let Some(half) = recall(cache, t, s, i, key) {
        return Walked { progress, half };
    }
    let p = push(to.waiting, m, b'(');
    let x1 = first_edge(i, x, r1);
    let y1 = first_edge(i, y, r2);
    let a = walk(k, d - 1, i + 1, p, x1, y1, t1, t2, to, cache, progress);
    if a.progress.full {
        return a;
    }
    let h = a.half;
    let pass = both_pass(i, x, r1, y, r2);
    let x2 = second_edge(i, x, r1);
    let y2 = second_edge(i, y, r2);
    let v = operate(k.op, x2.edge.complement, y2.edge.complement);
    let tilde = h.complement != v;
    let q = wait(to.waiting, p, h.wrote, h.skipped, h.number);
    let waiting = push_tilde(to.waiting, q, tilde);
    let gap = Gap {
        first: h,
        tilde,
        waiting,
    };
    // The first half came to a number or the terminal, and the second is alike: both inputs pass.
    if !h.temporary && pass {
        let b = Walked {
            progress: a.progress,
            half: numbered(h.number, h.stamp, h.skipped, v, false),
        };
        return second(k.size, i, gap, b, to);
    }
    let b = walk(
        k,
        d - 1,
        i + 1,
        waiting,
        x2,
        y2,
        t1,
        t2,
        to,
        cache,
        a.progress,
    );
    let both = second(k.size, i, gap, b, to);
    note(cache, s, key, pass, both);
    both
}

// COMBINING STORED NODES: a part as a rule within the option limit has it; past that nothing is walked. (The parameters of `walk`.)
pub fn apply(
    k: Task,
    d: u32,
    i: u32,
    m: usize,
    x: TableEdge,
    y: TableEdge,
    t1: &[NodeRecord],
    t2: &[NodeRecord],
    to: &mut Sink<'_>,
    cache: &mut [Option<Entry>],
    progress: Progress,
) -> Walked
    ensures same { same_sink to.new to.old }
    ensures walked { recalled_of result to.new cache.new
        ≡ applied k.op k.size d i m (edge_in x t1.now ∷ edge_in y t2.now ∷ []) (rows_of cache.old)
        to.old.table.now to.old.out.now to.old.waiting.now (progress_of progress) }
{
    if OPTION_LIMIT < d || LEVEL_LIMIT < i {
        let half = constant(false);
        return Walked { progress, half };
    }
    walk(k, d, i, m, x, y, t1, t2, to, cache, progress)
}
