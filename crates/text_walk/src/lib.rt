// Combining texts: two streams are read on together, block by block, and walked over their stored nodes from there.
#![tactic(auto)]

ghost use Rattle.std.specs.Prelude.{◌≡◌, false, not, ◌||◌, [], ◌∷◌, eqb, ltb, ◌+◌, ◌≤◌, ◌^◌};
ghost use Rattle.theory_reading.specs.Limits.{option_limit, level_limit, word_limit};
ghost use Rattle.meeting.specs.Abstraction.{same_sink, sent_of, progress_of};
ghost use Rattle.operation_cache.specs.Abstraction.{rows_of};
ghost use Rattle.operands.specs.Abstraction.{same_stream, inside, input_of, first_value_of};
ghost use Rattle.text_walk.specs.Abstraction.{gap_in, gap_by, carried_of, walk_texts, finished_by, nodes_by, stream_by};

use applier::{Task, apply};
use blocks::Block;
use meeting::{Gap, Half, Progress, Sink, Walked, done, progress_after, second};
use node_records::OPTION_LIMIT;
use operands::{Input, Stream, edge_of, first_half, first_value, second_half};
use operation_cache::Entry;
use operators::operate;
use pending_text::{Sent, push, push_number, push_tilde, send, wait};

// ---- The walk

// No option is left, or no input is in its text and all words of the part are covered, whose words begin with `at`.
fn at_edges(k: Task, d: u32, at: u64, f: Input, g: Input) -> bool
    requires { (d ≤ option_limit) × (at + 2 ^ d ≤ word_limit) }
    ensures { result ≡ (eqb d 0 || not ((inside f.edge || (inside g.edge || false)) || ltb k.covered (at + 2 ^ d))) }
{
    if d == 0 {
        return true;
    }
    if f.edge.is_none() || g.edge.is_none() {
        return false;
    }
    at + (1u64 << d) <= k.covered
}

// What a part came to, with the block of each input that was read last; the first word that is not covered was met
#[derive(Clone, Copy)]
struct Applied {
    ended: bool,
    walked: Walked,
    first: Block,
    second: Block,
}

// Nothing is walked after it.
fn is_halted(a: Applied) -> bool
    ensures { result ≡ (a.ended || a.walked.progress.full) }
{
    a.ended || a.walked.progress.full
}

// Between the halves; f and g: the inputs at the second half, m bytes waiting before the first, which came to h
fn cross(op: u32, m: usize, f: Input, g: Input, h: Half, w: &mut [u8]) -> Gap
    ensures { gap_in result w.new ≡ gap_by op m (first_value_of f) (first_value_of g) h w.old }
{
    let tilde = h.complement != operate(op, first_value(f), first_value(g));
    let q = wait(w, m, h.wrote, h.skipped, h.number);
    Gap {
        first: h,
        tilde,
        waiting: push_tilde(w, q, tilde),
    }
}

// The part of level i whose words begin with `at`, m bytes waiting before it; f and g: the inputs there, of the streams x and y
// (Many parameters: the two inputs with their streams, and the operation cache beside the sink, as in `applier`; likewise below.)
fn texts(
    k: Task,
    d: u32,
    i: u32,
    at: u64,
    m: usize,
    f: Input,
    g: Input,
    x: &mut Stream<'_>,
    y: &mut Stream<'_>,
    to: &mut Sink<'_>,
    cache: &mut [Option<Entry>],
    progress: Progress,
) -> Applied
    requires { (d ≤ option_limit) × ((i + d ≤ level_limit) × (at + 2 ^ d ≤ word_limit)) }
    ensures same { same_stream x.new x.old × same_stream y.new y.old × same_sink to.new to.old }
    ensures walked { carried_of result x.new y.new to.new cache.new ≡ walk_texts k d i at m (input_of f x.old ∷ input_of g y.old ∷ [])
        (rows_of cache.old) to.old.table.now to.old.out.now to.old.waiting.now (progress_of progress) }
{
    let t1 = &mut *x.table;
    let t2 = &mut *y.table;
    if at_edges(k, d, at, f, g) {
        return Applied {
            ended: false,
            walked: apply(
                k,
                d,
                i,
                m,
                edge_of(f),
                edge_of(g),
                t1,
                t2,
                to,
                cache,
                progress,
            ),
            first: f.block,
            second: g.block,
        };
    }
    let mid = at + (1u64 << (d - 1));
    let p = push(to.waiting, m, b'(');
    let f1 = Input {
        edge: first_half(t1, i, f),
        ..f
    };
    let g1 = Input {
        edge: first_half(t2, i, g),
        ..g
    };
    let a = texts(k, d - 1, i + 1, at, p, f1, g1, x, y, to, cache, progress);
    if is_halted(a) {
        return a;
    }
    if k.covered <= mid {
        return Applied { ended: true, ..a };
    }
    let f = Input {
        block: a.first,
        ..f
    };
    let g = Input {
        block: a.second,
        ..g
    };
    let f2 = second_half(k.n, i, x, f);
    let g2 = second_half(k.n, i, y, g);
    let gap = cross(k.op, p, f2, g2, a.walked.half, to.waiting);
    let b = texts(
        k,
        d - 1,
        i + 1,
        mid,
        gap.waiting,
        f2,
        g2,
        x,
        y,
        to,
        cache,
        a.walked.progress,
    );
    if is_halted(b) {
        return b;
    }
    Applied {
        walked: second(k.size, i, gap, b.walked, to),
        ..b
    }
}

// ---- The whole run

// After the walk: of a whole run what waits, and the point. m: how much waited before it
fn finish(k: Task, m: usize, a: Applied, to: &mut Sink<'_>) -> Sent
    requires { k.n ≤ option_limit }
    ensures same { same_sink to.new to.old }
    ensures sent { sent_of result to.new ≡ finished_by k m a to.old }
{
    if k.covered == 1u64 << k.n {
        return done(m, a.walked, to.out, to.waiting);
    }
    let Progress { written, full, .. } = a.walked.progress;
    Sent { written, full }
}

// After the size and its LF (head): the leading `~` and the outermost node
fn nodes(
    k: Task,
    f: Input,
    g: Input,
    x: &mut Stream<'_>,
    y: &mut Stream<'_>,
    to: &mut Sink<'_>,
    cache: &mut [Option<Entry>],
    head: Sent,
) -> Sent
    requires { k.n ≤ option_limit }
    ensures same { same_stream x.new x.old × same_stream y.new y.old × same_sink to.new to.old }
    ensures sent { sent_of result to.new ≡ nodes_by k (input_of f x.old ∷ input_of g y.old ∷ [])
        (rows_of cache.old) to.old.table.now (sent_of head to.old) }
{
    let tilde = operate(k.op, first_value(f), first_value(g));
    let m = push_tilde(to.waiting, 0, tilde);
    let a = texts(k, k.n, 1, 0, m, f, g, x, y, to, cache, progress_after(head));
    finish(k, m, a, to)
}

// THE STREAM OF A RUN: f and g, the inputs at the outermost node. Of more options than the limit nothing goes out.
pub fn stream(
    k: Task,
    f: Input,
    g: Input,
    x: &mut Stream<'_>,
    y: &mut Stream<'_>,
    to: &mut Sink<'_>,
    cache: &mut [Option<Entry>],
) -> Sent
    ensures same { same_stream x.new x.old × same_stream y.new y.old × same_sink to.new to.old }
    ensures sent { sent_of result to.new ≡ stream_by k (input_of f x.old ∷ input_of g y.old ∷ [])
        (rows_of cache.old) to.old.table.now to.old.out.now to.old.waiting.now }
{
    if OPTION_LIMIT < k.n {
        return Sent {
            written: 0,
            full: true,
        };
    }
    let a = push_number(to.waiting, 0, k.size);
    let b = push(to.waiting, a, b'\n');
    let head = send(to.out, to.waiting, 0, b);
    // No more goes out than the size and its LF.
    if head.full || k.covered == 0 {
        return head;
    }
    nodes(k, f, g, x, y, to, cache, head)
}
