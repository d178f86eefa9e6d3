// Combining two streams by an operator: the call.
#![tactic(auto)]

ghost use Rattle.std.specs.Prelude.{◌≡◌, length, replicate};
ghost use Rattle.theory_writing.specs.Calls.{Combines};
ghost use Rattle.theory_combining.specs.CombineCorrect.{both_in};
ghost use Rattle.theory_combining.specs.Entering.{entered};
ghost use Rattle.node_records.specs.Records.{no_record, no_writer_record};
ghost use Rattle.answers.specs.Answers.{checking_of};
ghost use Rattle.blocks.specs.Blocks.{block_in};
ghost use Rattle.blocks.specs.Load.{load_in};
ghost use Rattle.operands.specs.Abstraction.{same_stream, input_of, begun_from};
ghost use Rattle.meeting.specs.Abstraction.{writing_of};
ghost use Rattle.combiner.specs.Abstraction.{both_of, run_by};

use answers::{Checked, Refusal, early};
use applier::Task;
use blocks::Loaded;
use covering::{LoadedBoth, covered, ignores_first, ignores_second, load_both};
use elements::{Cause, OPEN_LIMIT, Open};
use meeting::{Sink, Written, answer};
use node_records::{Edge, NodeRecord, OPTION_LIMIT, TABLE_LIMIT, WriterRecord};
use operands::{Input, Stream, TERMINAL, begin};
use operation_cache::CACHE_ENTRIES;
use pending_text::{Sent, WAITING_LIMIT};
use record_tables::clear_all;
use text_walk::stream;

// How many words each stream covers
#[derive(Clone, Copy)]
struct Both {
    first: u64,
    second: u64,
}

// Both streams checked: a refusal of the first, else one of the second, else how many words each covers.
fn both_checked(a: Result<Checked, Refusal>, b: Result<Checked, Refusal>) -> Result<Both, Refusal>
    ensures { both_of result ≡ both_in (checking_of a) (checking_of b) }
{
    let x = a?;
    let y = b.map_err(|r| Refusal { stream: 2, ..r })?;
    Ok(Both {
        first: x.covered,
        second: y.covered,
    })
}

// Where an input enters the run: at the terminal, if it is not asked (v); at its outermost node, if its table has that; else at the first block of its
// text.
fn enter(n: u32, s: &mut Stream<'_>, l: Loaded, v: bool) -> Input
    ensures same { same_stream s.new s.old }
    ensures entered { input_of result s.new
        ≡ entered v s.old.bytes.now (block_in l.block s.old.opens.now) (load_in l s.old.table.now)
        (begun_from n s.old.bytes.now s.old.opens.now s.old.table.now) }
{
    let block = l.block;
    if v {
        return Input {
            edge: Some(TERMINAL),
            block,
        };
    }
    if !l.whole {
        return begin(n, s);
    }
    let edge = Edge {
        number: block.number,
        complement: block.complement,
    };
    Input {
        edge: Some(edge),
        block,
    }
}

// The run, with memory of its own for open nodes, for bytes that wait and for the operation cache. (Each slice by itself, as `combine` is lent it for C.)
fn run(
    k: Task,
    x: &[u8],
    y: &[u8],
    l: LoadedBoth,
    out: &mut [u8],
    t1: &mut [NodeRecord],
    t2: &mut [NodeRecord],
    t: &mut [WriterRecord],
) -> Sent
    ensures sent { let s = run_by k x.now y.now l t1.old t2.old t.old out.old in result ≡ record { written = s.written; full = s.full } }
    ensures output { out.new ≡ (run_by k x.now y.now l t1.old t2.old t.old out.old).output }
{
    // All cells first: what a function pays at entry for its locals and these are then one pass.
    let mut w = [0u8; WAITING_LIMIT];
    let mut m = [None; CACHE_ENTRIES];
    let mut o1 = [Open::INSIDE; OPEN_LIMIT];
    let mut o2 = [Open::INSIDE; OPEN_LIMIT];
    let mut a = Stream {
        bytes: x,
        table: t1,
        opens: &mut o1,
    };
    let mut b = Stream {
        bytes: y,
        table: t2,
        opens: &mut o2,
    };
    let f = enter(k.n, &mut a, l.first.loaded, ignores_first(k.op));
    let g = enter(k.n, &mut b, l.second.loaded, ignores_second(k.op));
    let mut to = Sink {
        table: t,
        out,
        waiting: &mut w,
    };
    stream(k, f, g, &mut a, &mut b, &mut to, &mut m)
}

// COMBINING two streams by an operator: causes 1 to 4, then those of stream 1, then those of stream 2. (Nine parameters: the call of include/rule.h.)
pub fn combine(
    n: u32,
    op: u32,
    size: u32,
    x: &[u8],
    y: &[u8],
    out: &mut [u8],
    t1: &mut [NodeRecord],
    t2: &mut [NodeRecord],
    t: &mut [WriterRecord],
) -> Result<Written, Refusal>
    ensures { Combines no_record no_writer_record n op size x.now y.now out.old t1.old
        t2.old t.old (record {
          answer = writing_of result;
          first = t1.new;
          second = t2.new;
          third = t.new;
          output = out.new;
        }) }
{
    if OPTION_LIMIT < n {
        return Err(early(Cause::OptionCount));
    }
    if 15 < op {
        return Err(early(Cause::OperatorCode));
    }
    if TABLE_LIMIT < size as usize {
        return Err(early(Cause::SizeToWrite));
    }
    if t1.len() < TABLE_LIMIT || t2.len() < TABLE_LIMIT || t.len() < TABLE_LIMIT {
        return Err(early(Cause::WorkTable));
    }
    let l = load_both(n, op, x, y, t1, t2);
    clear_all(t);
    let z = match both_checked(l.first.loaded.checking, l.second.loaded.checking) {
        Ok(z) => z,
        Err(r) => {
            clear_all(t1);
            clear_all(t2);
            return Err(r);
        }
    };
    let covered = covered(n, op, x, y, t1, t2, l, z.first, z.second);
    let k = Task {
        n,
        op,
        size,
        covered,
    };
    let r = run(k, x, y, l, out, t1, t2, t);
    clear_all(t1);
    clear_all(t2);
    clear_all(t);
    Ok(answer(r, covered, covered == 1u64 << n))
}
