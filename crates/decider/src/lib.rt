// Deciding a word.
#![tactic(auto)]

ghost use Rattle.std.specs.Prelude.{◌≡◌, [], ◌+◌, ◌≤◌};
ghost use Rattle.theory_reading.specs.Limits.{option_limit, open_limit};
ghost use Rattle.theory_reading.specs.Deciding.{decided, complemented, options};
ghost use Rattle.theory_reading.specs.Calls.{verdict_of, Decides};
ghost use Rattle.theory_reading.specs.TableWalk.{table_walk};
ghost use Rattle.node_records.specs.Records.{no_record};
ghost use Rattle.work_table.specs.TableLaws.{table_of};
ghost use Rattle.reader.specs.OpenNodes.{reached_in};
ghost use Rattle.blocks.specs.Blocks.{word_at};
ghost use Rattle.answers.specs.Answers.{verdicts_of, deciding_of};
ghost use Rattle.decider.specs.DecideCorrect.{decided_by};

use answers::{Refusal, Verdict, early};
use blocks::{below, edge_of};
use checker::late;
use cursors::{Cursor, first_cursor};
use elements::{Cause, OPEN_LIMIT, Open};
use node_records::{
    Edge, NodeRecord, OPTION_LIMIT, TABLE_LIMIT, WORD_LIMIT, first_edge, second_edge,
};
use reader::{Reached, read_on};
use record_tables::clear_all;
use work_table::get;

// The decision of a word: no, turned about if b.
fn verdict_of(b: bool) -> Verdict
    ensures { verdicts_of result ≡ verdict_of (decided b) }
{
    if b { Verdict::Yes } else { Verdict::No }
}

// The word w of the node of level i, m options below it, that e stands for. z: how many numbers there are
// (kept: a walk down a diagram, not a count; level, options and edge stay apart: they go to this walk alone, where the writer's `Part` goes whole to three functions)
fn walk_down(t: &[NodeRecord], z: u32, m: u32, i: u32, e: Edge, w: u64) -> Verdict
    requires { (m ≤ option_limit) × (i + m ≤ open_limit + option_limit) }
    ensures { verdicts_of result ≡ verdict_of (complemented e.complement (table_walk (table_of t.now z) i e.number (options m w))) }
{
    if e.number == 0 {
        return verdict_of(e.complement);
    }
    if m == 0 {
        return Verdict::NotYet;
    }
    let x = get(t, z, e.number);
    let half = 1u64 << (m - 1);
    if w < half {
        walk_down(t, z, m - 1, i + 1, first_edge(x, i, e), w)
    } else {
        walk_down(t, z, m - 1, i + 1, second_edge(x, i, e), w - half)
    }
}

fn decided_at(r: Reached, v: Verdict) -> Result<Verdict, Refusal>
    ensures { deciding_of result ≡ decided_by (reached_in r []) (verdicts_of v) }
{
    match r.fault {
        Some(f) => Err(late(f)),
        None => Ok(v),
    }
}

// The word w, which the loop's last element passed.
fn word_at(t: &[NodeRecord], o: &[Open; OPEN_LIMIT], n: u32, r: Reached, w: u64) -> Verdict
    requires { (n ≤ option_limit) × ((r.deep ≤ open_limit) × (r.from ≤ w)) }
    ensures { verdicts_of result ≡ word_at t.now n (reached_in r o.now) w }
{
    let i = r.deep as u32 + 1;
    walk_down(
        t,
        r.run.size,
        below(n, r.deep),
        i,
        edge_of(r, o),
        w - r.from,
    )
}

// DECIDING a word: causes 1, 4 and 5, then those of the stream.
pub fn decide(n: u32, s: &[u8], w: u64, t: &mut [NodeRecord]) -> Result<Verdict, Refusal>
    ensures { Decides no_record n s.now w t.old (record { answer = deciding_of result; table = t.new }) }
{
    if OPTION_LIMIT < n {
        return Err(early(Cause::OptionCount));
    }
    if t.len() < TABLE_LIMIT {
        return Err(early(Cause::WorkTable));
    }
    if 1u64 << n <= w {
        return Err(early(Cause::WordRange));
    }
    let mut o = [Open::INSIDE; OPEN_LIMIT];
    let r = read_on(n, s, t, &mut o, first_cursor(), w);
    if r.halted {
        clear_all(t);
        return decided_at(r, Verdict::NotYet);
    }
    let v = word_at(t, &o, n, r, w);
    let c = Cursor {
        run: r.run,
        depth: r.depth,
    };
    let e = read_on(n, s, t, &mut o, c, WORD_LIMIT);
    clear_all(t);
    decided_at(e, v)
}
