// Filling a truth table.
#![tactic(auto)]

ghost use Rattle.std.specs.Prelude.{◌≡◌, ◌+◌, ◌/◌, ◌^◌, ◌≤◌, ◌&&◌, length, replicate, if◌then◌else◌, nat_eq, []};
ghost use Rattle.std.proofs.Math.Option.{none};
ghost use Rattle.theory_reading.specs.Limits.{option_limit, open_limit, table_limit, truth_table_least, truth_table_most, truth_limit};
ghost use Rattle.theory_reading.specs.Reading.{reading};
ghost use Rattle.theory_reading.specs.Deciding.{trace};
ghost use Rattle.theory_reading.specs.Calls.{bytes_from, Fills};
ghost use Rattle.node_records.specs.Records.{no_record};
ghost use Rattle.work_table.specs.TableLaws.{table_of};
ghost use Rattle.checker.specs.CheckCorrect.{AsLong};
ghost use Rattle.answers.specs.Answers.{filling_of};
ghost use Rattle.reader.specs.OpenNodes.{reached_in};
ghost use Rattle.filler.specs.Truths.{with_word_in, put_node_in};
ghost use Rattle.filler.specs.FillCorrect.{filled_by};

use answers::{Refusal, early};
use blocks::{below, edge_of};
use checker::late;
use cursors::{Cursor, first_cursor};
use elements::{Cause, OPEN_LIMIT, Open};
use node_records::{
    Edge, NodeRecord, TABLE_LIMIT, TRUTH_TABLE_LEAST, TRUTH_TABLE_MOST, WORD_LIMIT, first_edge,
    second_edge,
};
use reader::{Reached, read_on};
use record_tables::clear_all;
use work_table::get;

// ---- Truth tables

// The word w becomes 1; it was 0.
fn put_word(v: &mut [u8], w: usize)
    ensures { v.new ≡ with_word_in v.old w }
{
    let i = w / 8;
    if i < v.len() {
        v[i] = v[i].wrapping_add(1u8 << (w % 8));
    }
}

// One word: yes for the terminal turned about.
fn put_edge(v: &mut [u8], e: Edge, w: usize)
    ensures { v.new ≡ (if nat_eq e.number 0 && e.complement then with_word_in v.old w else v.old) }
{
    if e.number == 0 && e.complement {
        put_word(v, w);
    }
}

// The words from w on of the node of level i, m options below it, that e stands for. z: how many numbers there are
// (kept: a walk over a diagram, not a count; level, options and edge stay apart: they go to this walk alone, where the writer's `Part` goes whole to three functions)
fn fill_node(t: &[NodeRecord], z: u32, v: &mut [u8], m: u32, i: u32, e: Edge, w: usize)
    requires { (m ≤ truth_table_most) × ((i + m ≤ open_limit + option_limit) × (w + 2 ^ m ≤ truth_limit)) }
    ensures { v.new ≡ put_node_in m (table_of t.now z) i e.number e.complement w v.old }
{
    if m == 0 {
        put_edge(v, e, w);
        return;
    }
    let x = get(t, z, e.number);
    let half = 1usize << (m - 1);
    fill_node(t, z, v, m - 1, i + 1, first_edge(x, i, e), w);
    fill_node(t, z, v, m - 1, i + 1, second_edge(x, i, e), w + half);
}

// ---- The call

// Node by node, the words that the stream covers.
fn fill_words(n: u32, s: &[u8], v: &mut [u8], t: &mut [NodeRecord])
    requires { (truth_table_least ≤ n) × ((n ≤ truth_table_most) × ((table_limit ≤ length t.old)
        × (((reading n s.now).fault ≡ none) × (v.old ≡ replicate (2 ^ n / 8) 0)))) }
    ensures { (v.new ≡ bytes_from (2 ^ n / 8) n (trace n s.now) 0) × AsLong t.new t.old }
{
    let mut o = [Open::INSIDE; OPEN_LIMIT];
    let mut c = first_cursor();
    // It counts nothing: it ends where reading halts.
    loop {
        let x = read_on(n, s, t, &mut o, c, c.run.covered);
        if x.halted {
            return;
        }
        let e = edge_of(x, &o);
        let i = x.deep as u32 + 1;
        fill_node(t, x.run.size, v, below(n, x.deep), i, e, x.from as usize);
        c = Cursor {
            run: x.run,
            depth: x.depth,
        };
    }
}

// What is answered where reading has come to its end.
fn filled_at(r: Reached) -> Result<u64, Refusal>
    ensures { filling_of result ≡ filled_by (reached_in r []) }
{
    match r.fault {
        Some(f) => Err(late(f)),
        None => Ok(r.run.covered),
    }
}

// FILLING a truth table: causes 1, 4 and 6, then those of the stream, which is read once more to fill.
pub fn fill(n: u32, s: &[u8], v: &mut [u8], t: &mut [NodeRecord]) -> Result<u64, Refusal>
    ensures { Fills no_record n s.now v.old t.old
        (record { answer = filling_of result; table = t.new; truths = v.new }) }
{
    if n < TRUTH_TABLE_LEAST || TRUTH_TABLE_MOST < n {
        return Err(early(Cause::OptionCount));
    }
    if t.len() < TABLE_LIMIT {
        return Err(early(Cause::WorkTable));
    }
    if v.len() != (1usize << n) / 8 {
        return Err(early(Cause::TruthTable));
    }
    let mut o = [Open::INSIDE; OPEN_LIMIT];
    let r = read_on(n, s, t, &mut o, first_cursor(), WORD_LIMIT);
    if r.fault.is_none() {
        v.fill(0);
        fill_words(n, s, v, t);
    }
    clear_all(t);
    filled_at(r)
}
