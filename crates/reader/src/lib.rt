// One element more, the loop over elements, and reading on from a cursor. The stream, its table and its open nodes are three parameters: a struct of `&mut`, as the
// stream of `operands`, would owe in each contract that its references are the same ones, and three calls pass them on: no plainer.
#![tactic(auto)]

ghost use Rattle.std.specs.Prelude.{◌≡◌, ◌+◌, ◌-◌, ◌<◌, ◌≤◌, ◌^◌, Ok};
ghost use Rattle.theory_reading.specs.Limits.{option_limit, open_limit, word_limit};
ghost use Rattle.theory_reading.specs.StepLaws.{digit_place};
ghost use Rattle.scanner.specs.TokenView.{outcome_in};
ghost use Rattle.cursors.specs.declared.Run.{Run};
ghost use Rattle.reader.specs.Taking.{goes_of, fails_of, moved_to, passed_to, turned_to, sized_to, found_to, closed_two, closed_to, is_bad_of};
ghost use Rattle.reader.specs.Taking.{WithinLimits, next_stamp, stored_to, taken_of, taken_view};
ghost use Rattle.reader.specs.Advance.{bars_by, barred_by, record_to, updated_to, nodes_to, Iterates, iteration_view, went_view};
ghost use Rattle.reader.specs.OpenNodes.{opens_in, reached_in, cursor_in};
ghost use Rattle.reader.specs.ReadOn.{off_by, read_from};
ghost use Rattle.reader.specs.RunOn.{complement_in, parity_to, last_edge, stop_to, seeks_in, goal_view, goal_to, run_all, run_from, search_from};
ghost use Rattle.reader.specs.Tokens.{outcome_as};

use cursors::{Cursor, Pair, Run, is_kept};
use elements::{Cause, Context, Element, Fault, OPEN_LIMIT, Open, Outcome, Ref, spots_of};
use kinds::kinds;
use node_records::{Edge, NodeRecord, OPTION_LIMIT, Record, TABLE_LIMIT, WORD_LIMIT, some_yes};
use record_tables::clear_records;
use scanner::{BLANK, COLON, NextToken, next_token};
use work_table::{get, store};

// ---- One element more

// What an element changes in the table: nothing, or its number is the size, or is stored.
#[derive(Clone, Copy)]
enum Change {
    Nothing,
    Size,
    Node,
}

// An element taken: what reading has come to, but for the place, and what changes in the table.
#[derive(Clone, Copy)]
struct Taken {
    run: Run,
    change: Change,
}

fn goes(run: Run) -> Result<Taken, Fault>
    ensures { (r : Run) → taken_view r result ≡ goes_of run }
{
    Ok(Taken {
        run,
        change: Change::Nothing,
    })
}

fn fails(cause: Cause, byte: usize) -> Result<Taken, Fault>
    ensures { (r : Run) → taken_view r result ≡ fails_of r cause byte }
{
    Err(Fault { cause, byte })
}

// The words of a node with d open nodes around it.
fn words(n: u32, d: u32) -> u64
    requires { n ≤ option_limit }
    ensures { (result ≡ 2 ^ (n - d)) × (result ≤ word_limit) }
{
    1u64 << n.saturating_sub(d)
}

// A node that refers to x passes its words.
fn passed(n: u32, r: Run, d: u32, x: Ref) -> Run
    requires { WithinLimits n r d }
    ensures { result ≡ passed_to n r d x r.at r.context }
{
    Run {
        last: x,
        covered: r.covered + words(n, d),
        ..r
    }
}

fn turned(r: Run) -> Run
    ensures { result ≡ turned_to r r.at r.context }
{
    Run {
        complement: r.context == Context::Lead || r.complement,
        ..r
    }
}

// The size v, whose first digit stands at g.
fn sized(r: Run, g: usize, v: u32) -> Result<Taken, Fault>
    ensures { taken_view r result ≡ sized_to r g v r.at r.context }
{
    if TABLE_LIMIT < v as usize {
        return fails(Cause::DeclaredSize, g);
    }
    Ok(Taken {
        run: Run { size: v, ..r },
        change: Change::Size,
    })
}

// The number v, with its record x.
fn found(n: u32, r: Run, d: u32, g: usize, v: u32, x: NodeRecord) -> Result<Taken, Fault>
    requires { WithinLimits n r d }
    ensures { taken_view r result ≡ found_to n r d g v x r.at r.context }
{
    if x.level == 0 {
        return fails(Cause::NotInTable, g);
    }
    if x.level != d + 1 {
        return fails(Cause::OtherLevel, g);
    }
    let e = Ref {
        number: v,
        stamp: x.stamp,
    };
    goes(passed(n, r, d, e))
}

// The second child of the open node o has ended.
fn paired(r: Run, o: Open) -> Run
    ensures { result ≡ closed_two r o r.at r.context }
{
    Run {
        last: Ref::TEMPORARY,
        pair: Pair {
            first: o.first,
            complement: o.complement,
            second: r.last,
        },
        ..r
    }
}

// The innermost open node, o, is closed.
fn closed(n: u32, r: Run, d: u32, o: Open) -> Result<Taken, Fault>
    requires { WithinLimits n r d }
    ensures { taken_view r result ≡ closed_to n r d o r.at r.context }
{
    if d == 0 {
        return goes(r);
    }
    if o.second {
        return goes(paired(r, o));
    }
    if is_kept(r.last) {
        return goes(passed(n, r, d, r.last));
    }
    fails(Cause::NotStorable, r.at)
}

// The number k, with its record x, may not be stored.
fn is_bad(r: Run, k: u32, x: NodeRecord) -> bool
    ensures { result ≡ is_bad_of r k x }
{
    k == 0 || r.size < k || x.parents != 0 || r.pair.first.number == k || r.pair.second.number == k
}

// A stamp that does not fit stays at the largest; none comes so far.
fn next_stamp(g: u32) -> u32
    ensures { result ≡ next_stamp g }
{
    g.saturating_add(1)
}

// The node that ended last is given the number k, with its record x.
fn stored(r: Run, k: u32, x: NodeRecord) -> Result<Taken, Fault>
    requires { r.at < 18446744073709551615 }
    ensures { taken_view r result ≡ stored_to r k x r.at r.context }
{
    if is_bad(r, k, x) {
        return fails(Cause::BadNumber, r.at + 1);
    }
    let e = Ref {
        number: k,
        stamp: next_stamp(x.stamp),
    };
    Ok(Taken {
        run: Run { last: e, ..r },
        change: Change::Node,
    })
}

// One element more, but that the place moves on. n: the option count; d: how many nodes are open, and o the innermost; g: where the first digit of a
// number stands; x: the record of the number, if it has one.
fn take_element(
    n: u32,
    r: Run,
    d: u32,
    o: Open,
    g: usize,
    e: Element,
    x: NodeRecord,
) -> Result<Taken, Fault>
    requires { WithinLimits n r d × (r.at < 18446744073709551615) }
    ensures { taken_view r result ≡ taken_of n r d o g e x r.at r.context }
{
    match e {
        Element::Opening if n < d + 1 => fails(Cause::TooDeep, r.at),
        Element::Opening | Element::End => goes(r),
        Element::Number(v) if r.context == Context::Start => sized(r, g, v),
        Element::Number(v) => found(n, r, d, g, v, x),
        Element::Constant => goes(passed(n, r, d, Ref::TERMINAL)),
        Element::Turn => goes(turned(r)),
        Element::Closing => closed(n, r, d, o),
        Element::Storing(k) => stored(r, k, x),
    }
}

// ---- One iteration

// The record of the child a has another stamp: its number was given out again, or it has none.
fn is_stale(t: &[NodeRecord], z: u32, a: Ref) -> bool
    ensures { result ≡ bars_by t.now z a }
{
    get(t, z, a.number).stamp != a.stamp
}

// A `:` at the place is barred by a child, whose number was given out again. b: the byte there
fn barred(t: &[NodeRecord], r: Run, b: u8) -> bool
    ensures { result ≡ barred_by t.now r b }
{
    b == COLON
        && r.context == Context::AfterTwo
        && (is_stale(t, r.size, r.pair.first) || is_stale(t, r.size, r.pair.second))
}

// The record that a storing puts, d nodes being open; `store` has what it says of the words below. x: the record before
fn record_of(r: Run, d: u32, x: NodeRecord) -> NodeRecord
    requires { d ≤ open_limit }
    ensures { result ≡ record_to r d x }
{
    NodeRecord {
        level: d + 1,
        first: r.pair.first.number,
        second: r.pair.second.number,
        complement: u32::from(r.pair.complement),
        stamp: next_stamp(x.stamp),
        parents: x.parents,
        ..NodeRecord::empty()
    }
}

// The table after an element of the number k: a size clears its records, a storing puts one.
fn update_table(t: &mut [NodeRecord], r: Run, d: u32, k: u32, x: NodeRecord, y: Taken)
    requires { d ≤ open_limit }
    ensures { t.new ≡ updated_to r d k x (taken_view r (Ok y)) t.old }
{
    match y.change {
        Change::Nothing => {}
        Change::Size => clear_records(t, k as usize),
        Change::Node => store(t, r.size, k, record_of(r, d, x)),
    }
}

// An iteration of the loop that went on: what reading has come to, how many nodes are open, and the entry of the innermost before it.
#[derive(Clone, Copy)]
struct Iteration {
    run: Run,
    depth: usize,
    low: Open,
}

// Where the first digit of a number stands. b: the byte at the place
fn digit_place(b: u8, at: usize) -> usize
    requires { at < 18446744073709551615 }
    ensures { result ≡ digit_place at b }
{
    if b == BLANK { at + 1 } else { at }
}

// The element of the token x. Err: there is none, with the fault if there is one
fn element_of(x: NextToken) -> Result<Element, Option<Fault>>
    ensures { outcome_as result ≡ outcome_in x }
{
    match Outcome::from(x) {
        Outcome::Got(e) => Ok(e),
        Outcome::Fault(f) => Err(Some(f)),
        Outcome::RanOut => Err(None),
    }
}

// One iteration of the loop. d: how many nodes are open, low: the innermost. Err: the loop halts, with the fault if there is one
fn iterate(
    n: u32,
    s: &[u8],
    t: &mut [NodeRecord],
    r: Run,
    d: usize,
    low: Open,
) -> Result<Iteration, Option<Fault>>
    requires { WithinLimits n r d }
    ensures { Iterates n s.now r d low t.old (iteration_view r d low result) t.new }
{
    let Some(&b) = s.get(r.at) else {
        return Err(None);
    };
    if barred(t, r, b) {
        return Err(Some(Fault {
            cause: Cause::NotStorable,
            byte: r.at,
        }));
    }
    let x = next_token(kinds(), s, r.at, r.context, r.last, d, low);
    let e = element_of(x)?;
    let row = get(t, r.size, x.number);
    let y = take_element(n, r, d as u32, low, digit_place(b, r.at), e, row)?;
    update_table(t, r, d as u32, x.number, row, y);
    let run = Run {
        at: x.at,
        context: x.context,
        ..y.run
    };
    Ok(Iteration {
        run,
        depth: x.depth,
        low: x.low,
    })
}

// ---- The loop

// What the loop has reached: what reading has come to, and how many nodes are open; the covered count and the open nodes before the last element;
// whether it halted, and the fault if there is one. (Both: reading may halt with no fault, and `ReadReached` of the clauses has
// both. Run and depth apart, and no Cursor: `r.run.size` is what is read of it nearly everywhere.)
#[derive(Clone, Copy)]
pub struct Reached {
    pub run: Run,
    pub depth: usize,
    pub from: u64,
    pub deep: usize,
    pub halted: bool,
    pub fault: Option<Fault>,
}

// The innermost of d open nodes becomes e, and one that opens after it is in its first child. o: the open nodes, the outermost first
fn put_open(o: &mut [Open; OPEN_LIMIT], d: usize, e: Open)
    ensures { o.new ≡ nodes_to o.old d e }
{
    let p = spots_of(d);
    o[p.high] = Open::INSIDE;
    o[p.low] = e;
}

// ---- The loop's goal

// What a search keeps. odd: whether an odd number of open nodes turns about; noes: words that are no are sought, not words that are yes
#[derive(Clone, Copy)]
struct Search {
    odd: bool,
    noes: bool,
}

// The loop reads on while no more than `stop` words are covered; a search moves the stop behind words of which none is sought.
#[derive(Clone, Copy)]
struct Goal {
    stop: u64,
    search: Option<Search>,
}

// The place is in the second child, and the edge to it is complemented.
pub fn complements(e: Open) -> bool
    ensures { result ≡ complement_in e }
{
    e.second && e.complement
}

// Whether an odd number of open nodes turns about, after the iteration x. p: before it; d, low: how many are open before it, and the innermost
fn parity_on(p: bool, d: usize, low: Open, x: Iteration) -> bool
    ensures { result ≡ parity_to p d low (went_view x) }
{
    if d == 0 {
        return false;
    }
    let q = complements(low) != p;
    if x.depth < d {
        return q;
    }
    complements(x.low) != q
}

// What ended last, turned about if p.
fn last_edge(r: Run, p: bool) -> Edge
    ensures { result ≡ last_edge r p }
{
    Edge {
        number: r.last.number,
        complement: p != r.complement,
    }
}

// The stop after an element, for a search: behind the words that it passed, if none of them, turned about if p, is yes.
fn stop_after(t: &[NodeRecord], r: Run, stop: u64, p: bool) -> u64
    ensures { result ≡ stop_to t.now r stop p }
{
    if r.covered <= stop || WORD_LIMIT < r.covered {
        return stop;
    }
    let e = last_edge(r, p);
    if some_yes(get(t, r.size, e.number), e) {
        stop
    } else {
        r.covered
    }
}

// The goal after the iteration x, which stays unless the loop seeks. d, low: how many nodes are open before it, and the innermost
fn goal_after(t: &[NodeRecord], g: Goal, d: usize, low: Open, x: Iteration) -> Goal
    ensures { (goal_view result ≡ goal_to (seeks_in g.search) t.now (goal_view g) d low (went_view x))
        × (seeks_in result.search ≡ seeks_in g.search) }
{
    let Some(search) = g.search else { return g };
    let odd = parity_on(search.odd, d, low, x);
    Goal {
        stop: stop_after(t, x.run, g.stop, search.noes != odd),
        search: Some(Search { odd, ..search }),
    }
}

// Reads on to the goal, from a cursor inside the open nodes o.
fn run_on(
    n: u32,
    s: &[u8],
    t: &mut [NodeRecord],
    o: &mut [Open; OPEN_LIMIT],
    c: Cursor,
    goal: Goal,
) -> Reached
    requires { (n ≤ option_limit) × ((c.depth ≤ open_limit) × (goal.stop ≤ word_limit)) }
    ensures { record { reached = reached_in result o.new; table = t.new }
        ≡ run_all n s.now (seeks_in goal.search) (goal_view goal) c.run (opens_in o.old c.depth) t.old }
{
    let mut g = goal;
    let mut r = Reached {
        run: c.run,
        depth: c.depth,
        from: 0,
        deep: 0,
        halted: false,
        fault: None,
    };
    // It counts no index: it reads on until words are covered.
    while r.run.covered <= g.stop {
        let low = o[spots_of(r.depth).low];
        let x = match iterate(n, s, t, r.run, r.depth, low) {
            Ok(x) => x,
            Err(fault) => {
                return Reached {
                    halted: true,
                    fault,
                    ..r
                };
            }
        };
        g = goal_after(t, g, r.depth, low, x);
        put_open(o, r.depth, x.low);
        r = Reached {
            run: x.run,
            depth: x.depth,
            from: r.run.covered,
            deep: r.depth,
            ..r
        };
    }
    r
}

// ---- Reading on from a cursor

// More options, open nodes or words than any reading has.
fn is_off(n: u32, d: usize, stop: u64) -> bool
    ensures { result ≡ off_by n d stop }
{
    OPTION_LIMIT < n || OPEN_LIMIT < d || WORD_LIMIT < stop
}

// Reads on to the goal, from a cursor; past the limits nothing is read.
fn run_from(
    n: u32,
    s: &[u8],
    t: &mut [NodeRecord],
    o: &mut [Open; OPEN_LIMIT],
    c: Cursor,
    goal: Goal,
) -> Reached
    ensures { record { reached = reached_in result o.new; table = t.new }
        ≡ run_from n s.now (seeks_in goal.search) (goal_view goal) (cursor_in c o.old) t.old }
{
    if is_off(n, c.depth, goal.stop) {
        return Reached {
            run: c.run,
            depth: c.depth,
            from: 0,
            deep: 0,
            halted: true,
            fault: None,
        };
    }
    run_on(n, s, t, o, c, goal)
}

// READING ON while no more than `stop` words are covered. o: the open nodes, as reading left them
pub fn read_on(
    n: u32,
    s: &[u8],
    t: &mut [NodeRecord],
    o: &mut [Open; OPEN_LIMIT],
    c: Cursor,
    stop: u64,
) -> Reached
    ensures { record { reached = reached_in result o.new; table = t.new }
        ≡ read_from n s.now stop (cursor_in c o.old) t.old }
{
    run_from(n, s, t, o, c, Goal { stop, search: None })
}

// SEARCHING ON: reads on until words are passed of which some is yes or, if `noes`, some is no. o: the open nodes, as reading left them; odd: an odd number
// of them turns about
pub fn search_on(
    n: u32,
    s: &[u8],
    t: &mut [NodeRecord],
    o: &mut [Open; OPEN_LIMIT],
    c: Cursor,
    odd: bool,
    noes: bool,
) -> Reached
    ensures { record { reached = reached_in result o.new; table = t.new }
        ≡ search_from n s.now (cursor_in c o.old) odd noes t.old }
{
    let goal = Goal {
        stop: c.run.covered,
        search: Some(Search { odd, noes }),
    };
    run_from(n, s, t, o, c, goal)
}
