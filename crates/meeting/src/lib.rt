// Two halves meet: the five rules, over records, waiting text and output; and what a call answers.
#![tactic(auto)]

ghost use Rattle.std.specs.Prelude.{◌≡◌, ◌≢◌, cond, true, false, []};
ghost use Rattle.theory_writing.specs.Run.{whole, input_ended, output_full};
ghost use Rattle.theory_engine.specs.Engine.{is_constant, is_stale, alike_constant, alike_number, barred_half, spaced, send_node, write_temporary};
ghost use Rattle.theory_engine.specs.Engine.{give_in, meet_in, second_in, done_in};
ghost use Rattle.meeting.specs.Abstraction.{half_of, progress_of, same_sink, walked_of, written_of};

use node_records::{Node, WriterRecord};
use pending_text::{Sent, close, push, send, wait};
use unique_table::{Ends, find, next_number, stamp_of, store};

// ---- Halves

// What a part came to: the number (0: the constant, or a temporary node), its stamp, the levels skipped
// (No enum: it is the Half of Engine, and 0 is what the constant is written as.)
#[derive(Clone, Copy)]
pub struct Half {
    pub number: u32,
    pub stamp: u32,
    pub skipped: u32,
    pub temporary: bool,
    pub complement: bool,
    pub wrote: bool,
}

// How far the writer is: the numbers given out, the ends of the queue, the bytes written; more was sent than the output holds
#[derive(Clone, Copy)]
pub struct Progress {
    pub written: usize,
    pub given: u32,
    pub first: u32,
    pub last: u32,
    pub full: bool,
}

#[derive(Clone, Copy)]
pub struct Walked {
    pub progress: Progress,
    pub half: Half,
}

// Between two halves: what the first came to, the `~` of the second, how much waits
#[derive(Clone, Copy)]
pub struct Gap {
    pub first: Half,
    pub tilde: bool,
    pub waiting: usize,
}

// What is written to: the records of the table for writing, the output, the bytes that wait
#[derive(Drop)]
pub struct Sink<'a> {
    pub table: &'a mut [WriterRecord],
    pub out: &'a mut [u8],
    pub waiting: &'a mut [u8],
}

pub fn constant(v: bool) -> Half
    ensures { result ≡ record { number = 0; stamp = 0; skipped = 0; temporary = false; complement = v; wrote = false } }
{
    Half {
        number: 0,
        stamp: 0,
        skipped: 0,
        temporary: false,
        complement: v,
        wrote: false,
    }
}

pub fn numbered(k: u32, g: u32, j: u32, v: bool, wrote: bool) -> Half
    ensures { result ≡ record { number = k; stamp = g; skipped = j; temporary = false; complement = v; wrote = wrote } }
{
    Half {
        number: k,
        stamp: g,
        skipped: j,
        wrote,
        ..constant(v)
    }
}

fn temporary(v: bool) -> Half
    ensures { result ≡ record { number = 0; stamp = 0; skipped = 0; temporary = true; complement = v; wrote = true } }
{
    Half {
        temporary: true,
        wrote: true,
        ..constant(v)
    }
}

// ---- The five rules

fn is_constant(a: Half) -> bool
    ensures { result ≡ is_constant (half_of a) }
{
    a.number == 0 && !a.temporary
}

// Rule 1: both constant, no `~`.
fn alike_constant(g: Gap, b: Half) -> bool
    ensures { result ≡ alike_constant g.tilde (half_of g.first) (half_of b) }
{
    is_constant(g.first) && is_constant(b) && !g.tilde
}

// Its number was given out again since.
fn is_stale(t: &[WriterRecord], a: Half) -> bool
    ensures { result ≡ is_stale t.now (half_of a) }
{
    a.number != 0 && stamp_of(t, a.number) != a.stamp
}

// Rule 2: same number, no `~`, not given out again since either half got it.
fn alike_number(t: &[WriterRecord], g: Gap, b: Half) -> bool
    ensures { result ≡ alike_number t.now g.tilde (half_of g.first) (half_of b) }
{
    let a = g.first;
    a.number != 0 && a.number == b.number && !g.tilde && !is_stale(t, a) && !is_stale(t, b)
}

// Rule 3, of one half: temporary, or its number given out again since.
fn is_barred(t: &[WriterRecord], a: Half) -> bool
    ensures { result ≡ barred_half t.now (half_of a) }
{
    a.temporary || is_stale(t, a)
}

// A space stands between the halves.
fn is_spaced(g: Gap, b: Half) -> bool
    ensures { result ≡ spaced g.tilde (half_of g.first) (half_of b) }
{
    let a = g.first;
    !g.tilde && !a.temporary && a.skipped == 0 && !b.wrote && b.skipped == 0
}

// The two-child node of the halves goes out with its number k, 0 for none as `close_in` has it; `at` bytes are written. (Output and waiting bytes and no sink:
// it does not touch the table, and with the sink it would owe a clause that this stays; likewise `done`.)
fn send_node(g: Gap, b: Half, k: u32, out: &mut [u8], w: &mut [u8], at: usize) -> Sent
    ensures { record { written = result.written; full = result.full; output = out.new; waits = w.new }
        ≡ send_node g.waiting g.tilde (half_of g.first) (half_of b) k out.old w.old at }
{
    let x = close(
        w,
        g.waiting,
        is_spaced(g, b),
        b.wrote,
        b.skipped,
        b.number,
        k,
    );
    send(out, w, at, x)
}

fn sent_as(half: Half, given: u32, e: Ends, x: Sent) -> Walked
    ensures { result ≡ record {
      half = half;
      progress = record
          { written = x.written; given = given; first = e.first; last = e.last; full = x.full };
    } }
{
    Walked {
        half,
        progress: Progress {
            written: x.written,
            given,
            first: e.first,
            last: e.last,
            full: x.full,
        },
    }
}

// A node without a number
fn write_temporary(g: Gap, b: Half, to: &mut Sink<'_>, progress: Progress) -> Walked
    ensures same { same_sink to.new to.old }
    ensures walked { walked_of result to.new.table.now to.new.out.now to.new.waiting.now
        ≡ write_temporary g.waiting g.tilde (half_of g.first) (half_of b) to.old.table.now to.old.out.now to.old.waiting.now
        (progress_of progress) }
{
    let x = send_node(g, b, 0, to.out, to.waiting, progress.written);
    Walked {
        half: temporary(g.first.complement),
        progress: Progress {
            written: x.written,
            full: x.full,
            ..progress
        },
    }
}

// The node of two halves at level i
fn node(i: u32, g: Gap, b: Half) -> Node
    ensures { result ≡ record { level = i; first = g.first.number; second = b.number; complement = cond g.tilde 1 0 } }
{
    Node {
        level: i,
        first: g.first.number,
        second: b.number,
        complement: u32::from(g.tilde),
    }
}

// Rule 5: the node gets the number k.
fn give(k: u32, i: u32, g: Gap, b: Half, to: &mut Sink<'_>, progress: Progress) -> Walked
    requires { k ≢ 0 }
    ensures same { same_sink to.new to.old }
    ensures walked { walked_of result to.new.table.now to.new.out.now to.new.waiting.now
        ≡ give_in k i g.waiting g.tilde (half_of g.first) (half_of b) to.old.table.now to.old.out.now to.old.waiting.now
        (progress_of progress) }
{
    let Progress {
        given,
        first,
        last,
        ..
    } = progress;
    // Lent by itself: what a slice in a field holds is not known where it is passed as `&`.
    let t = &mut *to.table;
    let e = store(t, given, Ends { first, last }, k, node(i, g, b));
    let h = numbered(k, stamp_of(t, k), 0, g.first.complement, true);
    let x = send_node(g, b, k, to.out, to.waiting, progress.written);
    sent_as(h, given.max(k), e, x)
}

// Two halves meet at level i.
fn meet(size: u32, i: u32, g: Gap, b: Half, to: &mut Sink<'_>, progress: Progress) -> Walked
    ensures same { same_sink to.new to.old }
    ensures walked { walked_of result to.new.table.now to.new.out.now to.new.waiting.now
        ≡ meet_in size i g.waiting g.tilde (half_of g.first) (half_of b) to.old.table.now to.old.out.now to.old.waiting.now
        (progress_of progress) }
{
    let a = g.first;
    let t = &mut *to.table;
    if alike_constant(g, b) {
        return Walked {
            half: constant(a.complement),
            progress,
        };
    }
    if alike_number(t, g, b) {
        let half = Half {
            skipped: a.skipped.saturating_add(1),
            temporary: false,
            ..a
        };
        return Walked { half, progress };
    }
    if is_barred(t, a) || is_barred(t, b) {
        return write_temporary(g, b, to, progress);
    }
    // Rule 4: the number of such a node, in place of its text
    if let Some(k) = find(t, progress.given, node(i, g, b)) {
        let half = numbered(k, stamp_of(t, k), 0, a.complement, false);
        return Walked { half, progress };
    }
    match next_number(t, progress.given, progress.first, size, a.number, b.number) {
        Some(k) => give(k, i, g, b, to, progress),
        None => write_temporary(g, b, to, progress),
    }
}

// After the second half: the halves meet, unless more was sent than the output holds.
pub fn second(size: u32, i: u32, g: Gap, b: Walked, to: &mut Sink<'_>) -> Walked
    ensures same { same_sink to.new to.old }
    ensures walked { walked_of result to.new.table.now to.new.out.now to.new.waiting.now
        ≡ second_in size i g.waiting g.tilde (half_of g.first) (walked_of b to.old.table.now to.old.out.now to.old.waiting.now) }
{
    if b.progress.full {
        return b;
    }
    meet(size, i, g, b.half, to, b.progress)
}

// ---- Before and after the walk

pub fn progress_after(x: Sent) -> Progress
    ensures { result ≡ record { written = x.written; given = 0; first = 0; last = 0; full = x.full } }
{
    Progress {
        written: x.written,
        given: 0,
        first: 0,
        last: 0,
        full: x.full,
    }
}

// After the walk: what waits, and the point, unless more was sent than the output holds. m: how much waited before it
pub fn done(m: usize, r: Walked, out: &mut [u8], w: &mut [u8]) -> Sent
    ensures { record { written = result.written; full = result.full; output = out.new; waits = w.new }
        ≡ done_in m (walked_of r [] out.old w.old) }
{
    let Progress { written, full, .. } = r.progress;
    if full {
        return Sent { written, full };
    }
    let h = r.half;
    let q = wait(w, m, h.wrote, h.skipped, h.number);
    let e = push(w, q, b'.');
    send(out, w, written, e)
}

// ---- What a call answers

// How a run ends, in the order of the numbers that C has for it
#[derive(Clone, Copy)]
pub enum Ending {
    Whole,
    InputEnded,
    OutputFull,
}

// The answer: bytes written, covered count, ending
#[derive(Clone, Copy)]
pub struct Written {
    pub bytes: usize,
    pub covered: u64,
    pub ending: Ending,
}

// After a run that covers so many words; all: they are all there are
pub fn answer(x: Sent, covered: u64, all: bool) -> Written
    ensures { written_of result ≡ record {
      written = x.written;
      covered = covered;
      ending = cond x.full output_full (cond all whole input_ended);
    } }
{
    let ending = if x.full {
        Ending::OutputFull
    } else if all {
        Ending::Whole
    } else {
        Ending::InputEnded
    };
    Written {
        bytes: x.written,
        covered,
        ending,
    }
}
