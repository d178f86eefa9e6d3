// Writing the stream of a truth table.
#![tactic(auto)]

ghost use Rattle.std.specs.Prelude.{◌≡◌, cond, eqb, get_or, replicate, ◌+◌, ◌≤◌, ◌^◌};
ghost use Rattle.theory_reading.specs.Limits.{truth_table_most, level_limit, truth_limit};
ghost use Rattle.theory_writing.specs.Calls.{truth_at, Writes};
ghost use Rattle.node_records.specs.Records.{no_writer_record};
ghost use Rattle.theory_engine.specs.Pending.{waiting_limit};
ghost use Rattle.theory_engine.specs.Engine.{same_bytes, all_bytes, alike_bytes, again_half, walk_in, body_in, stream_in};
ghost use Rattle.meeting.specs.Abstraction.{half_of, progress_of, same_sink, sent_of, walked_of, writing_of};

use answers::{Refusal, early};
use elements::Cause;
use meeting::{
    Gap, Half, Progress, Sink, Walked, Written, answer, constant, done, progress_after, second,
};
use node_records::{TABLE_LIMIT, TRUTH_TABLE_LEAST, TRUTH_TABLE_MOST, WriterRecord};
use pending_text::{Sent, WAITING_LIMIT, push, push_number, push_tilde, send, wait};
use record_tables::clear_all;

// ---- The walk over a truth table

// A part of the table: the words from `at` on of so many options, at this level
#[derive(Clone, Copy)]
struct Part {
    options: u32,
    level: u32,
    at: usize,
}

// The byte at p, 0 past the end
fn byte_at(v: &[u8], p: usize) -> u8
    ensures { result ≡ get_or v.now p 0 }
{
    if p < v.len() { v[p] } else { 0 }
}

fn truth(v: &[u8], at: usize) -> bool
    ensures { result ≡ truth_at v.now at }
{
    (byte_at(v, at / 8) >> (at % 8)) % 2 == 1
}

// All of the c bytes from p on are b.
fn same_bytes(v: &[u8], b: u8, p: usize, c: usize) -> bool
    requires { (p ≤ truth_limit) × (c ≤ truth_limit) }
    ensures { result ≡ same_bytes v.now b p c }
{
    for j in 0..c {
        if byte_at(v, p + j) != b {
            return false;
        }
    }
    true
}

// The words of the part are those of bytes b alone.
fn all_bytes(v: &[u8], b: u8, part: Part) -> bool
    requires { (part.options ≤ truth_table_most) × (part.at ≤ truth_limit) }
    ensures { result ≡ all_bytes v.now b part.options part.at }
{
    part.options >= 3 && same_bytes(v, b, part.at / 8, (1usize << part.options) / 8)
}

// The byte y is x, or x turned about if u.
fn alike(u: bool, x: u8, y: u8) -> bool
    ensures { result ≡ cond u (eqb (y + x) 255) (eqb y x) }
{
    y == if u { 255 - x } else { x }
}

// The c bytes from q on are those from p on, or those turned about if u.
// (It and same_bytes are two loops, as Engine has two definitions, each with its law.)
fn alike_bytes(v: &[u8], u: bool, p: usize, q: usize, c: usize) -> bool
    requires { (p ≤ truth_limit) × ((q ≤ truth_limit) × (c ≤ truth_limit)) }
    ensures { result ≡ alike_bytes v.now u p q c }
{
    for j in 0..c {
        if !alike(u, byte_at(v, p + j), byte_at(v, q + j)) {
            return false;
        }
    }
    true
}

// The first half came to a number (h), and the words of the second repeat those of the first, or all turned about if u.
fn is_again(v: &[u8], u: bool, first: Part, second: Part, h: Half) -> bool
    requires { (first.options ≤ truth_table_most) × ((first.at ≤ truth_limit) × (second.at ≤ truth_limit)) }
    ensures { result ≡ again_half v.now u first.options first.at second.at (half_of h) }
{
    let c = (1usize << first.options) / 8;
    h.number != 0 && first.options >= 3 && alike_bytes(v, u, first.at / 8, second.at / 8, c)
}

// The part, m bytes waiting before it
fn walk(v: &[u8], size: u32, part: Part, m: usize, to: &mut Sink<'_>, progress: Progress) -> Walked
    requires { (part.options ≤ truth_table_most) × ((part.level + part.options ≤ level_limit) × (part.at + 2 ^ part.options ≤ truth_limit)) }
    ensures same { same_sink to.new to.old }
    ensures walked { walked_of result to.new.table.now to.new.out.now to.new.waiting.now
        ≡ walk_in v.now size part.options part.level part.at m to.old.table.now to.old.out.now to.old.waiting.now
        (progress_of progress) }
{
    if part.options == 0 {
        let half = constant(truth(v, part.at));
        return Walked { half, progress };
    }
    if all_bytes(v, 0, part) {
        let half = constant(false);
        return Walked { half, progress };
    }
    if all_bytes(v, 255, part) {
        let half = constant(true);
        return Walked { half, progress };
    }
    let first = Part {
        options: part.options - 1,
        level: part.level + 1,
        ..part
    };
    let other = Part {
        at: part.at + (1usize << first.options),
        ..first
    };
    let p = push(to.waiting, m, b'(');
    let a = walk(v, size, first, p, to, progress);
    if a.progress.full {
        return a;
    }
    let h = a.half;
    let s = truth(v, other.at);
    let tilde = h.complement != s;
    let q = wait(to.waiting, p, h.wrote, h.skipped, h.number);
    let waiting = push_tilde(to.waiting, q, tilde);
    let g = Gap {
        first: h,
        tilde,
        waiting,
    };
    if is_again(v, tilde, first, other, h) {
        let half = Half {
            temporary: false,
            complement: s,
            wrote: false,
            ..h
        };
        return second(size, part.level, g, Walked { half, ..a }, to);
    }
    let b = walk(v, size, other, waiting, to, a.progress);
    second(size, part.level, g, b, to)
}

// ---- The whole stream

// After the size and its LF: the leading `~` and the outermost node, unless more was sent than the output holds.
fn body(n: u32, size: u32, v: &[u8], to: &mut Sink<'_>, x: Sent) -> Sent
    requires { n ≤ truth_table_most }
    ensures same { same_sink to.new to.old }
    ensures sent { sent_of result to.new ≡ body_in n size v.now to.old.table.now (sent_of x to.old) }
{
    if x.full {
        return x;
    }
    let m = push_tilde(to.waiting, 0, truth(v, 0));
    let whole = Part {
        options: n,
        level: 1,
        at: 0,
    };
    let r = walk(v, size, whole, m, to, progress_after(x));
    done(m, r, to.out, to.waiting)
}

// What waits is written to cells of its own.
fn stream(n: u32, size: u32, v: &[u8], out: &mut [u8], t: &mut [WriterRecord]) -> Sent
    requires { n ≤ truth_table_most }
    ensures sent { let s = stream_in n size v.now t.old out.old (replicate waiting_limit 0) in result ≡ record { written = s.written; full = s.full } }
    ensures output { out.new ≡ (stream_in n size v.now t.old out.old (replicate waiting_limit 0)).output }
{
    let mut w = [0u8; WAITING_LIMIT];
    let a = push_number(&mut w, 0, size);
    let b = push(&mut w, a, b'\n');
    let x = send(out, &mut w, 0, b);
    let mut to = Sink {
        table: t,
        out,
        waiting: &mut w,
    };
    body(n, size, v, &mut to, x)
}

// ---- The call

// WRITING the stream of a truth table: causes 1, 3, 4 and 6.
pub fn write(
    n: u32,
    size: u32,
    v: &[u8],
    out: &mut [u8],
    t: &mut [WriterRecord],
) -> Result<Written, Refusal>
    ensures { Writes no_writer_record n size v.now out.old t.old
        (record { answer = writing_of result; table = t.new; output = out.new }) }
{
    if n < TRUTH_TABLE_LEAST || TRUTH_TABLE_MOST < n {
        return Err(early(Cause::OptionCount));
    }
    if TABLE_LIMIT < size as usize {
        return Err(early(Cause::SizeToWrite));
    }
    if t.len() < TABLE_LIMIT {
        return Err(early(Cause::WorkTable));
    }
    if v.len() != (1usize << n) / 8 {
        return Err(early(Cause::TruthTable));
    }
    clear_all(t);
    let x = stream(n, size, v, out, t);
    clear_all(t);
    Ok(answer(x, 1u64 << n, true))
}
