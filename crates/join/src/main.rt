// The program `join`: a job from standard input, its report to standard output. What fails is said on standard error.
#![tactic(auto)]

ghost use Rattle.std.specs.Prelude.{◌≡◌, length, take, ◌<◌, ◌≤◌, IfOk, IfSome, Some};
ghost use Rattle.std.specs.Io.{ReadsAtMost};
ghost use Rattle.std.specs.Io.KnownBytes.{Consumes, IsAtEnd};
ghost use Rattle.theory_writing.specs.Join.{answered, join};
ghost use Rattle.job.specs.Parsing.{parsed_as};
ghost use Rattle.join.specs.Joining.{report_limit};

use job::{JOB_LIMIT, Job};
use report::LINE_LIMIT;
use std::io;
use std::io::{Cursor, Read, Write};

// A job has at most JOB_LIMIT bytes; one more shows that the input has more.
const INPUT_LIMIT: usize = JOB_LIMIT + 1;

// An output of JOB_LIMIT bytes and a last line have room.
const REPORT_LIMIT: usize = JOB_LIMIT + LINE_LIMIT;

// The report on a job
fn run(j: Job, w: &mut [u8; REPORT_LIMIT]) -> usize
    requires { report_limit ≤ length w.old }
    ensures w_after { take result w.new ≡ answered (parsed_as (Some j.entry)) }
    ensures upper_bound { result ≤ length w.new }
{
    let mut out = [0u8; JOB_LIMIT];
    let a = job_call::call(j.n, j.op, j.size, j.first, j.second, &mut out);
    report::print(j.n, a, &out, w)
}

// THE REPORT on an input, in the first bytes of w. Its length is asked for, since no rule tells it of what is lent.
fn answer(input: &[u8], w: &mut [u8; REPORT_LIMIT]) -> usize
    requires { report_limit ≤ length w.old }
    ensures w_after { take result w.new ≡ join input.now }
    ensures upper_bound { result ≤ length w.new }
{
    match job::parse(input) {
        Some(j) => run(j, w),
        None => report::print_bad(w),
    }
}

// ---- The program

// Fills buf from its beginning, until the input ends or there is no more room: with what the input gives, in its order, and no byte is lost.
fn fill<R: Read>(from: &mut R, buf: &mut [u8]) -> io::Result<usize>
    ensures in_bounds { ReadsAtMost result buf.new }
    ensures bytes { IfOk result (λ n. Consumes (R.remaining from.old) (R.remaining from.new) (take n buf.new)) }
    ensures end { IfOk result (λ n. n < length buf.new → IsAtEnd (R.remaining from.new)) }
{
    let mut at = 0;
    // It counts no item: `at` grows by what a read gives.
    while at < buf.len() {
        let n = from.read(&mut buf[at..])?;
        if n == 0 {
            return Ok(at);
        }
        at += n;
    }
    Ok(at)
}

// A cause is said in no more bytes.
const CAUSE_LIMIT: usize = 256;

// A line to standard error: what failed, a colon and the system's name for the cause, without its number. Nobody is told that this fails.
fn fail(rt: &impl Eprint, what: &str, e: io::Error) {
    let mut said = Cursor::new([0u8; CAUSE_LIMIT]);
    let _ = write!(said, "{e}");
    let n = (said.position() as usize).min(CAUSE_LIMIT);
    let bytes = said.get_ref();
    let text = str::from_utf8(&bytes[..n]).unwrap_or("");
    let cause = match text.split_once(" (os error ") {
        Some((name, _)) => name,
        None => text,
    };
    let _ = eprintln!(rt; "{what}: {cause}");
}

// How many bytes came in, until the input ends or there is no more room. Says so if reading fails.
fn read_all(rt: &(impl Input + Eprint), buf: &mut [u8]) -> Option<usize>
    ensures { IfSome result (λ n. n ≤ length buf.new) }
{
    match fill(&mut rt.reader(), buf) {
        Ok(n) => Some(n),
        Err(e) => {
            fail(rt, "read", e);
            None
        }
    }
}

// Writes the report on an input. The input is there for the contract: no other text goes to standard output. Says so if that fails.
fn write_report(rt: &(impl Print + Eprint), input: &[u8], text: &[u8])
    requires { text.now ≡ join input.now }
{
    if let Err(e) = rt.write_all(text) {
        fail(rt, "write", e);
    }
}

fn main(rt: HostRuntime) {
    let mut input = [0u8; INPUT_LIMIT];
    let Some(n) = read_all(&rt, &mut input) else {
        return;
    };
    let mut report = [0u8; REPORT_LIMIT];
    let m = answer(&input[..n], &mut report);
    write_report(&rt, &input[..n], &report[..m]);
}
