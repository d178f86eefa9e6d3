// The report of the program `join`: into a lent buffer, as far as it has room.
#![tactic(auto)]

ghost use Rattle.std.specs.Prelude.{◌≡◌, length, min, ◌+◌, ◌^◌, ◌≤◌};
ghost use Rattle.theory_reading.specs.Limits.{option_limit};
ghost use Rattle.theory_reading.specs.Bytes.{text};
ghost use Rattle.answers.specs.Answers.{refusal_of};
ghost use Rattle.theory_writing.specs.Join.{ending_name, bad_job};
ghost use Rattle.theory_engine.specs.Pending.{push_all};
ghost use Rattle.meeting.specs.Abstraction.{endings_of, written_of, writing_of};
ghost use Rattle.report.specs.Printing.{line_limit, refused_text, words_text, report_text, report_in};

use answers::Refusal;
use meeting::{Ending, Written};
use node_records::OPTION_LIMIT;
use pending_text::{push, push_digits};

// The last line has room.
pub const LINE_LIMIT: usize = 80;

// ---- Texts, after m bytes of w

fn put(w: &mut [u8], m: usize, s: &[u8]) -> usize
    ensures { record { bytes = w.new; count = result } ≡ push_all w.old m s.now }
{
    let mut x = m;
    for b in s {
        x = push(w, x, *b);
    }
    x
}

fn ending_name(e: Ending) -> &'static [u8]
    ensures { result.now ≡ text (ending_name (endings_of e)) }
{
    match e {
        Ending::Whole => b"whole",
        Ending::InputEnded => b"input ended",
        Ending::OutputFull => b"output full",
    }
}

fn put_refused(w: &mut [u8], m: usize, f: Refusal) -> usize
    ensures put { record { bytes = w.new; count = result } ≡ push_all w.old m (refused_text (refusal_of f)) }
    ensures room { length (refused_text (refusal_of f)) ≤ line_limit }
{
    let a = put(w, m, b"refused ");
    let b = push_digits(w, a, u64::from(u32::from(f.cause)));
    let c = push(w, b, b' ');
    let d = push_digits(w, c, u64::from(f.stream));
    let e = push(w, d, b' ');
    let g = push_digits(w, e, f.byte as u64);
    push(w, g, b'\n')
}

// All words, of no more options than the limit
fn all_words(n: u32) -> u64
    ensures { result ≡ 2 ^ min n option_limit }
{
    1u64 << n.min(OPTION_LIMIT)
}

// LF after the output; covered words, all words, the ending
fn put_words(w: &mut [u8], m: usize, n: u32, x: Written) -> usize
    ensures put { record { bytes = w.new; count = result } ≡ push_all w.old m (words_text (min n option_limit) (written_of x)) }
    ensures room { length (words_text (min n option_limit) (written_of x)) ≤ line_limit }
{
    let a = put(w, m, b"\nwords ");
    let b = push_digits(w, a, x.covered);
    let c = put(w, b, b" of ");
    let d = push_digits(w, c, all_words(n));
    let e = push(w, d, b' ');
    let f = put(w, e, ending_name(x.ending));
    push(w, f, b'\n')
}

// ---- The whole

// THE REPORT on an answer and its output. Options past the limit count as the limit: no output comes with them.
pub fn print(n: u32, a: Result<Written, Refusal>, out: &[u8], w: &mut [u8]) -> usize
    ensures result_after { record { bytes = w.new; count = result } ≡ report_in n (writing_of a) out.now w.old }
    ensures out_in_bounds { length (report_text n (writing_of a) out.now) ≤ length out.now + line_limit }
{
    match a {
        Ok(x) => {
            let m = put(w, 0, &out[..x.bytes.min(out.len())]);
            put_words(w, m, n, x)
        }
        Err(f) => put_refused(w, 0, f),
    }
}

// The report on what is no job
pub fn print_bad(w: &mut [u8]) -> usize
    ensures { record { bytes = w.new; count = result } ≡ push_all w.old 0 bad_job }
{
    put(w, 0, b"bad job\n")
}
