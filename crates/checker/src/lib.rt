// Checking a stream, and how a call is turned down.
#![tactic(auto)]

ghost use Rattle.std.specs.Prelude.{◌≡◌, []};
ghost use Rattle.theory_reading.specs.Causes.{refusal};
ghost use Rattle.theory_reading.specs.Calls.{Checks};
ghost use Rattle.node_records.specs.Records.{no_record};
ghost use Rattle.elements.specs.Abstraction.{cause_of};
ghost use Rattle.reader.specs.OpenNodes.{reached_in};
ghost use Rattle.answers.specs.Answers.{refusal_of, checking_of};
ghost use Rattle.checker.specs.CheckCorrect.{checked_by};

use answers::{Checked, Refusal, early};
use cursors::first_cursor;
use elements::{Cause, Context, Fault, OPEN_LIMIT, Open};
use node_records::{NodeRecord, OPTION_LIMIT, TABLE_LIMIT, WORD_LIMIT};
use reader::{Reached, read_on};
use record_tables::clear_all;

// The fault that a loop has met, in stream 1.
pub fn late(f: Fault) -> Refusal
    ensures { refusal_of result ≡ refusal (cause_of f.cause) 1 f.byte }
{
    Refusal {
        cause: f.cause,
        stream: 1,
        byte: f.byte,
    }
}

pub fn checked_at(r: Reached) -> Result<Checked, Refusal>
    ensures { checking_of result ≡ checked_by (reached_in r []) }
{
    if let Some(f) = r.fault {
        return Err(late(f));
    }
    Ok(Checked {
        size: r.run.size,
        covered: r.run.covered,
        complete: r.run.context == Context::Over,
    })
}

// CHECKING a stream: causes 1 and 4, then those of the stream.
pub fn check(n: u32, s: &[u8], t: &mut [NodeRecord]) -> Result<Checked, Refusal>
    ensures { Checks no_record n s.now t.old (record { answer = checking_of result; table = t.new }) }
{
    if OPTION_LIMIT < n {
        return Err(early(Cause::OptionCount));
    }
    if t.len() < TABLE_LIMIT {
        return Err(early(Cause::WorkTable));
    }
    let mut o = [Open::INSIDE; OPEN_LIMIT];
    let r = read_on(n, s, t, &mut o, first_cursor(), WORD_LIMIT);
    clear_all(t);
    checked_at(r)
}
