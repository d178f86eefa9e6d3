// The call that a job makes: combining with work tables of its own.
#![tactic(auto)]

ghost use Rattle.std.specs.Prelude.{◌≡◌};
ghost use Rattle.meeting.specs.Abstraction.{writing_of};
ghost use Rattle.job_call.specs.Called.{own_call};

use answers::Refusal;
use combiner::combine;
use meeting::Written;
use node_records::{NodeRecord, Record, TABLE_LIMIT, WriterRecord};

// The streams x and y, combined into out
pub fn call(
    n: u32,
    op: u32,
    size: u32,
    x: &[u8],
    y: &[u8],
    out: &mut [u8],
) -> Result<Written, Refusal>
    ensures { (writing_of result ≡ (own_call n op size x.now y.now out.old).answer)
        × (out.new ≡ (own_call n op size x.now y.now out.old).output) }
{
    let mut t = [NodeRecord::empty(); TABLE_LIMIT];
    let mut u = [NodeRecord::empty(); TABLE_LIMIT];
    let mut v = [WriterRecord::empty(); TABLE_LIMIT];
    combine(n, op, size, x, y, out, &mut t, &mut u, &mut v)
}
