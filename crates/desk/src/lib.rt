// Writing and combining for C, as `include/rule.h` declares it and `desk_c` exports it.
#![tactic(auto)]

ghost use Rattle.std.specs.Prelude.{◌≡◌};
ghost use Rattle.meeting.specs.Abstraction.{writing_of};
ghost use Rattle.desk.specs.Numbers.{written_numbers, write_given, combine_given};

use answers::Refusal;
use meeting::Written;
use node_records::{NodeRecord, WriterRecord};

// What does not apply is 0.
#[repr(C)]
#[derive(Clone, Copy, Default)]
pub struct RuleWritten {
    pub cause: u32,
    pub stream: u32,
    pub byte: u64,
    pub written: u64,
    pub covered: u64,
    pub ending: u32,
    pub spare: u32,
}

impl From<Result<Written, Refusal>> for RuleWritten {
    ghost from_gives = { λ a r. r ≡ written_numbers (writing_of a) };

    fn from(answer: Result<Written, Refusal>) -> RuleWritten {
        match answer {
            Err(f) => RuleWritten {
                cause: u32::from(f.cause),
                stream: f.stream,
                byte: f.byte as u64,
                ..RuleWritten::default()
            },
            Ok(x) => RuleWritten {
                written: x.bytes as u64,
                covered: x.covered,
                ending: x.ending as u32,
                ..RuleWritten::default()
            },
        }
    }
}

// WRITING the stream of a truth table
pub fn rule_write(
    n: u32,
    size: u32,
    truths: &[u8],
    output: &mut [u8],
    table: &mut [WriterRecord],
) -> RuleWritten
    ensures { record { answer = result; table = table.new; output = output.new }
        ≡ write_given n size truths.now output.old table.old }
{
    RuleWritten::from(writer::write(n, size, truths, output, table))
}

// COMBINING two streams by an operator (nine parameters: the call of include/rule.h)
pub fn rule_combine(
    n: u32,
    op: u32,
    size: u32,
    stream1: &[u8],
    stream2: &[u8],
    output: &mut [u8],
    table1: &mut [NodeRecord],
    table2: &mut [NodeRecord],
    table3: &mut [WriterRecord],
) -> RuleWritten
    ensures { record {
      answer = result;
      first = table1.new;
      second = table2.new;
      third = table3.new;
      output = output.new;
    } ≡ combine_given n op size stream1.now stream2.now output.old table1.old
        table2.old table3.old }
{
    RuleWritten::from(combiner::combine(
        n, op, size, stream1, stream2, output, table1, table2, table3,
    ))
}
