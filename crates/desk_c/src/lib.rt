// Writing and combining, exported for C as `include/rule.h` declares it: each export is the function of `desk` of its name.
#![tactic(auto)]

ghost use Rattle.std.specs.Prelude.{◌≡◌};
ghost use Rattle.desk.specs.Numbers.{write_given, combine_given};

use desk::RuleWritten;
use node_records::{NodeRecord, WriterRecord};

// WRITING the stream of a truth table
#[unsafe(no_mangle)]
pub extern "C" fn rule_write(
    n: u32,
    size: u32,
    truths: &[u8],
    output: &mut [u8],
    table: &mut [WriterRecord],
) -> RuleWritten
    ensures { record { answer = result; table = table.new; output = output.new }
        ≡ write_given n size truths.now output.old table.old }
{
    desk::rule_write(n, size, truths, output, table)
}

// COMBINING two streams by an operator (kept beside `desk`, with nine parameters: the call of include/rule.h)
#[unsafe(no_mangle)]
pub extern "C" fn rule_combine(
    n: u32,
    op: u32,
    size: u32,
    stream1: &[u8],
    stream2: &[u8],
    output: &mut [u8],
    table1: &mut [NodeRecord],
    table2: &mut [NodeRecord],
    table3: &mut [WriterRecord],
) -> RuleWritten
    ensures { record {
      answer = result;
      first = table1.new;
      second = table2.new;
      third = table3.new;
      output = output.new;
    } ≡ combine_given n op size stream1.now stream2.now output.old table1.old
        table2.old table3.old }
{
    desk::rule_combine(
        n, op, size, stream1, stream2, output, table1, table2, table3,
    )
}
