// Checking, deciding, finding the next admitted word and filling, exported for C as `include/rule.h` declares them: each export is the function of
// `firmware` of its name.
#![tactic(auto)]

ghost use Rattle.std.specs.Prelude.{◌≡◌};
ghost use Rattle.firmware.specs.Numbers.{check_given, decide_given, next_given, fill_given};

use c_answers::{RuleChecked, RuleDecided, RuleFilled, RuleFound};
use node_records::NodeRecord;

// (kept: four functions alike, one for each call of include/rule.h)

// CHECKING a stream
#[unsafe(no_mangle)]
pub extern "C" fn rule_check(n: u32, stream: &[u8], table: &mut [NodeRecord]) -> RuleChecked
    ensures { record { answer = result; table = table.new } ≡ check_given n stream.now table.old }
{
    firmware::rule_check(n, stream, table)
}

// DECIDING a word
#[unsafe(no_mangle)]
pub extern "C" fn rule_decide(
    n: u32,
    stream: &[u8],
    word: u64,
    table: &mut [NodeRecord],
) -> RuleDecided
    ensures { record { answer = result; table = table.new } ≡ decide_given n stream.now word table.old }
{
    firmware::rule_decide(n, stream, word, table)
}

// FINDING THE NEXT ADMITTED WORD
#[unsafe(no_mangle)]
pub extern "C" fn rule_next(n: u32, stream: &[u8], word: u64, table: &mut [NodeRecord]) -> RuleFound
    ensures { record { answer = result; table = table.new } ≡ next_given n stream.now word table.old }
{
    firmware::rule_next(n, stream, word, table)
}

// FILLING a truth table
#[unsafe(no_mangle)]
pub extern "C" fn rule_fill(
    n: u32,
    stream: &[u8],
    truths: &mut [u8],
    table: &mut [NodeRecord],
) -> RuleFilled
    ensures { record { answer = result; table = table.new; truths = truths.new }
        ≡ fill_given n stream.now truths.old table.old }
{
    firmware::rule_fill(n, stream, truths, table)
}
