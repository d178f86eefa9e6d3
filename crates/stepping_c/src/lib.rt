// The reader that steps, exported for C as `include/rule.h` declares it: each export is the function of `stepping` of its name.
#![tactic(auto)]

ghost use Rattle.std.specs.Prelude.{◌≡◌};
ghost use Rattle.theory_reading.specs.Element.{begin, step};
ghost use Rattle.scanner.specs.Capped.{cap_step};
ghost use Rattle.stepping.specs.Steps.{place_from, step_numbers, step_given};

use stepping::{RulePlace, RuleStepped};

// Before the first byte of a stream.
#[unsafe(no_mangle)]
pub extern "C" fn rule_begin() -> RulePlace
    ensures { place_from result ≡ begin }
{
    stepping::rule_begin()
}

// One element on.
#[unsafe(no_mangle)]
pub extern "C" fn rule_step(place: RulePlace, stream: &[u8]) -> RuleStepped
    ensures { step_given result ≡ step_numbers (cap_step (step (place_from place) stream.now)) }
{
    stepping::rule_step(place, stream)
}
