// The reader that steps, with its numbers as C has them: `stepping_c` exports it, as `include/rule.h` declares it.
#![tactic(auto)]

ghost use Rattle.std.specs.Prelude.{◌≡◌};
ghost use Rattle.theory_reading.specs.Element.{begin, step};
ghost use Rattle.scanner.specs.Capped.{cap_step};
ghost use Rattle.elements.specs.Abstraction.{context_of};
ghost use Rattle.places.specs.Abstraction.{place_of, stepped_of};
ghost use Rattle.stepping.specs.Steps.{context_from, place_from, step_numbers, step_given};

use elements::{Context, Element, Opens, Outcome, Ref};
use places::{Place, Stepped};

#[repr(C)]
#[derive(Clone, Copy)]
pub struct RulePlace {
    pub at: usize,
    pub context: u32,
    pub last: Ref,
    pub opens: Opens,
}

#[repr(C)]
#[derive(Clone, Copy)]
pub struct RuleStepped {
    pub outcome: u32,
    pub element: u32,
    pub number: u32,
    pub cause: u32,
    pub byte: usize,
    pub place: RulePlace,
}

// A number that is no context's stands for the end.
fn context_from(k: u32) -> Context
    ensures { context_of result ≡ context_from k }
{
    match k {
        0 => Context::Start,
        1 => Context::Lead,
        2 => Context::Begins,
        3 => Context::AfterDigit,
        4 => Context::AfterTwo,
        5 => Context::AfterOne,
        _ => Context::Over,
    }
}

impl From<RulePlace> for Place {
    ghost from_gives = { λ p q. place_of q ≡ place_from p };

    fn from(numbers: RulePlace) -> Place {
        Place {
            at: numbers.at,
            context: context_from(numbers.context),
            opens: numbers.opens,
            last: numbers.last,
        }
    }
}

impl From<Place> for RulePlace {
    ghost from_gives = { λ p q. place_from q ≡ place_of p };

    fn from(place: Place) -> RulePlace {
        RulePlace {
            at: place.at,
            context: u32::from(place.context),
            opens: place.opens,
            last: place.last,
        }
    }
}

impl From<Stepped> for RuleStepped {
    ghost from_gives = { λ x r. step_given r ≡ step_numbers (stepped_of x) };

    fn from(x: Stepped) -> RuleStepped {
        let opening = RuleStepped {
            outcome: 0,
            element: 0,
            number: 0,
            cause: 0,
            byte: 0,
            place: RulePlace::from(x.place),
        };
        match x.outcome {
            Outcome::Got(Element::Opening) => opening,
            Outcome::Got(Element::Number(number)) => RuleStepped {
                element: 1,
                number,
                ..opening
            },
            Outcome::Got(Element::Constant) => RuleStepped {
                element: 2,
                ..opening
            },
            Outcome::Got(Element::Turn) => RuleStepped {
                element: 3,
                ..opening
            },
            Outcome::Got(Element::Closing) => RuleStepped {
                element: 4,
                ..opening
            },
            Outcome::Got(Element::Storing(number)) => RuleStepped {
                element: 5,
                number,
                ..opening
            },
            Outcome::Got(Element::End) => RuleStepped {
                element: 6,
                ..opening
            },
            Outcome::Fault(f) => RuleStepped {
                outcome: 1,
                cause: u32::from(f.cause),
                byte: f.byte,
                ..opening
            },
            Outcome::RanOut => RuleStepped {
                outcome: 2,
                ..opening
            },
        }
    }
}

// Before the first byte of a stream.
pub fn rule_begin() -> RulePlace
    ensures { place_from result ≡ begin }
{
    RulePlace::from(Place::begin())
}

// One element on.
pub fn rule_step(place: RulePlace, stream: &[u8]) -> RuleStepped
    ensures { step_given result ≡ step_numbers (cap_step (step (place_from place) stream.now)) }
{
    RuleStepped::from(Place::from(place).step(stream))
}
