#![tactic(auto)]

ghost use Rattle.std.specs.Prelude.{◌≡◌};
ghost use Rattle.theory_reading.specs.Element.{begin, step};
ghost use Rattle.scanner.specs.Capped.{cap_step};
ghost use Rattle.places.specs.Abstraction.{place_of, stepped_of};

use elements::{Context, OPEN_LIMIT, Open, Opens, Outcome, Ref, spots_of};
use kinds::kinds;
use scanner::next_token;

// A place in a stream: the bytes before it, what stands there, the open nodes, what ended last.
#[derive(Clone, Copy)]
pub struct Place {
    pub at: usize,
    pub context: Context,
    pub opens: Opens,
    pub last: Ref,
}

// What a step comes to, and the place after it: the old one, unless an element was given.
#[derive(Clone, Copy)]
pub struct Stepped {
    pub outcome: Outcome,
    pub place: Place,
}

impl Place {
    // Before the first byte of a stream.
    pub fn begin() -> Place
        ensures { place_of result ≡ begin }
    {
        Place {
            at: 0,
            context: Context::Start,
            opens: Opens {
                nodes: [Open::INSIDE; OPEN_LIMIT],
                depth: 0,
            },
            last: Ref::TEMPORARY,
        }
    }

    // One element on. Faults are of cause 7, and of cause 9 at a 33rd open bracket.
    pub fn step(self, s: &[u8]) -> Stepped
        ensures { stepped_of result ≡ cap_step (step (place_of self) s.now) }
    {
        let mut opens = self.opens;
        let spots = spots_of(opens.depth);
        let low = opens.nodes[spots.low];
        let x = next_token(
            kinds(),
            s,
            self.at,
            self.context,
            self.last,
            opens.depth,
            low,
        );
        opens.nodes[spots.high] = Open::INSIDE;
        opens.nodes[spots.low] = x.low;
        opens.depth = x.depth;
        Stepped {
            outcome: Outcome::from(x),
            place: Place {
                at: x.at,
                context: x.context,
                opens,
                ..self
            },
        }
    }
}
