// A rule's bytes with how far they have been read: a struct that holds a reference. Its functions are thin: the work is done by `Place`.
#![tactic(auto)]

ghost use Rattle.std.specs.Prelude.{◌≡◌};
ghost use Rattle.held_reader.specs.Abstraction.{reader_of, read_of};
ghost use Rattle.held_reader.specs.Held.{first_in, read_next, left_of};

use elements::Outcome;
use places::Place;

// A rule's bytes, and the place up to which they have been read.
#[derive(Clone, Copy)]
pub struct Reader<'a> {
    pub bytes: &'a [u8],
    pub place: Place,
}

// What one element on comes to, and the reader after it: at the old place, unless an element was given.
#[derive(Clone, Copy)]
pub struct Read<'a> {
    pub outcome: Outcome,
    pub reader: Reader<'a>,
}

impl<'a> Reader<'a> {
    // Before the first byte.
    pub fn begin(bytes: &'a [u8]) -> Reader<'a>
        ensures { reader_of result ≡ first_in bytes.entry }
    {
        Reader {
            bytes,
            place: Place::begin(),
        }
    }

    // One element on. Faults are of cause 7, and of cause 9 at a 33rd open bracket.
    pub fn read(self) -> Read<'a>
        ensures { read_of result ≡ read_next (reader_of self.entry) }
    {
        let x = self.place.step(self.bytes);
        Read {
            outcome: x.outcome,
            reader: Reader {
                place: x.place,
                ..self
            },
        }
    }

    // What is left; past the end there is nothing.
    pub fn left(self) -> &'a [u8]
        ensures { result.now ≡ left_of (reader_of self.entry) }
    {
        &self.bytes[self.place.at.min(self.bytes.len())..]
    }
}
