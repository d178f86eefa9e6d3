#![tactic(auto)]

ghost use Rattle.std.specs.Prelude.{◌≡◌};
ghost use Rattle.elements.specs.Abstraction.{begun_open, spots_of};

// At most so many nodes are open at one time.
pub const OPEN_LIMIT: usize = 32;

// The last place among them.
pub const LAST_OPEN: usize = OPEN_LIMIT - 1;

#[derive(Clone, Copy, PartialEq, Eq)]
pub enum Element {
    Opening,
    Number(u32),
    Constant,
    Turn,
    Closing,
    Storing(u32),
    End,
}

// What stands before a place.
#[derive(Clone, Copy, PartialEq, Eq)]
pub enum Context {
    Start,
    Lead,
    Begins,
    AfterDigit,
    AfterTwo,
    AfterOne,
    Over,
}

impl From<Context> for u32 {
    ghost use Rattle.theory_reading.specs.Reading.{context_number};
    ghost use Rattle.elements.specs.Abstraction.{context_of};

    ghost from_gives = { λ m k. k ≡ context_number (context_of m) };

    fn from(m: Context) -> u32 {
        m as u32
    }
}

// What a node refers to: a number with its stamp; with the number 0 the terminal, if the stamp is 0 too, else nothing that stays. It is two numbers, as C has it.
#[repr(C)]
#[derive(Clone, Copy, PartialEq, Eq)]
pub struct Ref {
    pub number: u32,
    pub stamp: u32,
}

impl Ref {
    pub const TERMINAL: Ref = Ref {
        number: 0,
        stamp: 0,
    };

    // Nothing that stays.
    pub const TEMPORARY: Ref = Ref {
        number: 0,
        stamp: 1,
    };
}

// The causes of document 01, with their numbers there.
#[derive(Clone, Copy, PartialEq, Eq)]
pub enum Cause {
    OptionCount = 1,
    OperatorCode = 2,
    SizeToWrite = 3,
    WorkTable = 4,
    WordRange = 5,
    TruthTable = 6,
    WrongByte = 7,
    DeclaredSize = 8,
    TooDeep = 9,
    NotInTable = 10,
    OtherLevel = 11,
    NotStorable = 12,
    BadNumber = 13,
}

impl From<Cause> for u32 {
    ghost use Rattle.theory_reading.specs.Causes.{cause_row};
    ghost use Rattle.elements.specs.Abstraction.{cause_of};

    ghost from_gives = { λ c k. k ≡ (cause_row (cause_of c)).number };

    fn from(c: Cause) -> u32 {
        c as u32
    }
}

// A fault in a stream: its cause, and the byte that it names.
#[derive(Clone, Copy, PartialEq, Eq)]
pub struct Fault {
    pub cause: Cause,
    pub byte: usize,
}

#[derive(Clone, Copy, PartialEq, Eq)]
pub enum Outcome {
    Got(Element),
    Fault(Fault),
    RanOut,
}

// An open node: whether its second child has begun; what its first child was, and whether a `~` stands after it.
#[repr(C)]
#[derive(Clone, Copy)]
pub struct Open {
    pub first: Ref,
    pub second: bool,
    pub complement: bool,
}

impl Open {
    // A node that opens: its first child is not done.
    pub const INSIDE: Open = Open {
        first: Ref::TERMINAL,
        second: false,
        complement: false,
    };

    // The second child begins; what the first was, and whether a `~` stands after it.
    pub fn begun(first: Ref, complement: bool) -> Open
        ensures { result ≡ begun_open first complement }
    {
        Open {
            first,
            second: true,
            complement,
        }
    }
}

// The open nodes, the outermost first, and how many there are, as C has them.
#[repr(C)]
#[derive(Clone, Copy)]
pub struct Opens {
    pub nodes: [Open; OPEN_LIMIT],
    pub depth: usize,
}

// Where the entry of the innermost of d open nodes stands, and the one after it.
#[derive(Clone, Copy)]
pub struct Spots {
    pub low: usize,
    pub high: usize,
}

pub fn spots_of(d: usize) -> Spots
    ensures { result ≡ spots_of d }
{
    Spots {
        // the last place for none: 0 - 1 wraps to the largest number
        low: d.wrapping_sub(1).min(LAST_OPEN),
        high: d.min(LAST_OPEN),
    }
}
