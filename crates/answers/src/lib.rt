// What the calls that read answer: `Result<Checked, Refusal>`, `Result<Verdict, Refusal>`, `Result<NextWord, Refusal>`, and filling the covered count.
#![tactic(auto)]

ghost use Rattle.std.specs.Prelude.{◌≡◌};
ghost use Rattle.theory_reading.specs.Causes.{refusal};
ghost use Rattle.elements.specs.Abstraction.{cause_of};
ghost use Rattle.answers.specs.Answers.{refusal_of};

use elements::Cause;

// Why a call is turned down: the cause, the stream (0: none) and the byte.
#[derive(Clone, Copy)]
pub struct Refusal {
    pub cause: Cause,
    pub stream: u32,
    pub byte: usize,
}

// What checking answers: the declared size (0 while unfinished), the covered count, and whether the stream has its point.
#[derive(Clone, Copy)]
pub struct Checked {
    pub size: u32,
    pub covered: u64,
    pub complete: bool,
}

// Tested before any stream is read.
pub fn early(cause: Cause) -> Refusal
    ensures { refusal_of result ≡ refusal (cause_of cause) 0 0 }
{
    Refusal {
        cause,
        stream: 0,
        byte: 0,
    }
}

#[derive(Clone, Copy)]
pub enum Verdict {
    No,
    Yes,
    NotYet,
}

// A word; none, as all words are covered; or not known.
#[derive(Clone, Copy)]
pub enum NextWord {
    Word(u64),
    NoWord,
    NotKnown,
}
