// What the calls of the reader answer, as C has it: numbers, as `include/rule.h` declares them. What does not apply is 0.
#![tactic(auto)]

ghost use Rattle.std.specs.Prelude.{◌≡◌};
ghost use Rattle.answers.specs.Answers.{checking_of, deciding_of, finding_of, filling_of};
ghost use Rattle.c_answers.specs.Numbers.{checked_numbers, decided_numbers, found_numbers, filled_numbers};

use answers::{Checked, NextWord, Refusal, Verdict};

#[repr(C)]
#[derive(Clone, Copy, Default)]
pub struct RuleChecked {
    pub cause: u32,
    pub stream: u32,
    pub byte: u64,
    pub covered: u64,
    pub size: u32,
    pub extent: u32,
}

#[repr(C)]
#[derive(Clone, Copy, Default)]
pub struct RuleDecided {
    pub cause: u32,
    pub stream: u32,
    pub byte: u64,
    pub verdict: u32,
    pub spare: u32,
}

#[repr(C)]
#[derive(Clone, Copy, Default)]
pub struct RuleFound {
    pub cause: u32,
    pub stream: u32,
    pub byte: u64,
    pub word: u64,
    pub answer: u32,
    pub spare: u32,
}

#[repr(C)]
#[derive(Clone, Copy, Default)]
pub struct RuleFilled {
    pub cause: u32,
    pub stream: u32,
    pub byte: u64,
    pub covered: u64,
}

impl From<Result<Checked, Refusal>> for RuleChecked {
    ghost from_gives = { λ a r. r ≡ checked_numbers (checking_of a) };

    fn from(answer: Result<Checked, Refusal>) -> RuleChecked {
        match answer {
            Err(f) => RuleChecked {
                cause: u32::from(f.cause),
                stream: f.stream,
                byte: f.byte as u64,
                ..RuleChecked::default()
            },
            Ok(x) => RuleChecked {
                covered: x.covered,
                size: x.size,
                extent: u32::from(x.complete),
                ..RuleChecked::default()
            },
        }
    }
}

impl From<Result<Verdict, Refusal>> for RuleDecided {
    ghost from_gives = { λ a r. r ≡ decided_numbers (deciding_of a) };

    fn from(answer: Result<Verdict, Refusal>) -> RuleDecided {
        match answer {
            Err(f) => RuleDecided {
                cause: u32::from(f.cause),
                stream: f.stream,
                byte: f.byte as u64,
                ..RuleDecided::default()
            },
            Ok(v) => RuleDecided {
                verdict: v as u32,
                ..RuleDecided::default()
            },
        }
    }
}

impl From<Result<NextWord, Refusal>> for RuleFound {
    ghost from_gives = { λ a r. r ≡ found_numbers (finding_of a) };

    fn from(answer: Result<NextWord, Refusal>) -> RuleFound {
        match answer {
            Err(f) => RuleFound {
                cause: u32::from(f.cause),
                stream: f.stream,
                byte: f.byte as u64,
                ..RuleFound::default()
            },
            Ok(NextWord::NoWord) => RuleFound::default(),
            Ok(NextWord::Word(word)) => RuleFound {
                word,
                answer: 1,
                ..RuleFound::default()
            },
            Ok(NextWord::NotKnown) => RuleFound {
                answer: 2,
                ..RuleFound::default()
            },
        }
    }
}

impl From<Result<u64, Refusal>> for RuleFilled {
    ghost from_gives = { λ a r. r ≡ filled_numbers (filling_of a) };

    fn from(answer: Result<u64, Refusal>) -> RuleFilled {
        match answer {
            Err(f) => RuleFilled {
                cause: u32::from(f.cause),
                stream: f.stream,
                byte: f.byte as u64,
                ..RuleFilled::default()
            },
            Ok(covered) => RuleFilled {
                covered,
                ..RuleFilled::default()
            },
        }
    }
}
