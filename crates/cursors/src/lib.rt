// Where the reading of a stream stands: what it has come to, and how many nodes are open.
#![tactic(auto)]

ghost use Rattle.std.specs.Prelude.{◌≡◌};
ghost use Rattle.cursors.specs.Cursors.{is_kept_of, start_cursor};

use elements::{Context, Ref};

// The children of the two-child node that ended last, and whether a `~` stands between them. The order is by measurement: with the `bool` first no word
// holds a whole `Ref`, and the reader's loop takes 1.3 times as long.
#[derive(Clone, Copy)]
pub struct Pair {
    pub first: Ref,
    pub second: Ref,
    pub complement: bool,
}

// What reading has come to, but for the open nodes and the table: the place, the declared size, the covered count, a leading `~`,
// and the children of the two-child node that ended last.
#[derive(Clone, Copy)]
pub struct Run {
    pub last: Ref,
    pub pair: Pair,
    pub at: usize,
    pub covered: u64,
    pub size: u32,
    pub context: Context,
    pub complement: bool,
}

// A node that stays: the terminal, or one with a number.
pub fn is_kept(r: Ref) -> bool
    ensures { result ≡ is_kept_of r }
{
    r.number != 0 || r.stamp == 0
}

// Where the reading of a stream stands: what it has come to, and how many nodes are open, which are lent beside it.
#[derive(Clone, Copy)]
pub struct Cursor {
    pub run: Run,
    pub depth: usize,
}

// Where reading begins, whatever the open nodes are.
pub fn first_cursor() -> Cursor
    ensures { result ≡ start_cursor }
{
    let run = Run {
        at: 0,
        context: Context::Start,
        last: Ref::TEMPORARY,
        size: 0,
        covered: 0,
        complement: false,
        pair: Pair {
            first: Ref::TERMINAL,
            complement: false,
            second: Ref::TERMINAL,
        },
    };
    Cursor { run, depth: 0 }
}
