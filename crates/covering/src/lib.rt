// How many words a run covers: up to the least word that is not settled.
#![tactic(auto)]

ghost use Rattle.std.specs.Prelude.{◌≡◌, false, true};
ghost use Rattle.theory_combining.specs.Entering.{ignores_first, ignores_second};
ghost use Rattle.answers.specs.Answers.{checking_of};
ghost use Rattle.operators.specs.Operators.{opens_first, opens_second};
ghost use Rattle.blocks.specs.Load.{load_in};
ghost use Rattle.finder.specs.TextSearch.{searched};
ghost use Rattle.covering.specs.Covering.{has_point, goes_later, covered_of, beside_of, load_beside};
ghost use Rattle.covering.specs.Covering.{both_of, load_both, search_in, reach_in, covered_in};

use answers::{Checked, Refusal};
use blocks::{Loaded, load};
use finder::{load_from, search_nodes, search_text};
use node_records::{Edge, NodeRecord, OPTION_LIMIT};
use operators::{opens_first, opens_second};

// ---- What the operator asks

// The operator gives the same for both decisions of the first input, or of the second.
// (kept: a line for each input, as Entering of theory_combining has two definitions)
pub fn ignores_first(op: u32) -> bool
    ensures { result ≡ ignores_first op }
{
    !opens_first(op, false) && !opens_first(op, true)
}

pub fn ignores_second(op: u32) -> bool
    ensures { result ≡ ignores_second op }
{
    !opens_second(op, false) && !opens_second(op, true)
}

// Whether the result is open beside a no of an input, and beside a yes.
#[derive(Clone, Copy)]
struct OpenBeside {
    no: bool,
    yes: bool,
}

fn open_beside<F: Fn(bool) -> bool>(opens: F) -> OpenBeside
    requires { F.IsAlwaysCallable opens }
    ensures { F.post opens false result.no × F.post opens true result.yes }
{
    OpenBeside {
        no: opens(false),
        yes: opens(true),
    }
}

// ---- Loading both streams

// What loading a stream comes to; and the least word past the other's end that leaves the result open, if one was sought.
#[derive(Clone, Copy)]
pub struct LoadedBeside {
    pub loaded: Loaded,
    pub found: Option<u64>,
}

#[derive(Clone, Copy)]
pub struct LoadedBoth {
    pub first: LoadedBeside,
    pub second: LoadedBeside,
}

fn has_point(s: &[u8]) -> bool
    ensures { result ≡ has_point s.now }
{
    s.last() == Some(&b'.')
}

// x is likely to cover more words than y: it alone has its point, or it is the longer. Any guess will do.
fn goes_later(x: &[u8], y: &[u8]) -> bool
    ensures { result ≡ goes_later x.now y.now }
{
    let p = has_point(x);
    if p != has_point(y) {
        return p;
    }
    y.len() < x.len()
}

fn covered_in(c: Result<Checked, Refusal>) -> u64
    ensures { result ≡ covered_of (checking_of c) }
{
    match c {
        Ok(x) => x.covered,
        Err(_) => 0,
    }
}

// Loading a stream beside one that covers w words; q: beside which of its decisions the result is open. If that is one of them, the least such word is
// sought from w on.
fn load_beside(n: u32, s: &[u8], t: &mut [NodeRecord], w: u64, q: OpenBeside) -> LoadedBeside
    ensures { beside_of result t.new ≡ load_beside n s.now w q.no q.yes t.old }
{
    if q.no == q.yes {
        return LoadedBeside {
            loaded: load(n, s, t),
            found: None,
        };
    }
    let r = load_from(n, s, t, w, q.yes);
    LoadedBeside {
        loaded: r.loaded,
        found: Some(r.word),
    }
}

// LOADING BOTH STREAMS, the one that is likely to end first before the other, in which a word may be sought then.
pub fn load_both(
    n: u32,
    op: u32,
    x: &[u8],
    y: &[u8],
    t1: &mut [NodeRecord],
    t2: &mut [NodeRecord],
) -> LoadedBoth
    ensures { both_of result t1.new t2.new ≡ load_both n op x.now y.now t1.old t2.old }
{
    if goes_later(x, y) {
        let b = load(n, y, t2);
        let open = open_beside(|d| opens_second(op, d));
        let first = load_beside(n, x, t1, covered_in(b.checking), open);
        let second = LoadedBeside {
            loaded: b,
            found: None,
        };
        return LoadedBoth { first, second };
    }
    let a = load(n, x, t1);
    let open = open_beside(|d| opens_first(op, d));
    let second = load_beside(n, y, t2, covered_in(a.checking), open);
    let first = LoadedBeside {
        loaded: a,
        found: None,
    };
    LoadedBoth { first, second }
}

// ---- The search

// The least word from w on that the stream s, which covers `long` words, decides as v; where its words end if it decides none so. l: what loading it came
// to. Where its table has the outermost node, that is walked and the text is not read; it may have a value for a word past those that are covered, too.
fn first_word(
    n: u32,
    s: &[u8],
    t: &mut [NodeRecord],
    l: LoadedBeside,
    w: u64,
    long: u64,
    v: bool,
) -> u64
    ensures { searched result t.new ≡ search_in n s.now (load_in l.loaded t.old) l.found w long v }
{
    if let Some(k) = l.found {
        return k;
    }
    if !l.loaded.whole {
        return search_text(n, s, w, v, t);
    }
    let b = l.loaded.block;
    let e = Edge {
        number: b.number,
        complement: b.complement,
    };
    search_nodes(n, t, b.cursor.run.size, e, w, v).min(long)
}

// One input covers `short` words, s covers `long`: the least word from `short` on that s decides so that the result is open, `long` if there is none. q:
// beside which decisions of s it is open.
fn reach(
    n: u32,
    s: &[u8],
    t: &mut [NodeRecord],
    l: LoadedBeside,
    short: u64,
    long: u64,
    q: OpenBeside,
) -> u64
    ensures { searched result t.new ≡ reach_in n s.now (load_in l.loaded t.old) l.found short long q.no q.yes }
{
    if short == long {
        return long;
    }
    match (q.no, q.yes) {
        (true, true) => short,
        (true, false) => first_word(n, s, t, l, short, long, false),
        (false, true) => first_word(n, s, t, l, short, long, true),
        (false, false) => long,
    }
}

// THE COVERED COUNT OF A RUN over the streams x and y, which cover `first` and `second` words; l: what loading them came to. A table that has its
// stream's outermost node stays; the other may be left clear. Past the option limit nothing is covered.
// (kept: nine parameters, of one function that one call makes; a struct of what is lent, as in `operands` and `applier`, pays where functions pass it on)
#[tactic(auto, unfolding(crate::specs::Covering::covered_in))]
pub fn covered(
    n: u32,
    op: u32,
    x: &[u8],
    y: &[u8],
    t1: &mut [NodeRecord],
    t2: &mut [NodeRecord],
    l: LoadedBoth,
    first: u64,
    second: u64,
) -> u64
    ensures { record { count = result; first = t1.new; second = t2.new }
        ≡ covered_in n op x.now y.now (both_of l t1.old t2.old) first second }
{
    if OPTION_LIMIT < n {
        return 0;
    }
    if ignores_first(op) && ignores_second(op) {
        return 1u64 << n;
    }
    if first <= second {
        let open = open_beside(|d| opens_first(op, d));
        return reach(n, y, t2, l.second, first, second, open);
    }
    let open = open_beside(|d| opens_second(op, d));
    reach(n, x, t1, l.first, second, first, open)
}
