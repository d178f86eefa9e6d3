// Finding the next admitted word, and searching a stream or its table for a word of either value.
#![tactic(auto)]

ghost use Rattle.std.specs.Prelude.{◌≡◌, [], ◌+◌, ◌-◌, ◌<◌, ◌≤◌, ◌^◌, length, replicate};
ghost use Rattle.theory_reading.specs.Limits.{option_limit, open_limit, table_limit, word_limit};
ghost use Rattle.theory_reading.specs.Calls.{FindsNext};
ghost use Rattle.node_records.specs.Records.{no_record};
ghost use Rattle.theory_lists.specs.Lists.{differ};
ghost use Rattle.elements.specs.Abstraction.{inside_open};
ghost use Rattle.reader.specs.OpenNodes.{reached_in};
ghost use Rattle.blocks.specs.Blocks.{edge_at};
ghost use Rattle.blocks.specs.Load.{load_in};
ghost use Rattle.answers.specs.Answers.{finding_of};
ghost use Rattle.finder.specs.Search.{InDepth, turned_edge, some_in, least_in, word_below, start_in, from_in};
ghost use Rattle.finder.specs.Seeking.{sought_at, Finds};
ghost use Rattle.finder.specs.FindCorrect.{ended_by, found_by};
ghost use Rattle.finder.specs.TextSearch.{search_text, search_nodes, word_of};
ghost use Rattle.finder.specs.LoadFrom.{load_from};

use answers::{NextWord, Refusal, early};
use blocks::{Loaded, below, edge_of, load, loaded_at};
use checker::late;
use cursors::{Cursor, first_cursor};
use elements::{Cause, OPEN_LIMIT, Open};
use node_records::{
    Edge, NodeRecord, OPTION_LIMIT, TABLE_LIMIT, WORD_LIMIT, first_edge, second_edge, some_yes,
};
use reader::{Reached, read_on, search_on};
use record_tables::clear_all;
use work_table::get;

// ---- A word that is yes below a stored node

// Some word below what e stands for is yes. z: how many numbers there are
// (kept: level, options below and edge stay apart in these walks, since the definitions that they equal, `least_in`, `start_in` and `from_in`, have them apart)
fn some_word(t: &[NodeRecord], z: u32, e: Edge) -> bool
    ensures { result ≡ some_in t.now z e }
{
    some_yes(get(t, z, e.number), e)
}

// The least word that is yes of the node of level i, m options below it, that e stands for, if some word is.
fn least_word(t: &[NodeRecord], z: u32, m: u32, i: u32, e: Edge) -> u64
    requires { InDepth m i }
    ensures { result ≡ least_in m t.now z i e }
{
    if m == 0 {
        return 0;
    }
    let x = get(t, z, e.number);
    let f = first_edge(x, i, e);
    if some_word(t, z, f) {
        return least_word(t, z, m - 1, i + 1, f);
    }
    let half = 1u64 << (m - 1);
    half + least_word(t, z, m - 1, i + 1, second_edge(x, i, e))
}

// Likewise, none if no word is.
fn start_word(t: &[NodeRecord], z: u32, m: u32, i: u32, e: Edge) -> Option<u64>
    requires { InDepth m i }
    ensures { result ≡ word_below (2 ^ m) (start_in m t.now z i e) }
{
    if some_word(t, z, e) {
        Some(least_word(t, z, m, i, e))
    } else {
        None
    }
}

// Likewise from the word w on.
fn word_from(t: &[NodeRecord], z: u32, m: u32, i: u32, e: Edge, w: u64) -> Option<u64>
    requires { InDepth m i × (w < 2 ^ m) }
    ensures { result ≡ word_below (2 ^ m) (from_in m t.now z i e w) }
{
    if !some_word(t, z, e) {
        return None;
    }
    if m == 0 {
        return Some(w);
    }
    let x = get(t, z, e.number);
    let half = 1u64 << (m - 1);
    let g = second_edge(x, i, e);
    if half <= w {
        return Some(half + word_from(t, z, m - 1, i + 1, g, w - half)?);
    }
    let r = word_from(t, z, m - 1, i + 1, first_edge(x, i, e), w);
    if r.is_some() {
        return r;
    }
    Some(half + start_word(t, z, m - 1, i + 1, g)?)
}

// What e stands for, turned about if b: its words that are yes are those of e that are no.
fn turned_edge(e: Edge, b: bool) -> Edge
    ensures { result ≡ turned_edge b e }
{
    Edge {
        number: e.number,
        complement: b != e.complement,
    }
}

// ---- The search in a stream

// The least word from w on that is yes or, if `noes`, that is no, of those that the loop's last element passed, w among them.
fn word_at(
    t: &[NodeRecord],
    o: &[Open; OPEN_LIMIT],
    n: u32,
    r: Reached,
    w: u64,
    noes: bool,
) -> Option<u64>
    requires { (n ≤ option_limit) × ((r.deep ≤ open_limit) × ((r.from ≤ w) × ((w < r.from + 2 ^ (n - r.deep)) × (w ≤ word_limit)))) }
    ensures { result ≡ word_below (r.from + 2 ^ (n - r.deep)) (sought_at noes t.now n (reached_in r o.now) w) }
{
    let e = turned_edge(edge_of(r, o), noes);
    let i = r.deep as u32 + 1;
    let k = word_from(t, r.run.size, below(n, r.deep), i, e, w - r.from)?;
    Some(r.from + k)
}

// What the search reaches: where reading stands, and the word that it found there, unless reading halted.
#[derive(Clone, Copy)]
struct Sought {
    reached: Reached,
    word: Option<u64>,
}

fn cursor_of(r: Reached) -> Cursor
    ensures { result ≡ record { run = r.run; depth = r.depth } }
{
    Cursor {
        run: r.run,
        depth: r.depth,
    }
}

// Whether an odd number of open nodes turns about, where reading stands.
fn odd_of(r: Reached, o: &[Open; OPEN_LIMIT]) -> bool
    ensures { result ≡ differ (edge_at (reached_in r o.now)).complement r.run.complement }
{
    edge_of(r, o).complement != r.run.complement
}

// Reads on to a word from w on that is v, yes or no: to w, and past the words that are not. o: the open nodes, as reading leaves them. (v is a decision, here and
// below, and no switch.)
fn seek(
    n: u32,
    s: &[u8],
    t: &mut [NodeRecord],
    o: &mut [Open; OPEN_LIMIT],
    w: u64,
    v: bool,
) -> Sought
    requires { (n ≤ option_limit) × ((table_limit ≤ length t.old) × ((w < 2 ^ n) × (o.old ≡ replicate open_limit inside_open))) }
    ensures { Finds n s.now w v (reached_in result.reached o.new) result.word t.new t.old }
{
    let r = read_on(n, s, t, o, first_cursor(), w);
    if r.halted {
        return Sought {
            reached: r,
            word: None,
        };
    }
    let word = word_at(t, o, n, r, w, !v);
    if word.is_some() {
        return Sought { reached: r, word };
    }
    let x = search_on(n, s, t, o, cursor_of(r), odd_of(r, o), !v);
    if x.halted {
        return Sought {
            reached: x,
            word: None,
        };
    }
    Sought {
        reached: x,
        word: word_at(t, o, n, x, x.from, !v),
    }
}

// ---- The next admitted word

// Where no word is found.
fn ended_at(n: u32, r: Reached) -> Result<NextWord, Refusal>
    requires { n ≤ option_limit }
    ensures { finding_of result ≡ ended_by n (reached_in r []) }
{
    match r.fault {
        Some(f) => Err(late(f)),
        None if r.run.covered == 1u64 << n => Ok(NextWord::NoWord),
        None => Ok(NextWord::NotKnown),
    }
}

// Where v is found, and reading has come to its end.
fn found_at(r: Reached, v: u64) -> Result<NextWord, Refusal>
    ensures { finding_of result ≡ found_by (reached_in r []) v }
{
    match r.fault {
        Some(f) => Err(late(f)),
        None => Ok(NextWord::Word(v)),
    }
}

// FINDING THE NEXT ADMITTED WORD, from w on: causes 1, 4 and 5, then those of the stream, also behind the word.
pub fn find_next(n: u32, s: &[u8], w: u64, t: &mut [NodeRecord]) -> Result<NextWord, Refusal>
    ensures { FindsNext no_record n s.now w t.old (record { answer = finding_of result; table = t.new }) }
{
    if OPTION_LIMIT < n {
        return Err(early(Cause::OptionCount));
    }
    if t.len() < TABLE_LIMIT {
        return Err(early(Cause::WorkTable));
    }
    if 1u64 << n <= w {
        return Err(early(Cause::WordRange));
    }
    let mut o = [Open::INSIDE; OPEN_LIMIT];
    let x = seek(n, s, t, &mut o, w, true);
    let Some(k) = x.word else {
        clear_all(t);
        return ended_at(n, x.reached);
    };
    let e = read_on(n, s, t, &mut o, cursor_of(x.reached), WORD_LIMIT);
    clear_all(t);
    found_at(e, k)
}

// ---- A word of either value

// The word that the search comes to: where reading has halted the covered count, or w if that is more.
fn word_of(x: Sought, w: u64) -> u64
    ensures { result ≡ word_of x.reached.run.covered x.word w }
{
    x.word.unwrap_or(x.reached.run.covered.max(w))
}

// SEARCHING A STREAM: of the words that it covers the least one from w on that it decides as v, where they end if it decides none so, w if they end
// before w. It is read no further than that. The table is left clear. Past the limits the answer is w, and the table as it was.
pub fn search_text(n: u32, s: &[u8], w: u64, v: bool, t: &mut [NodeRecord]) -> u64
    ensures { record { word = result; table = t.new } ≡ search_text n s.now w v t.old }
{
    if OPTION_LIMIT < n || t.len() < TABLE_LIMIT || 1u64 << n <= w {
        return w;
    }
    let mut o = [Open::INSIDE; OPEN_LIMIT];
    let x = seek(n, s, t, &mut o, w, v);
    clear_all(t);
    word_of(x, w)
}

// A stream that was loaded, and the word that the search in it comes to.
#[derive(Clone, Copy)]
pub struct LoadedFrom {
    pub loaded: Loaded,
    pub word: u64,
}

// LOADING A STREAM AND SEARCHING IT at once: what `load` comes to, and of the words that it covers the least one from w on that it decides as v, as
// `search_text` has it. It is read once.
pub fn load_from(n: u32, s: &[u8], t: &mut [NodeRecord], w: u64, v: bool) -> LoadedFrom
    ensures { record { loaded = load_in result.loaded t.new; word = result.word } ≡ load_from n s.now w v t.old }
{
    if OPTION_LIMIT < n || t.len() < TABLE_LIMIT || 1u64 << n <= w {
        return LoadedFrom {
            loaded: load(n, s, t),
            word: w,
        };
    }
    let mut o = [Open::INSIDE; OPEN_LIMIT];
    let x = seek(n, s, t, &mut o, w, v);
    let r = match x.word {
        Some(_) => read_on(n, s, t, &mut o, cursor_of(x.reached), WORD_LIMIT),
        None => x.reached,
    };
    LoadedFrom {
        loaded: loaded_at(t, &o, r),
        word: word_of(x, w),
    }
}

// SEARCHING A TABLE of z numbers that has the outermost node, without reading: of its words, e being its edge, the least one from w on that is v, 2^n if
// none is. Past the limits the answer is w.
// (kept: 2^n for none, as the promise, `search_nodes`, has it, so that the caller takes the lesser of it and a covered count)
pub fn search_nodes(n: u32, t: &[NodeRecord], z: u32, e: Edge, w: u64, v: bool) -> u64
    ensures { result ≡ search_nodes n t.now z e w v }
{
    if OPTION_LIMIT < n || 1u64 << n <= w {
        return w;
    }
    word_from(t, z, n, 1, turned_edge(e, !v), w).unwrap_or(1u64 << n)
}
