// The operation cache: what parts of the walk over stored nodes came to.
#![tactic(auto)]

ghost use Rattle.std.specs.Prelude.{◌≡◌, ◌||◌, [], ◌∷◌, get_or};
ghost use Rattle.theory_lists.specs.Lists.{bit};
ghost use Rattle.theory_applying.specs.Memo.{slot_of};
ghost use Rattle.meeting.specs.Abstraction.{half_of};
ghost use Rattle.operation_cache.specs.Abstraction.{key_cells, rows_of, tells_by, noted_by};
ghost use Rattle.operation_cache.specs.KeyCorrect.{mixed_by};

use meeting::{Half, Walked, constant, numbered};
use node_records::{Edge, WriterRecord};
use unique_table::{level_of, stamp_of};
use writer_numbers::{NUMBER_SPAN, stir};

// How many rows there are.
pub const CACHE_ENTRIES: usize = 2048;

const ROWS: u64 = CACHE_ENTRIES as u64;

// An edge beside another cell: its number, turned about or not
const EDGE_SPAN: u64 = 2 * NUMBER_SPAN;

// What a part is remembered by: the number of each input's edge, the stamp of that, turned about or not
#[derive(Clone, Copy, PartialEq, Eq)]
pub struct Key {
    pub number1: u32,
    pub stamp1: u32,
    pub number2: u32,
    pub stamp2: u32,
    pub complement1: bool,
    pub complement2: bool,
}

// A row, if it is not empty: the number that the part came to, its stamp, turned about or not
#[derive(Clone, Copy)]
pub struct Entry {
    pub key: Key,
    pub number: u32,
    pub stamp: u32,
    pub complement: bool,
}

// g and h: the stamps of the edges' numbers
pub fn key_of(x: Edge, g: u32, y: Edge, h: u32) -> Key
    ensures { key_cells result ≡ x.number ∷ g ∷ bit x.complement ∷ y.number ∷ h ∷ bit y.complement ∷ [] }
{
    Key {
        number1: x.number,
        stamp1: g,
        number2: y.number,
        stamp2: h,
        complement1: x.complement,
        complement2: y.complement,
    }
}

// The number k with its stamp g, turned about or not, mixed with v
fn mixed(v: u64, k: u32, g: u32, c: bool) -> u64
    ensures { result ≡ mixed_by v k g c }
{
    let a = u64::from(g) * EDGE_SPAN + u64::from(k) * 2 + u64::from(c);
    stir(2654435769, v % 4294967296 + a)
}

// The row where it is remembered
pub fn slot(k: Key) -> usize
    ensures { result ≡ slot_of (key_cells k) }
{
    let v = mixed(0, k.number1, k.stamp1, k.complement1);
    (mixed(v, k.number2, k.stamp2, k.complement2) % ROWS) as usize
}

// What the row p tells of the part of level i that has the key k: a number while it has not been given out again, a constant always
pub fn recall(c: &[Option<Entry>], t: &[WriterRecord], p: usize, i: u32, k: Key) -> Option<Half>
    ensures { tells_by result (get_or (rows_of c.now) p []) k i t.now }
{
    let e = (*c.get(p)?)?;
    if e.key != k {
        return None;
    }
    if e.number == 0 {
        return Some(constant(e.complement));
    }
    if stamp_of(t, e.number) != e.stamp {
        return None;
    }
    let skipped = level_of(t, e.number).saturating_sub(i);
    Some(numbered(e.number, e.stamp, skipped, e.complement, false))
}

// It is remembered unless it is a temporary node, more was sent than the output holds, or both inputs pass over its level: it is remembered
// then from a deeper one.
pub fn note(c: &mut [Option<Entry>], p: usize, key: Key, pass: bool, r: Walked)
    ensures { rows_of c.new ≡ noted_by (rows_of c.old) p key (r.progress.full || pass) (half_of r.half) }
{
    let h = r.half;
    if r.progress.full || pass || h.temporary {
        return;
    }
    if p < c.len() {
        c[p] = Some(Entry {
            key,
            number: h.number,
            stamp: h.stamp,
            complement: h.complement,
        });
    }
}
