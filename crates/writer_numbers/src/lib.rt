// Numbers of the unique table: whether one is free; and how a node's bucket is mixed.
#![tactic(auto)]

ghost use Rattle.std.specs.Prelude.{◌≡◌, not, ◌||◌, eqb};
ghost use Rattle.writer_numbers.specs.Hashing.{stir, bucket_of};
ghost use Rattle.writer_numbers.specs.Numbers.{number_of};

use node_records::{Node, TABLE_LIMIT};

// ---- Numbers

// A number of the table; 0 is none.
pub fn number(k: u32) -> Option<u32>
    ensures { result ≡ number_of k }
{
    if k == 0 { None } else { Some(k) }
}

// The search for a number to reuse ends at x: x is 0, or neither a nor b.
pub fn is_free(a: u32, b: u32, x: u32) -> bool
    ensures { result ≡ (eqb x 0 || not (eqb a x || eqb b x)) }
{
    x == 0 || a != x && b != x
}

// ---- Places

// As many buckets as a table may have records
const BUCKETS: u64 = TABLE_LIMIT as u64;

// Numbers side by side: so many values for a number, and for a level
pub const NUMBER_SPAN: u64 = 2048;

const LEVEL_SPAN: u64 = 64;

// One round of mixing, of the lower 32 bits of v
pub fn stir(k: u32, v: u64) -> u64
    ensures { result ≡ stir k v }
{
    let x = v % 4294967296;
    let p = x * ((x + u64::from(k)) % 4294967296);
    p / 4294967296 + p % 4294967296
}

// The bucket of a node
pub fn bucket(n: Node) -> u32
    ensures { result ≡ bucket_of n.level n.first n.second n.complement }
{
    let children = u64::from(n.first) * NUMBER_SPAN + u64::from(n.second);
    let x = (children * LEVEL_SPAN + u64::from(n.level)) * 2 + u64::from(n.complement);
    let y = stir(2246822519, stir(2654435769, x)) % 4294967296;
    (y * BUCKETS / 4294967296 + 1) as u32
}
