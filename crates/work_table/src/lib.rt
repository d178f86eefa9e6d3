// The reader's work table: a lent row of records, one for each number.
#![tactic(auto)]

ghost use Rattle.std.specs.Prelude.{◌≡◌};
ghost use Rattle.work_table.specs.Table.{get_in, counted_to, counted_record, count_at, store_at};

use node_records::{NodeRecord, Record, with_words};
use record_tables::{get_record, put_record};

// THE RECORD of the number k in a table of z numbers. (t and z stay apart, here and in what reads a table: z is the size that a run or an edge holds, and a
// struct would hold it a second time.)
pub fn get(t: &[NodeRecord], z: u32, k: u32) -> NodeRecord
    ensures { result ≡ get_in t.now z k }
{
    if z < k {
        NodeRecord::empty()
    } else {
        get_record(t, k)
    }
}

fn count_of(p: u32, more: bool) -> u32
    ensures { result ≡ counted_to p more }
{
    if more {
        p.saturating_add(1)
    } else {
        p.saturating_sub(1)
    }
}

// A record with one parent more, or one less.
fn counted(x: NodeRecord, more: bool) -> NodeRecord
    ensures { result ≡ counted_record x more }
{
    NodeRecord {
        parents: count_of(x.parents, more),
        ..x
    }
}

// The number k, one of z, gets one parent more, or one less.
fn count(t: &mut [NodeRecord], z: u32, k: u32, more: bool)
    ensures { t.new ≡ count_at t.old z k more }
{
    if k <= z {
        put_record(t, k, counted(get_record(t, k), more));
    }
}

// The number k is given to the record x, which gets what its children say of the words below.
pub fn store(t: &mut [NodeRecord], z: u32, k: u32, x: NodeRecord)
    ensures { t.new ≡ store_at t.old z k x }
{
    let old = get(t, z, k);
    put_record(t, k, with_words(x, get(t, z, x.first), get(t, z, x.second)));
    count(t, z, old.first, false);
    count(t, z, old.second, false);
    count(t, z, x.first, true);
    count(t, z, x.second, true);
}
