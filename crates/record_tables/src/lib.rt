// Lent rows of the records of work tables: reading, writing and clearing them.
#![tactic(auto)]

ghost use Rattle.std.specs.Prelude.{◌≡◌, length};
ghost use Rattle.record_tables.specs.Entries.{entry_at, put_entry, clear_to};

use node_records::Record;

// The record of the number k stands at place k - 1; 0 and numbers past the end have none. The place before 0 is past the end of every row.

pub fn get_record<R: Record>(t: &[R], k: u32) -> R
    ensures { result ≡ entry_at R.empty t.now k }
{
    let i = (k as usize).wrapping_sub(1);
    if i < t.len() { t[i] } else { R::empty() }
}

pub fn put_record<R: Record>(t: &mut [R], k: u32, x: R)
    ensures { t.new ≡ put_entry t.old k x }
{
    let i = (k as usize).wrapping_sub(1);
    if i < t.len() {
        t[i] = x;
    }
}

// The first m records become zero.
pub fn clear_records<R: Record>(t: &mut [R], m: usize)
    ensures { t.new ≡ clear_to R.empty t.old m }
{
    let e = m.min(t.len());
    t[..e].fill(R::empty());
}

// All records become zero.
pub fn clear_all<R: Record>(t: &mut [R])
    ensures { t.new ≡ clear_to R.empty t.old (length t.old) }
{
    t.fill(R::empty());
}
