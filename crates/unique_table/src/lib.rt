// The unique table and its recycling queue in lent records.
#![tactic(auto)]

ghost use Rattle.std.specs.Prelude.{◌≡◌};
ghost use Rattle.theory_engine.specs.Cells.{cell};
ghost use Rattle.writer_numbers.specs.Numbers.{number_of};
ghost use Rattle.writer_records.specs.Fields.{level_field, stamp_field, head_field, tail_field};
ghost use Rattle.theory_engine.specs.Recycling.{unlink_in, link_in, free_of, bucket_at, search_in, find_in, insert_in, remove_in};
ghost use Rattle.theory_engine.specs.Recycling.{fewer_in, orphan_in, orphans_in, release_in, adopt_in, note_in, place_in, store_in, next_in};
ghost use Rattle.writer_records.specs.Records.{lane_field};
ghost use Rattle.unique_table.specs.Linked.{lane_of};

use node_records::{Node, WriterRecord};
use record_tables::{get_record, put_record};
use writer_numbers::{bucket, is_free, number};
use writer_records::{
    after_of, before_of, is_node, node_of, with_after, with_before, with_ends, with_node,
    with_parent, without_parent,
};

// ---- Numbers linked both ways

// The first and the last of those that are linked; 0: none, as the fields of a record and Lane of Recycling have it
#[derive(Clone, Copy)]
pub struct Ends {
    pub first: u32,
    pub last: u32,
}

// k leaves the queue, or its bucket.
fn unlink<const QUEUE: bool>(t: &mut [WriterRecord], e: Ends, k: u32) -> Ends
    ensures { lane_of t.new result ≡ unlink_in t.old (lane_field QUEUE) e.first e.last k }
{
    let r = get_record(t, k);
    let p = before_of::<QUEUE>(r);
    let x = after_of::<QUEUE>(r);
    put_record(t, p, with_after::<QUEUE>(get_record(t, p), x));
    put_record(t, x, with_before::<QUEUE>(get_record(t, x), p));
    Ends {
        first: if p == 0 { x } else { e.first },
        last: if x == 0 { p } else { e.last },
    }
}

// k joins at the end.
fn link_last<const QUEUE: bool>(t: &mut [WriterRecord], e: Ends, k: u32) -> Ends
    ensures { lane_of t.new result ≡ link_in t.old (lane_field QUEUE) e.first e.last k }
{
    let l = e.last;
    let r = with_after::<QUEUE>(get_record(t, k), 0);
    put_record(t, k, with_before::<QUEUE>(r, l));
    put_record(t, l, with_after::<QUEUE>(get_record(t, l), k));
    Ends {
        first: if l == 0 { k } else { e.first },
        last: k,
    }
}

// The first of the queue, x, or the next, or the one after it, that is not a or b.
fn free(t: &[WriterRecord], x: u32, a: u32, b: u32) -> Option<u32>
    ensures { result ≡ number_of (free_of t.now x a b) }
{
    if is_free(a, b, x) {
        return number(x);
    }
    let y = after_of::<true>(get_record(t, x));
    if is_free(a, b, y) {
        return number(y);
    }
    number(after_of::<true>(get_record(t, y)))
}

// ---- Looking up

// The bucket of the node that has number k
fn bucket_at(t: &[WriterRecord], k: u32) -> u32
    ensures { result ≡ bucket_at t.now k }
{
    bucket(node_of(get_record(t, k)))
}

// From k on in its bucket, the first that has the node; at most m are looked at.
fn search_from(t: &[WriterRecord], m: u32, k: u32, n: Node) -> Option<u32>
    ensures { result ≡ number_of (search_in t.now m k n.level n.first n.second n.complement) }
{
    let mut k = k;
    for _ in 0..m {
        if k == 0 {
            return None;
        }
        let x = get_record(t, k);
        if is_node(x, n) {
            return Some(k);
        }
        k = x.next;
    }
    None
}

// The number of a node among z numbers, if it has one.
pub fn find(t: &[WriterRecord], z: u32, n: Node) -> Option<u32>
    ensures { result ≡ number_of (find_in t.now z n.level n.first n.second n.complement) }
{
    search_from(t, z, get_record(t, bucket(n)).head, n)
}

// Number k joins its bucket.
fn bucket_insert(t: &mut [WriterRecord], k: u32)
    ensures { t.new ≡ insert_in t.old k }
{
    let h = bucket_at(t, k);
    let e = link_last::<false>(t, bucket_ends(t, h), k);
    put_record(t, h, with_ends(get_record(t, h), e.first, e.last));
}

// It leaves it.
fn bucket_remove(t: &mut [WriterRecord], k: u32)
    ensures { t.new ≡ remove_in t.old k }
{
    let h = bucket_at(t, k);
    let e = unlink::<false>(t, bucket_ends(t, h), k);
    put_record(t, h, with_ends(get_record(t, h), e.first, e.last));
}

// The ends of the bucket that has the place h
fn bucket_ends(t: &[WriterRecord], h: u32) -> Ends
    ensures first { result.first ≡ cell t.now head_field h }
    ensures last { result.last ≡ cell t.now tail_field h }
{
    let x = get_record(t, h);
    Ends {
        first: x.head,
        last: x.tail,
    }
}

// ---- Storing

// Number c has a parent less.
fn fewer_parents(t: &mut [WriterRecord], c: u32)
    ensures { t.new ≡ fewer_in t.old c }
{
    put_record(t, c, without_parent(get_record(t, c)));
}

// c joins the queue if it has no parent.
fn orphan(t: &mut [WriterRecord], e: Ends, c: u32) -> Ends
    ensures { lane_of t.new result ≡ orphan_in t.old e.first e.last c }
{
    if c == 0 || get_record(t, c).parents != 0 {
        return e;
    }
    link_last::<true>(t, e, c)
}

// The children x and y of a node that is no more.
fn orphans(t: &mut [WriterRecord], e: Ends, x: u32, y: u32) -> Ends
    ensures { lane_of t.new result ≡ orphans_in t.old e.first e.last x y }
{
    fewer_parents(t, x);
    fewer_parents(t, y);
    let f = orphan(t, e, x);
    if x == y { f } else { orphan(t, f, y) }
}

// Number k is taken from its node, to be reused.
fn release(t: &mut [WriterRecord], e: Ends, k: u32) -> Ends
    ensures { lane_of t.new result ≡ release_in t.old e.first e.last k }
{
    let f = unlink::<true>(t, e, k);
    bucket_remove(t, k);
    let x = get_record(t, k);
    orphans(t, f, x.first, x.second)
}

// c becomes the child of a new node.
fn adopt(t: &mut [WriterRecord], e: Ends, c: u32) -> Ends
    ensures { lane_of t.new result ≡ adopt_in t.old e.first e.last c }
{
    let x = get_record(t, c);
    put_record(t, c, with_parent(x));
    if c == 0 || x.parents != 0 {
        return e;
    }
    unlink::<true>(t, e, c)
}

// The record of number k gets a node.
fn note(t: &mut [WriterRecord], k: u32, n: Node)
    ensures { t.new ≡ note_in t.old k n.level n.first n.second n.complement }
{
    put_record(t, k, with_node(get_record(t, k), n));
}

// Number k, which is nobody's, is given to a node.
fn place(t: &mut [WriterRecord], e: Ends, k: u32, n: Node) -> Ends
    ensures { lane_of t.new result ≡ place_in t.old e.first e.last k n.level n.first n.second n.complement }
{
    let f = adopt(t, e, n.first);
    let g = adopt(t, f, n.second);
    note(t, k, n);
    bucket_insert(t, k);
    link_last::<true>(t, g, k)
}

// Of z numbers given out k is reused, or it is the next.
pub fn store(t: &mut [WriterRecord], z: u32, e: Ends, k: u32, n: Node) -> Ends
    ensures { lane_of t.new result ≡ store_in t.old z e.first e.last k n.level n.first n.second n.complement }
{
    if z < k {
        return place(t, e, k, n);
    }
    let f = release(t, e, k);
    place(t, f, k, n)
}

// The number for a node with children a and b, if there is one. f: the first of the queue
pub fn next_number(t: &[WriterRecord], z: u32, f: u32, size: u32, a: u32, b: u32) -> Option<u32>
    ensures { result ≡ number_of (next_in t.now z f size a b) }
{
    if z < size {
        Some(z + 1)
    } else {
        free(t, f, a, b)
    }
}

// The stamp of number k: how often it was given out
pub fn stamp_of(t: &[WriterRecord], k: u32) -> u32
    ensures { result ≡ cell t.now stamp_field k }
{
    get_record(t, k).stamp
}

// The level of number k
pub fn level_of(t: &[WriterRecord], k: u32) -> u32
    ensures { result ≡ cell t.now level_field k }
{
    get_record(t, k).level
}
