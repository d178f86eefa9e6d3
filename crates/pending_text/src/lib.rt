// The text that waits, and the output.
// It waits in the first m bytes of a lent row w, and m travels beside it: a walk goes back to an earlier m where a part falls away, so m is each caller's own.
#![tactic(auto)]

ghost use Rattle.std.specs.Prelude.{◌≡◌, cond, [], ◌∷◌, replicate};
ghost use Rattle.theory_reading.specs.Bytes.{blank};
ghost use Rattle.theory_writing.specs.Texts.{decimal, tilde_if, storing};
ghost use Rattle.theory_engine.specs.Pending.{push_all, wait_in, close_in};
ghost use Rattle.theory_engine.specs.Engine.{send_text};

// So many bytes wait at most, in round numbers: `waiting-room`.
pub const WAITING_LIMIT: usize = 2400;

// ---- The text that waits

pub fn push(w: &mut [u8], m: usize, b: u8) -> usize
    ensures { record { bytes = w.new; count = result } ≡ push_all w.old m (b ∷ []) }
{
    if w.len() <= m {
        return m;
    }
    w[m] = b;
    m + 1
}

// b if it is wanted
fn push_if(w: &mut [u8], m: usize, wanted: bool, b: u8) -> usize
    ensures { record { bytes = w.new; count = result } ≡ push_all w.old m (cond wanted (b ∷ []) []) }
{
    if wanted { push(w, m, b) } else { m }
}

// j times b
fn push_many(w: &mut [u8], m: usize, b: u8, j: u32) -> usize
    ensures { record { bytes = w.new; count = result } ≡ push_all w.old m (replicate j b) }
{
    let mut m = m;
    for _ in 0..j {
        m = push(w, m, b);
    }
    m
}

pub fn push_digits(w: &mut [u8], m: usize, k: u64) -> usize
    ensures { record { bytes = w.new; count = result } ≡ push_all w.old m (decimal k) }
{
    if k < 10 {
        return push(w, m, b'0' + k as u8);
    }
    let x = push_digits(w, m, k / 10);
    push(w, x, b'0' + (k % 10) as u8)
}

pub fn push_number(w: &mut [u8], m: usize, k: u32) -> usize
    ensures { record { bytes = w.new; count = result } ≡ push_all w.old m (decimal k) }
{
    push_digits(w, m, u64::from(k))
}

// `~` or nothing
pub fn push_tilde(w: &mut [u8], m: usize, t: bool) -> usize
    ensures { record { bytes = w.new; count = result } ≡ push_all w.old m (tilde_if t) }
{
    push_if(w, m, t, b'~')
}

// What waits after a part that came to number k inside j brackets; nothing is before it if a node was written out.
pub fn wait(w: &mut [u8], m: usize, wrote: bool, j: u32, k: u32) -> usize
    ensures { record { bytes = w.new; count = result } ≡ wait_in w.old m wrote j k }
{
    if wrote {
        return push_many(w, 0, b')', j);
    }
    let x = push_many(w, m, b'(', j);
    let y = push_number(w, x, k);
    push_many(w, y, b')', j)
}

// `:` and the number k, nothing for 0 (as `storing` of Texts has it)
fn push_storing(w: &mut [u8], m: usize, k: u32) -> usize
    ensures { record { bytes = w.new; count = result } ≡ push_all w.old m (storing k) }
{
    if k == 0 {
        return m;
    }
    let x = push(w, m, b':');
    push_number(w, x, k)
}

// The end of a two-child node, from its second child on.
pub fn close(w: &mut [u8], m: usize, space: bool, wrote: bool, j: u32, k: u32, number: u32) -> usize
    ensures { record { bytes = w.new; count = result } ≡ close_in w.old m space wrote j k number }
{
    let x = push_if(w, m, space, b' ');
    let y = wait(w, x, wrote, j, k);
    let z = push(w, y, b')');
    push_storing(w, z, number)
}

// ---- The output

// The bytes written; more was sent than the output holds
#[derive(Clone, Copy)]
pub struct Sent {
    pub written: usize,
    pub full: bool,
}

// The first m bytes of w go to the output, after `at` that are written.
pub fn send(out: &mut [u8], w: &mut [u8], at: usize, m: usize) -> Sent
    ensures { record { written = result.written; full = result.full; output = out.new; waits = w.new }
        ≡ send_text out.old w.old at m }
{
    let c = m.min(w.len());
    let from = at.min(out.len());
    let room = out.len() - from;
    let e = c.min(room);
    // Byte by byte: copying a slice would ask C for `memmove`, and the calls want nothing of it but `memcpy` and `memset`.
    for j in 0..e {
        out[from + j] = w[j];
    }
    Sent {
        written: at + e,
        full: room < c,
    }
}
