// The job of the program `join`, read from its text.
#![tactic(auto)]

ghost use Rattle.std.specs.Prelude.{◌≡◌, [], ◌∷◌, length, map, ◌<◌, ◌≤◌, IfSome, MatchOption};
ghost use Rattle.std.proofs.Math.Option.{some};
ghost use Rattle.theory_reading.specs.Bytes.{is_digit, line_feed, blank};
ghost use Rattle.theory_writing.specs.Join as J;
ghost use Rattle.theory_writing.specs.Join.{pieces, operator_names, operator_of, number_of, five_lines};
ghost use Rattle.job.specs.Abstraction.{field_of, Heads, lines_job, row_of, named_row};
ghost use Rattle.job.specs.Cuts.{cut_at, ends_in};
ghost use Rattle.job.specs.Parsing.{parsed_as, placed_as, parsed, job_in};
ghost use Rattle.job.specs.Streams.{Streams};

// ---- Lines and fields

// The place of the first c from i on
fn place_of(c: u8, s: &[u8], i: usize) -> Option<usize>
    ensures { MatchOption result (length s.now ≤ cut_at c s.now i) (λ j. (j ≡ cut_at c s.now i) × (j < length s.now)) }
{
    for j in i..s.len() {
        if s[j] == c {
            return Some(j);
        }
    }
    None
}

// Where the first, the third and the fifth line end. Stream 1 stands between the first two places, stream 2 between the last two.
#[derive(Clone, Copy)]
pub struct LineEnds {
    pub first: usize,
    pub third: usize,
    pub fifth: usize,
}

// The first line, lines 2 and 3, lines 4 and 5; and where they end
struct Lines<'a> {
    heading: &'a [u8],
    first: &'a [u8],
    second: &'a [u8],
    ends: LineEnds,
}

// The lines of an input that has five
fn five_lines(s: &[u8]) -> Option<Lines<'_>>
    ensures result_value { lines_job result ≡ five_lines (pieces line_feed s.now) }
    ensures placed { IfSome result (λ l. l.ends ≡ ends_in s.now) }
{
    let a = place_of(b'\n', s, 0)?;
    let b = place_of(b'\n', s, a + 1)?;
    let c = place_of(b'\n', s, b + 1)?;
    let d = place_of(b'\n', s, c + 1)?;
    let e = place_of(b'\n', s, d + 1).unwrap_or(s.len());
    if e + 1 < s.len() {
        return None;
    }
    Some(Lines {
        heading: &s[..a],
        first: &s[a + 1..c],
        second: &s[c + 1..e],
        ends: LineEnds {
            first: a,
            third: c,
            fifth: e,
        },
    })
}

fn is_digit(b: u8) -> bool
    ensures { result ≡ is_digit b }
{
    b.is_ascii_digit()
}

// 1 to 4 digits without leading zero
fn number(l: &[u8]) -> Option<u32>
    ensures { field_of result ≡ number_of l.now }
{
    if l.is_empty() || 4 < l.len() || 1 < l.len() && l[0] == b'0' {
        return None;
    }
    let mut v = 0;
    for b in l {
        if !is_digit(*b) {
            return None;
        }
        v = v * 10 + u32::from(*b - b'0');
    }
    Some(v)
}

// The named operators, each with its number
const OPERATORS: [(&str, u32); 8] = [
    ("NOR", 1),
    ("NOT", 3),
    ("BUT", 4),
    ("XOR", 6),
    ("NAND", 7),
    ("AND", 8),
    ("XNOR", 9),
    ("OR", 14),
];

fn operators() -> &'static [(&'static str, u32)]
    ensures { map row_of result.now ≡ map named_row operator_names }
{
    &OPERATORS
}

fn operator(l: &[u8]) -> Option<u32>
    ensures { field_of result ≡ operator_of operator_names l.now }
{
    for (name, op) in operators() {
        if name.as_bytes() == l {
            return Some(*op);
        }
    }
    None
}

// The first line: option count, operator, table size
struct Heading {
    n: u32,
    op: u32,
    size: u32,
}

// Its three fields
fn fields(a: &[u8], b: &[u8], c: &[u8]) -> Option<Heading>
    ensures { Heads result (a.now ∷ b.now ∷ c.now ∷ []) }
{
    Some(Heading {
        n: number(a)?,
        op: operator(b)?,
        size: number(c)?,
    })
}

fn first_line(l: &[u8]) -> Option<Heading>
    ensures { Heads result (pieces blank l.now) }
{
    let a = place_of(b' ', l, 0)?;
    let b = place_of(b' ', l, a + 1)?;
    if place_of(b' ', l, b + 1).is_some() {
        return None;
    }
    fields(&l[..a], &l[a + 1..b], &l[b + 1..])
}

// ---- The job

// "at most 65,536 bytes"
pub const JOB_LIMIT: usize = 65536;

// Option count, operator and table size, and the two streams; and where the lines end
#[derive(Clone, Copy)]
pub struct Job<'a> {
    pub n: u32,
    pub op: u32,
    pub size: u32,
    pub first: &'a [u8],
    pub second: &'a [u8],
    pub ends: LineEnds,
}

// THE JOB of an input
pub fn parse(input: &[u8]) -> Option<Job<'_>>
    ensures result_value { parsed_as result ≡ job_in input.now }
    ensures ends { placed_as result ≡ parsed input.now }
    ensures placed { (j : J.Job) → job_in input.now ≡ some j → Streams input.now j }
{
    if JOB_LIMIT < input.len() {
        return None;
    }
    let Lines {
        heading,
        first,
        second,
        ends,
    } = five_lines(input)?;
    let Heading { n, op, size } = first_line(heading)?;
    Some(Job {
        n,
        op,
        size,
        first,
        second,
        ends,
    })
}
