#![tactic(auto)]

ghost use Rattle.std.specs.Prelude.{◌≡◌, false, cond, ◌+◌, ◌*◌, ◌-◌, ◌<◌, ◌≤◌, length, get_or};
ghost use Rattle.std.proofs.Math.ListN.{get_elem?};
ghost use Rattle.theory_reading.specs.Bytes.{digit_zero};
ghost use Rattle.kinds.specs.Kinds.{digit_in, number_by};
ghost use Rattle.scanner.specs.ScannedToken.{scan_token, scan_lead, scan_ended, scan_end, scan_inner, scan_node, scan_space, scan_colon};
ghost use Rattle.scanner.specs.ScannedToken.{scan_number, scan_storing, scan_size, wrong_at};
ghost use Rattle.scanner.specs.Capped.{cap, cap_scan, cap_scanned, number_most};
ghost use Rattle.scanner.specs.TokenView.{scan_of, tops_of, scanned_view, plain, numbered, gave_by, failed_by, waited_by};
ghost use Rattle.scanner.specs.TokenView.{is_after, side_of, next_token_view, next_token};
ghost use Rattle.scanner.specs.declared.Token.TheVariants.{Closing};
ghost use Rattle.elements.specs.Abstraction.{context_of, begun_open, deep_of};

use elements::{Cause, Context, Element, Fault, OPEN_LIMIT, Open, Outcome, Ref};
use kinds::{Kind, KindTable, is_kind, is_one};

// Bytes of a stream, named as their definitions are: those whose kind has another byte too, and the space, for the reader.
const OPENER: u8 = b'(';

const CLOSER: u8 = b')';

const TILDE: u8 = b'~';

pub const COLON: u8 = b':';

pub const BLANK: u8 = b' ';

const DIGIT_ZERO: u8 = b'0';

// ---- Tokens

// The innermost open node: none is open; its first child is not done; it is.
#[derive(Clone, Copy)]
enum Top {
    Empty,
    Inner,
    Outer,
}

// What a step comes to, without its numbers: one of the elements, a fault, or that the bytes ran out. An `Outcome`, which has them, in its place takes
// 10 % more time for `check`, a `Result` over faults 6 %: so the numbers stand beside it.
#[derive(Clone, Copy)]
pub enum Token {
    Opening,
    Number,
    Constant,
    Turn,
    Closing,
    Storing,
    End,
    Fault,
    Out,
}

// A step by little: what it comes to, with the element's number or the fault, and the place after it: how many nodes are open then, whether the second
// child of the innermost begins, and after a `~`.
#[derive(Clone, Copy)]
struct ScannedToken {
    byte: usize,
    at: usize,
    depth: usize,
    number: u32,
    token: Token,
    cause: Cause,
    context: Context,
    second: bool,
    complement: bool,
}

impl ScannedToken {
    // The entry of the innermost open node, whose second child begins or not.
    fn entry(self, last: Ref, low: Open) -> Open
        ensures { result ≡ cond self.second (begun_open last self.complement) low }
    {
        if self.second {
            Open::begun(last, self.complement)
        } else {
            low
        }
    }
}

// ---- Numbers

// A number that is read: its value and the place after it.
#[derive(Clone, Copy)]
struct Num {
    value: u32,
    next: usize,
}

fn digit(b: u8) -> u64
    ensures { (result ≡ b - digit_zero) × (result ≤ 255) }
{
    u64::from(b.saturating_sub(DIGIT_ZERO))
}

// One digit more; a number that does not fit stays at the largest. In 64 bits, since that takes a tenth less time than saturating in 32.
fn more(v: u64, b: u8) -> u64
    requires { v ≤ number_most }
    ensures { result ≡ cap (v * 10 + (b - digit_zero)) }
{
    (v * 10 + digit(b)).min(4294967295)
}

// The number whose first digit stands at a place, if it is read.
fn number_at(k: &KindTable, s: &[u8], at: usize) -> Option<Num>
    ensures { scan_of result ≡ cap_scan (number_by k.now s.now at (get_or s.now at 0)) }
{
    if s.len() <= at {
        return None;
    }
    let b = s[at];
    if b == DIGIT_ZERO {
        return Some(Num {
            value: 0,
            next: at + 1,
        });
    }
    let mut value = digit(b);
    for next in at + 1..s.len() {
        if !is_kind(k, s[next], Kind::DIGIT) {
            return Some(Num {
                value: value as u32,
                next,
            });
        }
        value = more(value, s[next]);
    }
    None
}

// ---- A step by little

// Where a step begins: the table of kinds and the stream, the place in it, what stands before it, and how many nodes are open.
#[derive(Clone, Copy)]
struct Spot<'a> {
    kinds: &'a KindTable,
    stream: &'a [u8],
    at: usize,
    context: Context,
    depth: usize,
}

impl<'a> Spot<'a> {
    // The bytes ran out.
    fn waited(self) -> ScannedToken
        ensures { result ≡ waited_by self.entry.at self.entry.context self.entry.depth }
    {
        ScannedToken {
            token: Token::Out,
            cause: Cause::WrongByte,
            byte: 0,
            number: 0,
            at: self.at,
            context: self.context,
            depth: self.depth,
            second: false,
            complement: false,
        }
    }

    fn failed(self, cause: Cause, byte: usize) -> ScannedToken
        ensures { result ≡ failed_by self.entry.at self.entry.context self.entry.depth cause byte }
    {
        ScannedToken {
            token: Token::Fault,
            cause,
            byte,
            ..self.waited()
        }
    }

    // An element, of a number, up to a place and what stands before that. As many nodes are open.
    fn gave(self, token: Token, number: u32, at: usize, context: Context) -> ScannedToken
        ensures { result ≡ gave_by token number at context self.entry.depth false false }
    {
        ScannedToken {
            token,
            number,
            at,
            context,
            ..self.waited()
        }
    }

    // The size, whose first digit stands at the place.
    fn scan_size(self) -> ScannedToken
        ensures { let p = self.entry in scanned_view result ≡ plain p.depth
            (cap_scanned (scan_size p.kinds.now p.stream.now p.at (context_of p.context)
            (number_by p.kinds.now p.stream.now p.at (get_or p.stream.now p.at 0)))) }
    {
        let Some(x) = number_at(self.kinds, self.stream, self.at) else {
            return self.waited();
        };
        if self.stream.len() <= x.next {
            return self.waited();
        }
        if is_kind(self.kinds, self.stream[x.next], Kind::LINE_END) {
            return self.gave(Token::Number, x.value, x.next + 1, Context::Lead);
        }
        self.failed(Cause::WrongByte, x.next)
    }

    // A number or the constant, whose first digit stands at `from`.
    fn scan_number(self, from: usize, second: bool) -> ScannedToken
        ensures { let p = self.entry in scanned_view result ≡ plain p.depth
            (cap_scanned (scan_number p.at (context_of p.context) (numbered second)
            (number_by p.kinds.now p.stream.now from (get_or p.stream.now from 0)))) }
    {
        let Some(x) = number_at(self.kinds, self.stream, from) else {
            return self.waited();
        };
        let number = ScannedToken {
            second,
            ..self.gave(Token::Number, x.value, x.next, Context::AfterDigit)
        };
        if x.value == 0 {
            return ScannedToken {
                token: Token::Constant,
                ..number
            };
        }
        number
    }

    // A number to store, whose first digit stands at `from`.
    fn scan_storing(self, from: usize) -> ScannedToken
        ensures { let p = self.entry in scanned_view result ≡ plain p.depth
            (cap_scanned (scan_storing p.at (context_of p.context) (number_by p.kinds.now p.stream.now from (get_or p.stream.now from 0)))) }
    {
        let Some(x) = number_at(self.kinds, self.stream, from) else {
            return self.waited();
        };
        self.gave(Token::Storing, x.value, x.next, Context::AfterDigit)
    }

    // A node begins, as a second child or not.
    fn scan_node(self, second: bool) -> ScannedToken
        requires { self.at < length self.stream.now }
        ensures { let p = self.entry in scanned_view result ≡ plain p.depth
            (cap_scanned (scan_node p.kinds.now p.stream.now p.at (context_of p.context) p.depth second (get_or p.stream.now p.at 0))) }
    {
        let b = self.stream[self.at];
        if is_one(self.kinds, b, Kind::BRACKET, OPENER) {
            if OPEN_LIMIT <= self.depth {
                return self.failed(Cause::TooDeep, self.at);
            }
            return ScannedToken {
                depth: self.depth + 1,
                second,
                ..self.gave(Token::Opening, 0, self.at + 1, Context::Begins)
            };
        }
        if !is_kind(self.kinds, b, Kind::DIGIT) {
            return self.failed(Cause::WrongByte, self.at);
        }
        self.scan_number(self.at, second)
    }

    // After the space that belongs to a second child. (It and scan_colon stay two: what they share is the look at one byte, which a function of its own would answer
    // by a Result that both match on.)
    fn scan_space(self) -> ScannedToken
        requires { self.at < length self.stream.now }
        ensures { let p = self.entry in scanned_view result ≡ plain p.depth
            (cap_scanned (scan_space p.kinds.now p.stream.now p.at (context_of p.context) (get_elem? p.stream.now (p.at + 1)))) }
    {
        let i = self.at + 1;
        if self.stream.len() <= i {
            return self.waited();
        }
        if !is_kind(self.kinds, self.stream[i], Kind::DIGIT) {
            return self.failed(Cause::WrongByte, i);
        }
        self.scan_number(i, true)
    }

    // After the `:` of a storing.
    fn scan_colon(self) -> ScannedToken
        requires { self.at < length self.stream.now }
        ensures { let p = self.entry in scanned_view result ≡ plain p.depth
            (cap_scanned (scan_colon p.kinds.now p.stream.now p.at (context_of p.context) (get_elem? p.stream.now (p.at + 1)))) }
    {
        let i = self.at + 1;
        if self.stream.len() <= i {
            return self.waited();
        }
        if !is_kind(self.kinds, self.stream[i], Kind::DIGIT) {
            return self.failed(Cause::WrongByte, i);
        }
        self.scan_storing(i)
    }

    // `)`, after two children or one.
    fn closed(self, context: Context) -> ScannedToken
        requires { self.at < length self.stream.now }
        ensures { result ≡ gave_by Closing 0 (self.entry.at + 1) context (self.entry.depth - 1) false false }
    {
        ScannedToken {
            depth: self.depth.saturating_sub(1),
            ..self.gave(Token::Closing, 0, self.at + 1, context)
        }
    }

    // A first child has ended, in a digit or not.
    fn scan_inner(self, digital: bool) -> ScannedToken
        requires { self.at < length self.stream.now }
        ensures { let p = self.entry in scanned_view result ≡ plain p.depth
            (cap_scanned (scan_inner p.kinds.now p.stream.now p.at (context_of p.context) p.depth digital (get_or p.stream.now p.at 0))) }
    {
        let b = self.stream[self.at];
        if is_one(self.kinds, b, Kind::MARK, TILDE) {
            return ScannedToken {
                second: true,
                complement: true,
                ..self.gave(Token::Turn, 0, self.at + 1, Context::Begins)
            };
        }
        if is_one(self.kinds, b, Kind::BRACKET, CLOSER) {
            return self.closed(Context::AfterOne);
        }
        if digital && is_kind(self.kinds, b, Kind::SPACE) {
            return self.scan_space();
        }
        if digital && is_kind(self.kinds, b, Kind::DIGIT) {
            return self.failed(Cause::WrongByte, self.at);
        }
        self.scan_node(true)
    }

    // A node has ended, in a digit or not.
    fn scan_end(self, top: Top, digital: bool) -> ScannedToken
        requires { self.at < length self.stream.now }
        ensures { let p = self.entry in scanned_view result ≡ plain p.depth
            (cap_scanned (scan_end p.kinds.now p.stream.now p.at (context_of p.context) (tops_of top) p.depth digital (get_or p.stream.now p.at 0))) }
    {
        let b = self.stream[self.at];
        match top {
            Top::Inner => self.scan_inner(digital),
            Top::Empty if is_kind(self.kinds, b, Kind::POINT) => {
                self.gave(Token::End, 0, self.at + 1, Context::Over)
            }
            Top::Outer if is_one(self.kinds, b, Kind::BRACKET, CLOSER) => self.closed(
                Context::AfterTwo,
            ),
            Top::Empty | Top::Outer => self.failed(Cause::WrongByte, self.at),
        }
    }

    // At the size.
    fn scan_first(self) -> ScannedToken
        requires { self.at < length self.stream.now }
        ensures { let p = self.entry in scanned_view result ≡ plain p.depth
            (cap_scanned (cond (digit_in p.kinds.now (get_or p.stream.now p.at 0))
            (scan_size p.kinds.now p.stream.now p.at (context_of p.context) (number_by p.kinds.now p.stream.now p.at (get_or p.stream.now p.at 0)))
            (wrong_at p.at (context_of p.context)))) }
    {
        if is_kind(self.kinds, self.stream[self.at], Kind::DIGIT) {
            return self.scan_size();
        }
        self.failed(Cause::WrongByte, self.at)
    }

    // Where a node begins that is no second child.
    fn scan_begin(self) -> ScannedToken
        requires { self.at < length self.stream.now }
        ensures { let p = self.entry in scanned_view result ≡ plain p.depth
            (cap_scanned (scan_lead p.kinds.now p.stream.now p.at (context_of p.context) p.depth (get_or p.stream.now p.at 0))) }
    {
        if is_one(self.kinds, self.stream[self.at], Kind::MARK, TILDE)
            && self.context == Context::Lead
        {
            return self.gave(Token::Turn, 0, self.at + 1, Context::Begins);
        }
        self.scan_node(false)
    }

    // Where a node has ended that may be stored.
    fn scan_ended(self, top: Top) -> ScannedToken
        requires { self.at < length self.stream.now }
        ensures { let p = self.entry in scanned_view result ≡ plain p.depth
            (cap_scanned (scan_ended p.kinds.now p.stream.now p.at (context_of p.context) (tops_of top) p.depth (is_after p.context)
            (get_or p.stream.now p.at 0))) }
    {
        if self.context == Context::AfterTwo
            && is_one(self.kinds, self.stream[self.at], Kind::MARK, COLON)
        {
            return self.scan_colon();
        }
        self.scan_end(top, self.context == Context::AfterDigit)
    }

    // One step, by what stands before the place, the innermost open node and how many are open.
    fn scan_token(self, top: Top) -> ScannedToken
        ensures { let p = self.entry in scanned_view result ≡ plain p.depth
            (cap_scanned (scan_token p.kinds.now p.stream.now p.at (context_of p.context) (tops_of top) p.depth)) }
    {
        if self.stream.len() <= self.at {
            return self.waited();
        }
        match self.context {
            Context::Start => self.scan_first(),
            Context::Lead | Context::Begins => self.scan_begin(),
            Context::AfterDigit | Context::AfterTwo | Context::AfterOne => self.scan_ended(top),
            Context::Over => self.failed(Cause::WrongByte, self.at),
        }
    }
}

// ---- The next token

// The innermost of d open nodes, which is e.
fn top_of(d: usize, e: Open) -> Top
    ensures { tops_of result ≡ side_of d e }
{
    if d == 0 {
        Top::Empty
    } else if e.second {
        Top::Outer
    } else {
        Top::Inner
    }
}

fn deep(d: usize) -> usize
    ensures { result ≡ deep_of d }
{
    d.min(OPEN_LIMIT)
}

// What a scan of the bytes comes to: the outcome with its number, the place after it, how many nodes are open then, and the entry of the innermost
// before it.
#[derive(Clone, Copy)]
pub struct NextToken {
    pub byte: usize,
    pub at: usize,
    pub depth: usize,
    pub low: Open,
    pub number: u32,
    pub token: Token,
    pub cause: Cause,
    pub context: Context,
}

impl From<NextToken> for Outcome {
    ghost use Rattle.scanner.specs.TokenView.{outcome_in};

    ghost from_gives = { λ x o. o ≡ outcome_in x };

    fn from(x: NextToken) -> Outcome {
        match x.token {
            Token::Opening => Outcome::Got(Element::Opening),
            Token::Number => Outcome::Got(Element::Number(x.number)),
            Token::Constant => Outcome::Got(Element::Constant),
            Token::Turn => Outcome::Got(Element::Turn),
            Token::Closing => Outcome::Got(Element::Closing),
            Token::Storing => Outcome::Got(Element::Storing(x.number)),
            Token::End => Outcome::Got(Element::End),
            Token::Fault => Outcome::Fault(Fault {
                cause: x.cause,
                byte: x.byte,
            }),
            Token::Out => Outcome::RanOut,
        }
    }
}

// One element on, by little and a lent table of kinds: the byte's place, what stands before it, what ended last, how many nodes are open and the
// innermost.
pub fn next_token(
    k: &KindTable,
    s: &[u8],
    at: usize,
    context: Context,
    last: Ref,
    depth: usize,
    low: Open,
) -> NextToken
    ensures { next_token_view result ≡ next_token k.now s.now at (context_of context) last depth low }
{
    let d = deep(depth);
    let spot = Spot {
        kinds: k,
        stream: s,
        at,
        context,
        depth: d,
    };
    let g = spot.scan_token(top_of(d, low));
    NextToken {
        token: g.token,
        cause: g.cause,
        byte: g.byte,
        number: g.number,
        at: g.at,
        context: g.context,
        depth: g.depth,
        low: g.entry(last, low),
    }
}
