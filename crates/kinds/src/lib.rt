#![tactic(auto)]

ghost use Rattle.std.specs.Prelude.{◌≡◌, ◌&&◌, eqb};
ghost use Rattle.kinds.specs.Kinds.{kind_table, kind_in};

// A kind of bytes, by its number: any number is one, and those of the stream have names. (`kind_in` is defined for any table of them.)
#[derive(Clone, Copy, PartialEq, Eq)]
pub struct Kind {
    pub number: u8,
}

impl Kind {
    pub const DIGIT: Kind = Kind { number: 0 };

    pub const BRACKET: Kind = Kind { number: 1 };

    pub const MARK: Kind = Kind { number: 2 };

    pub const SPACE: Kind = Kind { number: 3 };

    pub const LINE_END: Kind = Kind { number: 4 };

    pub const POINT: Kind = Kind { number: 5 };

    pub const FOREIGN: Kind = Kind { number: 6 };
}

// A kind for each byte.
pub type KindTable = [Kind; 256];

// The names without their type, for the rows of the table.
const DIGIT: Kind = Kind::DIGIT;

const BRACKET: Kind = Kind::BRACKET;

const MARK: Kind = Kind::MARK;

const SPACE: Kind = Kind::SPACE;

const LINE_END: Kind = Kind::LINE_END;

const POINT: Kind = Kind::POINT;

const FOREIGN: Kind = Kind::FOREIGN;

const KINDS: KindTable = [
    FOREIGN, FOREIGN, FOREIGN, FOREIGN, FOREIGN, FOREIGN, FOREIGN, FOREIGN, FOREIGN, FOREIGN,
    LINE_END, FOREIGN, FOREIGN, FOREIGN, FOREIGN, FOREIGN, FOREIGN, FOREIGN, FOREIGN, FOREIGN,
    FOREIGN, FOREIGN, FOREIGN, FOREIGN, FOREIGN, FOREIGN, FOREIGN, FOREIGN, FOREIGN, FOREIGN,
    FOREIGN, FOREIGN, SPACE, FOREIGN, FOREIGN, FOREIGN, FOREIGN, FOREIGN, FOREIGN, FOREIGN,
    BRACKET, BRACKET, FOREIGN, FOREIGN, FOREIGN, FOREIGN, POINT, FOREIGN, DIGIT, DIGIT, DIGIT,
    DIGIT, DIGIT, DIGIT, DIGIT, DIGIT, DIGIT, DIGIT, MARK, FOREIGN, FOREIGN, FOREIGN, FOREIGN,
    FOREIGN, FOREIGN, FOREIGN, FOREIGN, FOREIGN, FOREIGN, FOREIGN, FOREIGN, FOREIGN, FOREIGN,
    FOREIGN, FOREIGN, FOREIGN, FOREIGN, FOREIGN, FOREIGN, FOREIGN, FOREIGN, FOREIGN, FOREIGN,
    FOREIGN, FOREIGN, FOREIGN, FOREIGN, FOREIGN, FOREIGN, FOREIGN, FOREIGN, FOREIGN, FOREIGN,
    FOREIGN, FOREIGN, FOREIGN, FOREIGN, FOREIGN, FOREIGN, FOREIGN, FOREIGN, FOREIGN, FOREIGN,
    FOREIGN, FOREIGN, FOREIGN, FOREIGN, FOREIGN, FOREIGN, FOREIGN, FOREIGN, FOREIGN, FOREIGN,
    FOREIGN, FOREIGN, FOREIGN, FOREIGN, FOREIGN, FOREIGN, FOREIGN, FOREIGN, FOREIGN, FOREIGN,
    FOREIGN, FOREIGN, FOREIGN, MARK, FOREIGN, FOREIGN, FOREIGN, FOREIGN, FOREIGN, FOREIGN, FOREIGN,
    FOREIGN, FOREIGN, FOREIGN, FOREIGN, FOREIGN, FOREIGN, FOREIGN, FOREIGN, FOREIGN, FOREIGN,
    FOREIGN, FOREIGN, FOREIGN, FOREIGN, FOREIGN, FOREIGN, FOREIGN, FOREIGN, FOREIGN, FOREIGN,
    FOREIGN, FOREIGN, FOREIGN, FOREIGN, FOREIGN, FOREIGN, FOREIGN, FOREIGN, FOREIGN, FOREIGN,
    FOREIGN, FOREIGN, FOREIGN, FOREIGN, FOREIGN, FOREIGN, FOREIGN, FOREIGN, FOREIGN, FOREIGN,
    FOREIGN, FOREIGN, FOREIGN, FOREIGN, FOREIGN, FOREIGN, FOREIGN, FOREIGN, FOREIGN, FOREIGN,
    FOREIGN, FOREIGN, FOREIGN, FOREIGN, FOREIGN, FOREIGN, FOREIGN, FOREIGN, FOREIGN, FOREIGN,
    FOREIGN, FOREIGN, FOREIGN, FOREIGN, FOREIGN, FOREIGN, FOREIGN, FOREIGN, FOREIGN, FOREIGN,
    FOREIGN, FOREIGN, FOREIGN, FOREIGN, FOREIGN, FOREIGN, FOREIGN, FOREIGN, FOREIGN, FOREIGN,
    FOREIGN, FOREIGN, FOREIGN, FOREIGN, FOREIGN, FOREIGN, FOREIGN, FOREIGN, FOREIGN, FOREIGN,
    FOREIGN, FOREIGN, FOREIGN, FOREIGN, FOREIGN, FOREIGN, FOREIGN, FOREIGN, FOREIGN, FOREIGN,
    FOREIGN, FOREIGN, FOREIGN, FOREIGN, FOREIGN, FOREIGN, FOREIGN, FOREIGN, FOREIGN, FOREIGN,
    FOREIGN, FOREIGN, FOREIGN, FOREIGN, FOREIGN, FOREIGN, FOREIGN, FOREIGN, FOREIGN, FOREIGN,
    FOREIGN, FOREIGN,
];

// The constant in memory: a constant array is built anew where it is used.
static TABLE: KindTable = KINDS;

// The kind of each byte.
pub fn kinds() -> &'static KindTable
    ensures { result.now ≡ kind_table }
{
    &TABLE
}

// k, here and below: a table of kinds, lent
#[tactic(auto, unfolding(crate::specs::Kinds::kind_in))]
pub fn is_kind(k: &KindTable, b: u8, kind: Kind) -> bool
    ensures { result ≡ kind_in k.now kind b }
{
    k[b as usize] == kind
}

// The byte a, of a kind that has two.
pub fn is_one(k: &KindTable, b: u8, kind: Kind, a: u8) -> bool
    ensures { result ≡ (kind_in k.now kind b && eqb b a) }
{
    is_kind(k, b, kind) && b == a
}
