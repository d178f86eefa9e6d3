// The operators: what each gives for two decisions, by its truth table, and whether a decision counts for it.
#![tactic(auto)]

ghost use Rattle.std.specs.Prelude.{◌≡◌, cond, [], ◌∷◌};
ghost use Rattle.theory_writing.specs.Run.{operate};
ghost use Rattle.operators.specs.Operators.{opens_first, opens_second};

// ---- The truth tables

const T: bool = true;

const F: bool = false;

// Of four results, for the decisions a b = 00, 01, 10 and 11 in this order, the one for a and b
fn result(a: bool, b: bool, r00: bool, r01: bool, r10: bool, r11: bool) -> bool
    ensures { result ≡ cond a (cond b r11 r10) (cond b r01 r00) }
{
    match (a, b) {
        (false, false) => r00,
        (false, true) => r01,
        (true, false) => r10,
        (true, true) => r11,
    }
}

// What the operator gives for two decisions; of a number above 15 the last four binary digits count
// (kept: the operator is a number, as include/rule.h and the theory's `operate` have it; the cases are the sixteen truth tables, one a line)
pub fn operate(op: u32, a: bool, b: bool) -> bool
    ensures { result ≡ operate op (a ∷ b ∷ []) }
{
    let operator = op % 16;
    match operator {
        //          a b = 00 01 10 11
        0 => result(a, b, F, F, F, F),
        1 => result(a, b, T, F, F, F), // NOR
        2 => result(a, b, F, T, F, F),
        3 => result(a, b, T, T, F, F), // NOT (of the first)
        4 => result(a, b, F, F, T, F), // BUT
        5 => result(a, b, T, F, T, F),
        6 => result(a, b, F, T, T, F), // XOR
        7 => result(a, b, T, T, T, F), // NAND
        8 => result(a, b, F, F, F, T), // AND
        9 => result(a, b, T, F, F, T), // XNOR
        //           a b = 00 01 10 11
        10 => result(a, b, F, T, F, T),
        11 => result(a, b, T, T, F, T),
        12 => result(a, b, F, F, T, T),
        13 => result(a, b, T, F, T, T),
        14 => result(a, b, F, T, T, T), // OR
        15.. => result(a, b, T, T, T, T),
    }
}

// ---- Whether a decision counts

// The results differ for the two decisions of the first input, beside the decision d of the second.
// (kept: a function for each input, as Operators has two definitions, by which clauses of three crates speak; with a const parameter the clause has both)
pub fn opens_first(op: u32, d: bool) -> bool
    ensures { result ≡ opens_first op d }
{
    operate(op, false, d) != operate(op, true, d)
}

// Likewise of the second, beside the decision d of the first.
pub fn opens_second(op: u32, d: bool) -> bool
    ensures { result ≡ opens_second op d }
{
    operate(op, d, false) != operate(op, d, true)
}
