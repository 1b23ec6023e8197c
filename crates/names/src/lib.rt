// The names of the operators, put into a lent buffer, and how long they are.
#![tactic(auto)]

ghost use Rattle.std.specs.Prelude.{◌≡◌, ◌+◌, ◌≤◌, length};
ghost use Rattle.operators.specs.Operators.{name_of};
ghost use Rattle.decimal.specs.Put.{Put};

// The name with this stored number; empty if no operator has it.
#[tactic(auto, unfolding(operators::specs::Operators::name_of))]
fn name(op: u64) -> &'static [u8]
    ensures { result.now ≡ name_of op }
{
    match op {
        1 => b"in",
        2 => b"nil",
        3 => b"unit",
        4 => b"time",
        5 => b"set",
        6 => b"plus",
        7 => b"neg",
        8 => b"add",
        9 => b"sub",
        10 => b"mul",
        11 => b"div",
        12 => b"rem",
        13 => b"lt",
        14 => b"le",
        15 => b"eq",
        16 => b"keep",
        17 => b"merge",
        18 => b"last",
        19 => b"delay",
        20 => b"sadd",
        21 => b"ssub",
        22 => b"smul",
        23 => b"sdiv",
        24 => b"srem",
        25 => b"slt",
        26 => b"sle",
        27 => b"seq",
        28 => b"wsum",
        29 => b"wmin",
        30 => b"wmax",
        0 => b"",
        31.. => b"",
    }
}

// How many letters a name has.
pub fn name_length(op: u64) -> usize
    ensures { result ≡ length (name_of op) }
{
    name(op).len()
}

// Puts a name, and answers the position past it.
pub fn put_name(out: &mut [u8], at: usize, op: u64) -> usize
    requires { at + length (name_of op) ≤ length out.old }
    ensures { Put out.old at (name_of op) result out.new }
{
    decimal::put_word(out, at, name(op))
}
