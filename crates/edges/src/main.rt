// Runs every operation on all pairs of edge values and prints each answer: a value, `outside` or `zero`.
#![tactic(auto)]

use num::Reason;

const EDGES: [i64; 25] = [
    -9223372036854775808,
    -9223372036854775807,
    -9223372036854775806,
    -4611686018427387905,
    -4611686018427387904,
    -4294967297,
    -4294967296,
    -3037000500,
    -7,
    -6,
    -5,
    -2,
    -1,
    0,
    1,
    2,
    5,
    7,
    2147483648,
    3037000499,
    3037000500,
    4294967296,
    4611686018427387904,
    9223372036854775806,
    9223372036854775807,
];

fn print_value(rt: &impl Print, v: i64) {
    let u = num::bits(v);
    if u < 0x8000_0000_0000_0000 {
        let _ = print!(rt; "{u}");
    } else {
        let away = u64::MAX - u + 1;
        let _ = print!(rt; "-{away}");
    }
}

fn print_answer(rt: &impl Print, a: Result<i64, Reason>) {
    match a {
        Ok(v) => {
            let _ = print!(rt; " ");
            print_value(rt, v);
        }
        Err(Reason::Outside) => {
            let _ = print!(rt; " outside");
        }
        Err(Reason::ZeroDivisor) => {
            let _ = print!(rt; " zero");
        }
    }
}

// One line: x, y, and x add, sub, mul, div, rem, lt, le, eq y.
fn print_pair(rt: &impl Print, x: i64, y: i64) {
    print_value(rt, x);
    let _ = print!(rt; " ");
    print_value(rt, y);
    print_answer(rt, num::add(x, y));
    print_answer(rt, num::sub(x, y));
    print_answer(rt, num::mul(x, y));
    print_answer(rt, num::div(x, y));
    print_answer(rt, num::rem(x, y));
    print_answer(rt, num::lt(x, y));
    print_answer(rt, num::le(x, y));
    print_answer(rt, num::eq(x, y));
    let _ = println!(rt);
}

// One line: x and its negation.
fn print_neg(rt: &impl Print, x: i64) {
    print_value(rt, x);
    print_answer(rt, num::neg(x));
    let _ = println!(rt);
}

// The line of x, then its line with each edge value.
fn print_row(rt: &impl Print, x: i64) {
    print_neg(rt, x);
    for y in EDGES {
        print_pair(rt, x, y);
    }
}

fn main(rt: HostRuntime) {
    for x in EDGES {
        print_row(&rt, x);
    }
}
