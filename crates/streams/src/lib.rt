// A stream as a struct, with its operator inside, rebuilt from the record's bytes.
#![tactic(auto)]

ghost use Rattle.std.specs.Prelude.{◌≡◌, ℕ, ◌+◌, ◌≤◌, ◌<◌, min, max, ℤ, length, get_or};
ghost use Rattle.std.specs.Int.{w64};
ghost use Rattle.std.proofs.Common.{to_z};
ghost use Rattle.meaning.specs.Plan.{add, wsum, one, two};
ghost use Rattle.meaning.specs.Events.{horizon};
ghost use Rattle.machine.specs.State.{no_kept, with_prev, with_prev_b};
ghost use Rattle.meaning.specs.Arguments.{arg_a, arg_b};
ghost use Rattle.operators.specs.Operators.{calcs, folds, eqn_of};
ghost use Rattle.layout.specs.Record.{dec_raw, num, k_f};
ghost use Rattle.encoding.specs.Back as cells;
ghost use Rattle.apply.specs.Named.{unary, calculation, binary, folding};
ghost use Rattle.streams.specs.Look.{look_of, equation, kept_in, Bounded, Is, Within};

use apply::{Binary, Calc, Fold, Unary};
use limits::Bound;

// An equation's operator, with just the arguments that it uses.
#[derive(Clone, Copy)]
pub enum Op {
    In,
    Nil,
    Unit,
    One(Unary, u8),
    Two(Binary, u8, u8),
    Last(u8, u8),
    Delay(u8, u8),
    Signal(Calc, u8, u8),
    Window(Fold, i64, u8),
}

// What a last, a delay or a signal form keeps in its record; prevb is a signal form's latest value of its second argument.
#[derive(Clone, Copy)]
pub struct Kept {
    pub prev: Option<i64>,
    pub prevb: Option<i64>,
    pub since: u64,
    pub value: Option<i64>,
    pub prior: Option<i64>,
}

// A stream, rebuilt from its record: its operator with just the arguments that it uses, and what a move looks at besides.
#[derive(Clone, Copy)]
pub struct Stream {
    pub op: Op,
    pub bound: u64,
    pub kept: Kept,
}

// What a move looks at: the stream, and its arguments' bounds.
#[derive(Clone, Copy)]
pub struct Look {
    pub stream: Stream,
    pub abound: u64,
    pub bbound: u64,
}

// The operator of one argument with stored number n, with the k of the record if it uses one.
fn unary_at(r: &[u8], n: u64) -> Unary
    requires { (length r.now ≡ 256) × (4 ≤ n) × (n ≤ 7) }
    ensures { (a b : ℕ) → one (unary result) a ≡ eqn_of n a b (to_z w64 (num k_f (dec_raw r.now))) }
{
    match n {
        4 => Unary::Time,
        5 => {
            let k = num::of_bits(layout::word_at(r, layout::K));
            Unary::Set(k)
        }
        6 => {
            let k = num::of_bits(layout::word_at(r, layout::K));
            Unary::Plus(k)
        }
        _ => Unary::Neg,
    }
}

// The calculation at a place among the eight.
fn calc_of(place: u64) -> Calc
    requires { place ≤ 7 }
    ensures { calculation result ≡ get_or calcs place add }
{
    match place {
        0 => Calc::Add,
        1 => Calc::Sub,
        2 => Calc::Mul,
        3 => Calc::Div,
        4 => Calc::Rem,
        5 => Calc::Lt,
        6 => Calc::Le,
        _ => Calc::Eq,
    }
}

// The window's fold at a place among the three.
fn fold_of(place: u64) -> Fold
    requires { place ≤ 2 }
    ensures { folding result ≡ get_or folds place wsum }
{
    match place {
        0 => Fold::Sum,
        1 => Fold::Least,
        _ => Fold::Greatest,
    }
}

fn binary_of(n: u64) -> Binary
    requires { (8 ≤ n) × (n ≤ 17) }
    ensures { (a b : ℕ) (k : ℤ) → two (binary result) a b ≡ eqn_of n a b k }
{
    match n {
        16 => Binary::Keep,
        17 => Binary::Merge,
        _ => {
            let g = calc_of(n - 8);
            Binary::Arith(g)
        }
    }
}

// The first argument of an operator; 0 if it uses none.
pub fn first(op: Op) -> u8
    ensures { result ≡ arg_a (equation op) }
{
    match op {
        Op::In | Op::Nil | Op::Unit => 0,
        Op::One(_, a)
        | Op::Two(_, a, _)
        | Op::Last(a, _)
        | Op::Delay(a, _)
        | Op::Signal(_, a, _)
        | Op::Window(_, _, a) => a,
    }
}

// The second argument of an operator; 0 if it uses none.
pub fn second(op: Op) -> u8
    ensures { result ≡ arg_b (equation op) }
{
    match op {
        Op::In | Op::Nil | Op::Unit | Op::One(_, _) | Op::Window(_, _, _) => 0,
        Op::Two(_, _, b) | Op::Last(_, b) | Op::Delay(_, b) | Op::Signal(_, _, b) => b,
    }
}

// The bound of a record, at most the horizon.
pub fn bound_of(r: &[u8]) -> u64
    requires { length r.now ≡ 256 }
    ensures { (result ≡ (look_of (dec_raw r.now)).bound) × (result ≤ horizon) }
{
    layout::word_at(r, layout::BOUND).min(Bound::HORIZON)
}

// The operator of a record: ranges of the stored number choose the group, and only what the group uses is read.
pub fn operator_at(r: &[u8]) -> Op
    requires { length r.now ≡ 256 }
    ensures { equation result ≡ (look_of (dec_raw r.now)).eqn }
{
    let n = layout::byte_at(r, layout::OP);
    match n {
        1 => Op::In,
        3 => Op::Unit,
        4..=7 => {
            let f = unary_at(r, n);
            let a = layout::byte_at(r, layout::A);
            Op::One(f, a as u8)
        }
        8..=17 => {
            let g = binary_of(n);
            let a = layout::byte_at(r, layout::A);
            let b = layout::byte_at(r, layout::B);
            Op::Two(g, a as u8, b as u8)
        }
        18 => {
            let a = layout::byte_at(r, layout::A);
            let b = layout::byte_at(r, layout::B);
            Op::Last(a as u8, b as u8)
        }
        19 => {
            let a = layout::byte_at(r, layout::A);
            let b = layout::byte_at(r, layout::B);
            Op::Delay(a as u8, b as u8)
        }
        20..=27 => {
            let g = calc_of(n - 20);
            let a = layout::byte_at(r, layout::A);
            let b = layout::byte_at(r, layout::B);
            Op::Signal(g, a as u8, b as u8)
        }
        28..=30 => {
            let f = fold_of(n - 28);
            let k = num::of_bits(layout::word_at(r, layout::K));
            let a = layout::byte_at(r, layout::A);
            Op::Window(f, k, a as u8)
        }
        _ => Op::Nil,
    }
}

// A stored value that may be absent.
fn optional(has: u64, bits: u64) -> Option<i64>
    ensures { result ≡ cells.optional has bits }
{
    if has == 0 {
        return None;
    }
    Some(num::of_bits(bits))
}

// The value that a record keeps: whether it is there in byte f, its bits in word w.
fn value_at(r: &[u8], f: usize, w: usize) -> Option<i64>
    requires { (length r.now ≡ 256) × (f < 8) × (w < 7) }
    ensures { result ≡ cells.optional (num f (dec_raw r.now)) (num (8 + w) (dec_raw r.now)) }
{
    optional(layout::byte_at(r, f), layout::word_at(r, w))
}

// Nothing is kept.
fn nothing() -> Kept
    ensures { kept_in result ≡ no_kept }
{
    Kept {
        prev: None,
        prevb: None,
        since: 0,
        value: None,
        prior: None,
    }
}

// The latest values of its arguments that a last (one) or a signal form (both) keeps.
fn latest(prev: Option<i64>, prevb: Option<i64>) -> Kept
    ensures { kept_in result ≡ with_prev prev (with_prev_b prevb no_kept) }
{
    Kept {
        prev,
        prevb,
        since: 0,
        value: None,
        prior: None,
    }
}

// What the record of a stream with this operator keeps, with a set point at most the bound. What a window keeps lies elsewhere.
fn kept_at(r: &[u8], op: Op, bound: u64) -> Kept
    requires { (length r.now ≡ 256) × (equation op ≡ (look_of (dec_raw r.now)).eqn) × (bound ≡ (look_of (dec_raw r.now)).bound) }
    ensures { kept_in result ≡ (look_of (dec_raw r.now)).kept }
{
    match op {
        Op::Last(_, _) => {
            let prev = value_at(r, layout::FLAG, layout::KEPT);
            latest(prev, None)
        }
        Op::Delay(_, _) => {
            let since = layout::word_at(r, layout::KEPT).min(bound);
            let value = value_at(r, layout::FLAG, layout::VALUE);
            let prior = value_at(r, layout::PRIOR_FLAG, layout::PRIOR);
            Kept {
                prev: None,
                prevb: None,
                since,
                value,
                prior,
            }
        }
        Op::Signal(_, _, _) => {
            let prev = value_at(r, layout::FLAG, layout::KEPT);
            let prevb = value_at(r, layout::PRIOR_FLAG, layout::VALUE);
            latest(prev, prevb)
        }
        Op::In | Op::Nil | Op::Unit | Op::One(_, _) | Op::Two(_, _, _) | Op::Window(_, _, _) => {
            nothing()
        }
    }
}

// The stream of a record whose operator and bound are read.
pub fn complete(r: &[u8], op: Op, bound: u64) -> Stream
    requires { (length r.now ≡ 256) × (equation op ≡ (look_of (dec_raw r.now)).eqn) × (bound ≡ (look_of (dec_raw r.now)).bound) }
    ensures { Is result (dec_raw r.now) }
{
    let kept = kept_at(r, op, bound);
    Stream { op, bound, kept }
}

// The stream of a record.
pub fn stream_at(r: &[u8]) -> Stream
    requires { length r.now ≡ 256 }
    ensures { Is result (dec_raw r.now) }
{
    let op = operator_at(r);
    let bound = bound_of(r);
    complete(r, op, bound)
}

// A stream with the bounds of its arguments, in a and b.
pub fn beside(s: Stream, a: &[u8], b: &[u8]) -> Look
    requires { Bounded s × (length a.now ≡ 256) × (length b.now ≡ 256) }
    ensures { (result.stream ≡ s) × (result.abound ≡ (look_of (dec_raw a.now)).bound) × (result.bbound ≡ (look_of (dec_raw b.now)).bound) × Within result }
{
    let abound = bound_of(a);
    let bbound = bound_of(b);
    Look {
        stream: s,
        abound,
        bbound,
    }
}
