// What a move counts: at how many of the stamps that its bound passes an event is missing, and why. Of all equations but windows,
// for which nil stands here: crates/windows has theirs.
#![tactic(auto)]

ghost use Rattle.std.specs.Prelude.{◌≡◌, cond, ◌&&◌, not, false, true, [], suc, ◌+◌, ◌≤◌, ◌<◌, ◌^◌, length};
ghost use Rattle.meaning.specs.Events.{found, has, horizon};
ghost use Rattle.meaning.specs.Missing.{Reason, said_for, signal_says};
ghost use Rattle.machine.specs.Reach as machine;
ghost use Rattle.machine.specs.Counting.{tally_of};
ghost use Rattle.machine.specs.Step.{drop_below};
ghost use Rattle.machine.specs.State.{room};
ghost use Rattle.machine.specs.Windows.{take_below};
ghost use Rattle.layout.specs.Record.{enc_raw, dec_raw};
ghost use Rattle.encoding.specs.Back.{held_of};
ghost use Rattle.apply.specs.Named.{calculation};
ghost use Rattle.apply.specs.Lack.{lack_for};
ghost use Rattle.events.specs.Near.{holding};
ghost use Rattle.counting.specs.Tally.{count_in, hears_in, asked_in, tallied_in, counted_row};

use apply::Calc;
use limits::Count;
use num::Reason;
use streams::{Kept, Op};

// At how many stamps an event is missing, by the reason.
#[derive(Clone, Copy)]
pub struct Tally {
    pub outside: u64,
    pub divisors: u64,
}

// 2^32, which parts the two counts of a record.
const BASE: u64 = 0x1_0000_0000;

// At none.
fn none() -> Tally
    ensures { (q : Reason) → count_in q result ≡ 0 }
{
    Tally {
        outside: 0,
        divisors: 0,
    }
}

// One stamp more.
fn more(c: Tally, x: Option<Reason>) -> Tally
    requires { (c.outside < 2 ^ 32) × (c.divisors < 2 ^ 32) }
    ensures { ((q : Reason) → count_in q result ≡ cond (lack_for q x) (suc (count_in q c)) (count_in q c)) × (result.outside ≤ c.outside + 1) × (result.divisors ≤ c.divisors + 1) }
{
    match x {
        None => c,
        Some(Reason::Outside) => Tally {
            outside: c.outside + 1,
            ..c
        },
        Some(Reason::ZeroDivisor) => Tally {
            divisors: c.divisors + 1,
            ..c
        },
    }
}

// sadd to seq: if either argument has an event at t, why there is no value of what both had latest at t or before, held or kept.
fn signal_lack(g: Calc, k: Kept, a: &[u8], b: &[u8], t: u64) -> Option<Reason>
    requires { (length a.now ≡ 256) × (length b.now ≡ 256) × (t ≤ horizon) }
    ensures { (q : Reason) → lack_for q result ≡ said_for q (signal_says (calculation g) (found (held_of (dec_raw a.now)) t) (found (held_of (dec_raw b.now)) t) (machine.held_latest (holding a.now) (suc t) k.prev) (machine.held_latest (holding b.now) (suc t) k.prevb)) }
{
    let x = queue::find(a, t);
    let y = queue::find(b, t);
    if x.is_none() && y.is_none() {
        return None;
    }
    let v = events::held_latest(a, t + 1, k.prev);
    let w = events::held_latest(b, t + 1, k.prevb);
    apply::calc_lack(g, v, w)
}

// Why an equation with this operator, that keeps k, has no event at t.
fn lack_at(op: Op, k: Kept, a: &[u8], b: &[u8], t: u64) -> Option<Reason>
    requires { (length a.now ≡ 256) × (length b.now ≡ 256) × (t ≤ horizon) }
    ensures { (q : Reason) → lack_for q result ≡ said_for q (hears_in op k a.now b.now t) }
{
    match op {
        Op::In | Op::Nil | Op::Unit | Op::Last(_, _) | Op::Delay(_, _) | Op::Window(_, _, _) =>
            None,
        Op::One(f, _) => apply::one_lack(f, queue::find(a, t)),
        Op::Two(g, _, _) => {
            let x = queue::find(a, t);
            let y = queue::find(b, t);
            apply::two_lack(g, x, y)
        }
        Op::Signal(g, _, _) => signal_lack(g, k, a, b, t),
    }
}

// The same; if only stamps at which a has no event are asked for, nothing where it has one.
fn lack_beside(second: bool, op: Op, k: Kept, a: &[u8], b: &[u8], t: u64) -> Option<Reason>
    requires { (length a.now ≡ 256) × (length b.now ≡ 256) × (t ≤ horizon) }
    ensures { (q : Reason) → lack_for q result ≡ asked_in q second op k a.now b.now t }
{
    if second && queue::find(a, t).is_some() {
        return None;
    }
    lack_at(op, k, a, b, t)
}

// Whether a record holds no event from y on and below x, as the first that is not below y tells.
pub fn passes_none(r: &[u8], y: u64, x: u64) -> bool
    requires { length r.now ≡ 256 }
    ensures { result ≡ true → take_below x (drop_below y (held_of (dec_raw r.now))) ≡ [] }
{
    let n = queue::count(r);
    let i = queue::first_from(r, n, y);
    if i == n {
        return true;
    }
    x <= layout::stamp_at(r, i)
}

// Over the held events of a record from y on and below x.
fn tally_held(
    second: bool,
    op: Op,
    k: Kept,
    a: &[u8],
    b: &[u8],
    held: &[u8],
    y: u64,
    x: u64,
) -> Tally
    requires { (length a.now ≡ 256) × (length b.now ≡ 256) × (length held.now ≡ 256) }
    ensures { ((q : Reason) → count_in q result ≡ tally_of (asked_in q second op k a.now b.now) (take_below x (drop_below y (held_of (dec_raw held.now))))) × (result.outside ≤ room) × (result.divisors ≤ room) }
{
    let n = queue::count(held);
    let first = queue::first_from(held, n, y);
    let mut c = none();
    for i in first..n {
        let t = layout::stamp_at(held, i);
        if x <= t {
            return c;
        }
        let lack = lack_beside(second, op, k, a, b, t);
        c = more(c, lack);
    }
    c
}

// Both: a signal form has something to work on where either argument holds an event.
fn tally_both(op: Op, k: Kept, a: &[u8], b: &[u8], y: u64, x: u64) -> Tally
    requires { (length a.now ≡ 256) × (length b.now ≡ 256) }
    ensures { ((q : Reason) → count_in q result ≡ tally_of (asked_in q false op k a.now b.now) (take_below x (drop_below y (held_of (dec_raw a.now)))) + tally_of (asked_in q true op k a.now b.now) (take_below x (drop_below y (held_of (dec_raw b.now))))) × (result.outside ≤ room + room) × (result.divisors ≤ room + room) }
{
    let first = tally_held(false, op, k, a, b, a, y, x);
    let second = tally_held(true, op, k, a, b, b, y, x);
    Tally {
        outside: first.outside + second.outside,
        divisors: first.divisors + second.divisors,
    }
}

// At how many stamps from y on and below x an event of an equation with this operator, that keeps k, is missing.
pub fn missed(op: Op, k: Kept, a: &[u8], b: &[u8], y: u64, x: u64) -> Tally
    requires { (length a.now ≡ 256) × (length b.now ≡ 256) }
    ensures { ((q : Reason) → count_in q result ≡ tallied_in q op k a.now b.now y x) × (result.outside ≤ room + room) × (result.divisors ≤ room + room) }
{
    match op {
        Op::In | Op::Nil | Op::Unit | Op::Last(_, _) | Op::Delay(_, _) | Op::Window(_, _, _) =>
            none(),
        Op::One(_, _) | Op::Two(_, _, _) => tally_held(false, op, k, a, b, a, y, x),
        Op::Signal(_, _, _) => tally_both(op, k, a, b, y, x),
    }
}

// Adds to the counts of a record; each stops at the limit.
pub fn add(r: &mut [u8], outside: u64, divisors: u64)
    requires { length r.old ≡ 256 }
    ensures { r.new ≡ enc_raw (counted_row outside divisors (dec_raw r.old)) }
{
    let both = layout::word_at(r, layout::COUNTS);
    let low = Count::new(both % BASE).plus(outside);
    let high = Count::new(both / BASE).plus(divisors);
    layout::put_word(r, layout::COUNTS, low + high * BASE);
}
