// A window on bytes: what its latest values and the held events of its argument fold to, where that first is a value, and how it
// slides. Values are worked on raised by 2^63, so that none is below 0: the controller has no wider type for a sum.
#![tactic(auto)]

ghost use Rattle.std.specs.Prelude.{◌≡◌, cond, [], ◌∷◌, ◌++◌, map, suc, ◌+◌, ◌-◌, ◌*◌, ◌/◌, ◌%◌, ◌^◌, ◌≤◌, ◌<◌, min, length, take, drop};
ghost use Rattle.std.specs.Int.{w64};
ghost use Rattle.std.proofs.Common.{to_z};
ghost use Rattle.num.specs.Arithmetic.{fit};
ghost use Rattle.meaning.specs.Events.{has};
ghost use Rattle.meaning.specs.Table.{latest_of, values, value_of, folded};
ghost use Rattle.machine.specs.State.{room};
ghost use Rattle.machine.specs.Step.{drop_below};
ghost use Rattle.machine.specs.Windows.{take_below, first_fit};
ghost use Rattle.machine.specs.Counting.{sum_tally};
ghost use Rattle.operators.specs.Limits.{width_limit};
ghost use Rattle.layout.specs.Record.{dec_raw};
ghost use Rattle.layout.specs.Windows.{window_length, enc_window, dec_window};
ghost use Rattle.encoding.specs.Back.{held_of};
ghost use Rattle.encoding.specs.View.{words_of};
ghost use Rattle.apply.specs.Named.{folding};
ghost use Rattle.windows.specs.Window.{kept, values_in, slot_words, raised, heights, lows, highs, better, best_of, total_of, fitted};

use apply::Fold;

// The sums of the lower and of the upper halves of raised values.
#[derive(Clone, Copy)]
struct Halves {
    low: u64,
    high: u64,
}

// 2^63, by which a value is raised, and 2^32, which parts its halves.
const HALF: u64 = 0x8000_0000_0000_0000;

const BASE: u64 = 0x1_0000_0000;

// The value with these bits, raised; and the bits of the value that is so much raised.
fn raise(bits: u64) -> u64
    ensures { result ≡ raised bits }
{
    if bits < HALF {
        bits + HALF
    } else {
        bits - HALF
    }
}

// One value more.
fn add(h: Halves, u: u64) -> Halves
    requires { (h.low < 2 ^ 62) × (h.high < 2 ^ 62) }
    ensures { (result.low ≡ h.low + u % 2 ^ 32) × (result.high ≡ h.high + u / 2 ^ 32) }
{
    Halves {
        low: h.low + u % BASE,
        high: h.high + u / BASE,
    }
}

// The sums of the halves of the words from i on, of the first n.
fn sum_words(w: &[u8], i: usize, n: usize) -> Halves
    requires { (length w.now ≡ window_length) × (i ≤ n) × (n ≤ width_limit) }
    ensures { (result.low ≡ lows (heights i n (dec_window w.now))) × (result.high ≡ highs (heights i n (dec_window w.now))) × (result.low ≤ (n - i) * 2 ^ 32) × (result.high ≤ (n - i) * 2 ^ 32) }
{
    let mut h = Halves { low: 0, high: 0 };
    for j in i..n {
        h = add(h, raise(layout::window_word(w, j)));
    }
    h
}

// The same, with the slots of a record from i on, of the first n.
fn sum_slots(a: &[u8], i: usize, n: usize, h: Halves) -> Halves
    requires { (length a.now ≡ 256) × (i ≤ n) × (n ≤ room) × (h.low ≤ width_limit * 2 ^ 32) × (h.high ≤ width_limit * 2 ^ 32) }
    ensures { (result.low ≡ h.low + lows (heights i n (slot_words (dec_raw a.now)))) × (result.high ≡ h.high + highs (heights i n (slot_words (dec_raw a.now)))) × (result.low < 2 ^ 62) × (result.high < 2 ^ 62) }
{
    let mut s = h;
    for j in i..n {
        s = add(s, raise(layout::value_at(a, j)));
    }
    s
}

// The sum of n values, one test for its range: none if it is outside.
fn total(h: Halves, n: u64) -> Option<i64>
    requires { (h.low < 2 ^ 62) × (h.high < 2 ^ 62) × (1 ≤ n) × (n ≤ width_limit + room) }
    ensures { result ≡ value_of (fit (total_of n h.low h.high)) }
{
    let high = h.high + h.low / BASE;
    let below = (n - 1) * (HALF / BASE);
    if high < below {
        return None;
    }
    let top = high - below;
    if BASE <= top {
        return None;
    }
    Some(num::of_bits(raise(top * BASE + h.low % BASE)))
}

// The greater or the lesser of two.
fn better_of(greater: bool, b: u64, u: u64) -> u64
    ensures { result ≡ better greater b u }
{
    if greater { b.max(u) } else { b.min(u) }
}

// The best of b and the words from i on, of the first n.
fn best_word(greater: bool, w: &[u8], i: usize, n: usize, b: u64) -> u64
    requires { (length w.now ≡ window_length) × (i ≤ n) × (n ≤ width_limit) }
    ensures { result ≡ best_of greater b (heights i n (dec_window w.now)) }
{
    let mut best = b;
    for j in i..n {
        best = better_of(greater, best, raise(layout::window_word(w, j)));
    }
    best
}

// The best of b and the values in the slots from i on, of the first n.
fn best_slot(greater: bool, a: &[u8], i: usize, n: usize, b: u64) -> u64
    requires { (length a.now ≡ 256) × (i ≤ n) × (n ≤ room) }
    ensures { result ≡ best_of greater b (heights i n (slot_words (dec_raw a.now))) }
{
    let mut best = b;
    for j in i..n {
        best = better_of(greater, best, raise(layout::value_at(a, j)));
    }
    best
}

// What a window tells of its words from i on, of the first n, and of the values in the slots of a from p on, of the first q.
fn fold_of(f: Fold, w: &[u8], i: usize, n: usize, a: &[u8], p: usize, q: usize) -> Option<i64>
    requires { (length w.now ≡ window_length) × (i ≤ n) × (n ≤ width_limit) × (length a.now ≡ 256) × (p < q) × (q ≤ room) }
    ensures { result ≡ value_of (folded (folding f) (values_in i n (dec_window w.now) ++ values_in p q (slot_words (dec_raw a.now)))) }
{
    match f {
        Fold::Sum => {
            let h = sum_words(w, i, n);
            let s = sum_slots(a, p, q, h);
            total(s, (n - i) as u64 + (q - p) as u64)
        }
        Fold::Least => {
            let b = best_word(false, w, i, n, u64::MAX);
            Some(num::of_bits(raise(best_slot(false, a, p, q, b))))
        }
        Fold::Greatest => {
            let b = best_word(true, w, i, n, 0);
            Some(num::of_bits(raise(best_slot(true, a, p, q, b))))
        }
    }
}

// What a window of k values that keeps n of them tells once the values in the slots of a from p on, of the first q, are in it.
fn value(f: Fold, k: usize, w: &[u8], n: usize, a: &[u8], p: usize, q: usize) -> Option<i64>
    requires { (1 ≤ k) × (length w.now ≡ window_length) × (n ≤ width_limit) × (length a.now ≡ 256) × (p < q) × (q ≤ room) }
    ensures { result ≡ value_of (folded (folding f) (latest_of k (kept n w.now ++ values_in p q (slot_words (dec_raw a.now))))) }
{
    let all = n + (q - p);
    if all <= k {
        return fold_of(f, w, 0, n, a, p, q);
    }
    let old = all - k;
    if old <= n {
        return fold_of(f, w, old, n, a, p, q);
    }
    fold_of(f, w, n, n, a, p + (old - n), q)
}

// The first held event of a, from stamp y on and below hi, at which a window of k values that keeps n of them gives a value.
pub fn find(f: Fold, k: usize, w: &[u8], n: usize, a: &[u8], y: u64, hi: u64) -> Option<(u32, i64)>
    requires { (1 ≤ k) × (length w.now ≡ window_length) × (n ≤ width_limit) × (length a.now ≡ 256) }
    ensures { fitted hi result ≡ first_fit (folding f) k hi (kept n w.now) (drop_below y (held_of (dec_raw a.now))) }
{
    let count = queue::count(a);
    let first = queue::first_from(a, count, y);
    for i in first..count {
        let stamp = layout::stamp_at(a, i);
        if hi <= stamp {
            return None;
        }
        let x = value(f, k, w, n, a, first, i + 1);
        if let Some(v) = x {
            return Some((stamp as u32, v));
        }
    }
    None
}

// One more, if there is no value.
fn lacking(c: usize, v: Option<i64>) -> usize
    requires { c < room }
    ensures { (result ≡ cond (has v) c (suc c)) × (result ≤ c + 1) }
{
    match v {
        Some(_) => c,
        None => c + 1,
    }
}

// At how many held events of a, from stamp y on and below x, the sum of a window of k values that keeps n of them has no value.
pub fn missing(k: usize, w: &[u8], n: usize, a: &[u8], y: u64, x: u64) -> usize
    requires { (1 ≤ k) × (length w.now ≡ window_length) × (n ≤ width_limit) × (length a.now ≡ 256) }
    ensures { (result ≡ sum_tally k x (kept n w.now) (drop_below y (held_of (dec_raw a.now)))) × (result ≤ room) }
{
    let count = queue::count(a);
    let first = queue::first_from(a, count, y);
    let mut c = 0;
    for i in first..count {
        let stamp = layout::stamp_at(a, i);
        if x <= stamp {
            return c;
        }
        let v = value(Fold::Sum, k, w, n, a, first, i + 1);
        c = lacking(c, v);
    }
    c
}

// One value more into a window of k values that keeps n of them; the oldest goes where it keeps k. Answers how many it keeps then.
fn push(w: &mut [u8], k: usize, n: usize, v: u64) -> usize
    requires { (length w.old ≡ window_length) × (1 ≤ k) × (k ≤ width_limit) × (n ≤ k) }
    ensures { (w.new ≡ enc_window (latest_of k (take n (dec_window w.old) ++ (v ∷ [])) ++ drop result (dec_window w.old))) × (result ≡ min (n + 1) k) }
{
    if n < k {
        layout::put_window_word(w, n, v);
        return n + 1;
    }
    layout::push_window_word(w, k, v);
    n
}

// The values of the held events of a, from stamp y on and below x, as words in the first places of v. Answers how many.
pub fn gather(a: &[u8], y: u64, x: u64, v: &mut [u64]) -> usize
    requires { (length a.now ≡ 256) × (length v.old ≡ room) }
    ensures { (map (to_z w64) (take result v.new) ≡ values (take_below x (drop_below y (held_of (dec_raw a.now))))) × (result ≤ room) }
{
    let count = queue::count(a);
    let first = queue::first_from(a, count, y);
    for i in first..count {
        if x <= layout::stamp_at(a, i) {
            return i - first;
        }
        v[i - first] = layout::value_at(a, i);
    }
    count - first
}

// The first c words of v into a window of k values that keeps n of them. Answers how many it keeps then.
pub fn slide(w: &mut [u8], k: usize, n: usize, v: &[u64], c: usize) -> usize
    requires { (length w.old ≡ window_length) × (1 ≤ k) × (k ≤ width_limit) × (n ≤ k) × (c ≤ length v.now) }
    ensures slid { w.new ≡ enc_window (words_of (latest_of k (kept n w.old ++ map (to_z w64) (take c v.now))) ++ drop result (dec_window w.old)) }
    ensures many { (result ≡ length (latest_of k (kept n w.old ++ map (to_z w64) (take c v.now)))) × (result ≤ k) }
{
    let mut m = n;
    for i in 0..c {
        m = push(w, k, m, v[i]);
    }
    m
}
