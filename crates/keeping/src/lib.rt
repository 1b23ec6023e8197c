// A moved stream's own kept data: brought up to date from the held events, and stored in its record.
#![tactic(auto)]

ghost use Rattle.std.specs.Prelude.{◌≡◌, ◌+◌, ◌≤◌, ◌<◌, ◌^◌, List, length};
ghost use Rattle.meaning.specs.Plan.{Calc, last, delay, signal};
ghost use Rattle.meaning.specs.Events.{Event};
ghost use Rattle.machine.specs.State.{Cell};
ghost use Rattle.machine.specs.Step as machine;
ghost use Rattle.layout.specs.Record.{enc_raw, dec_raw};
ghost use Rattle.encoding.specs.View.{flag_of, bits_of};
ghost use Rattle.streams.specs.Look.{look_of, equation, kept_in};
ghost use Rattle.events.specs.Near.{holding};
ghost use Rattle.keeping.specs.Keep.{moved_cell, moved_of, value_kept, delay_kept, signal_kept, kept_row};

use streams::{Kept, Op};

// last: the first argument's latest event below the bound y, held or kept.
fn absorb_last(k: Kept, y: u64, a: &[u8]) -> Kept
    requires { length a.now ≡ 256 }
    ensures { (es : List Event) (b : Cell) → kept_in result ≡ machine.absorb (last 0 0) (moved_cell y es (kept_in k)) (holding a.now) b }
{
    Kept {
        prev: events::held_latest(a, y, k.prev),
        ..k
    }
}

// A signal form: the latest event of each argument below the bound y, held or kept.
fn absorb_signal(k: Kept, y: u64, a: &[u8], b: &[u8]) -> Kept
    requires { (length a.now ≡ 256) × (length b.now ≡ 256) }
    ensures { (c : Calc) (es : List Event) → kept_in result ≡ machine.absorb (signal c 0 0) (moved_cell y es (kept_in k)) (holding a.now) (holding b.now) }
{
    let prev = events::held_latest(a, y, k.prev);
    let prevb = events::held_latest(b, y, k.prevb);
    Kept { prev, prevb, ..k }
}

// delay: one past the latest set point below the bound y: kept, an event of b, or one of its own.
fn latest_point(k: Kept, y: u64, o: &[u8], b: &[u8]) -> u64
    requires { (length o.now ≡ 256) × (length b.now ≡ 256) }
    ensures { result ≡ machine.later (moved_of k y o.now) (holding b.now) }
{
    let reset = queue::past_latest(b, y);
    let own = queue::past_latest(o, y);
    k.since.max(reset.max(own))
}

// delay: its latest set point, the first argument's event there, and that just below the bound y.
fn absorb_delay(k: Kept, y: u64, o: &[u8], a: &[u8], b: &[u8]) -> Kept
    requires { (length o.now ≡ 256) × (length a.now ≡ 256) × (length b.now ≡ 256) }
    ensures { kept_in result ≡ machine.absorb (delay 0 0) (moved_of k y o.now) (holding a.now) (holding b.now) }
{
    let since = latest_point(k, y, o, b);
    let prior = queue::find(a, y.saturating_sub(1));
    let value = if since == 0 {
        None
    } else {
        events::set_value(k, a, since)
    };
    Kept {
        since,
        value,
        prior,
        ..k
    }
}

// What a stream with this operator, that kept k, keeps once its bound is y: brought up to date from its arguments' held
// events in a and b, and its own in o.
pub fn absorbed(op: Op, k: Kept, y: u64, o: &[u8], a: &[u8], b: &[u8]) -> Kept
    requires { (length o.now ≡ 256) × (length a.now ≡ 256) × (length b.now ≡ 256) }
    ensures { kept_in result ≡ machine.absorb (equation op) (moved_of k y o.now) (look_of (dec_raw a.now)) (look_of (dec_raw b.now)) }
{
    match op {
        Op::In | Op::Nil | Op::Unit | Op::One(_, _) | Op::Two(_, _, _) | Op::Window(_, _, _) => k,
        Op::Last(_, _) => absorb_last(k, y, a),
        Op::Delay(_, _) => absorb_delay(k, y, o, a, b),
        Op::Signal(_, _, _) => absorb_signal(k, y, a, b),
    }
}

// 1 if there is a value.
fn flag_of(x: Option<i64>) -> u64
    ensures { (result ≡ flag_of x) × (result ≤ 1) }
{
    u64::from(x.is_some())
}

// The bits of the value, 0 if there is none.
fn bits_of(x: Option<i64>) -> u64
    ensures { result ≡ bits_of x }
{
    match x {
        Some(v) => num::bits(v),
        None => 0,
    }
}

// Stores a value that may be absent: whether it is there in byte f, its bits in word w.
fn keep_value(r: &mut [u8], f: usize, w: usize, x: Option<i64>)
    requires { (length r.old ≡ 256) × (f < 8) × (w < 7) }
    ensures { (r.new ≡ enc_raw (value_kept f (8 + w) (flag_of x) (bits_of x) (dec_raw r.old))) × (flag_of x ≤ 1) × (bits_of x < 2 ^ 64) }
{
    layout::put_byte(r, f, flag_of(x));
    layout::put_word(r, w, bits_of(x));
}

// Stores what a delay keeps.
fn keep_delay(r: &mut [u8], k: Kept)
    requires { length r.old ≡ 256 }
    ensures { r.new ≡ enc_raw (delay_kept (kept_in k) (dec_raw r.old)) }
{
    layout::put_word(r, layout::KEPT, k.since);
    keep_value(r, layout::FLAG, layout::VALUE, k.value);
    keep_value(r, layout::PRIOR_FLAG, layout::PRIOR, k.prior);
}

// Stores what a signal form keeps.
fn keep_signal(r: &mut [u8], k: Kept)
    requires { length r.old ≡ 256 }
    ensures { r.new ≡ enc_raw (signal_kept (kept_in k) (dec_raw r.old)) }
{
    keep_value(r, layout::FLAG, layout::KEPT, k.prev);
    keep_value(r, layout::PRIOR_FLAG, layout::VALUE, k.prevb);
}

// Stores what a last, a delay or a signal form keeps in its record; those of other operators stay as they are.
pub fn keep(r: &mut [u8], op: Op, k: Kept)
    requires { length r.old ≡ 256 }
    ensures { r.new ≡ enc_raw (kept_row (equation op) (kept_in k) (dec_raw r.old)) }
{
    match op {
        Op::In | Op::Nil | Op::Unit | Op::One(_, _) | Op::Two(_, _, _) | Op::Window(_, _, _) => {}
        Op::Last(_, _) => keep_value(r, layout::FLAG, layout::KEPT, k.prev),
        Op::Delay(_, _) => keep_delay(r, k),
        Op::Signal(_, _, _) => keep_signal(r, k),
    }
}
