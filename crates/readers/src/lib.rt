// One step on bytes: an event appended, the readers told, and what nobody waits for let go.
#![tactic(auto)]

ghost use Rattle.std.specs.Prelude.{◌≡◌, ◌*◌, ◌+◌, ◌≤◌, ◌<◌, length};
ghost use Rattle.layout.specs.Record as layout;
ghost use Rattle.layout.specs.Record.{enc_raw, dec_raw, encode, decode, change_all, num, op_f};
ghost use Rattle.operators.specs.Operators.{group_of};
ghost use Rattle.machine.specs.Step.{least_reader};
ghost use Rattle.encoding.specs.Back.{state_of};
ghost use Rattle.readers.specs.Step.{reads_row, told_last, told_at, set_point, told_since, told_delay, told_row, last_reader, waits_before, waiting_row, released_row, offered};

use limits::Bound;
use operators::Group;

// The group of a record's operator.
fn group_at(r: &[u8]) -> Group
    requires { length r.now ≡ 256 }
    ensures { result ≡ group_of (num op_f (dec_raw r.now)) }
{
    operators::group_of(layout::byte_at(r, layout::OP))
}

// Whether a record reads stream s. Most records have s in neither place, and their operator is not looked at.
pub fn reads(r: &[u8], s: u64) -> bool
    requires { length r.now ≡ 256 }
    ensures { result ≡ reads_row s (dec_raw r.now) }
{
    let a = layout::byte_at(r, layout::A);
    if a == s {
        return operators::takes_first(group_at(r));
    }
    let b = layout::byte_at(r, layout::B);
    if b == s {
        return operators::takes_second(group_at(r));
    }
    false
}

// A last keeps the value of its first argument's event.
fn tell_last(r: &mut [u8], s: u64, v: u64)
    requires { length r.old ≡ 256 }
    ensures { r.new ≡ enc_raw (told_last s v (dec_raw r.old)) }
{
    let a = layout::byte_at(r, layout::A);
    if a != s {
        return;
    }
    layout::put_byte(r, layout::FLAG, 1);
    layout::put_word(r, layout::KEPT, v);
}

// A delay keeps its first argument's event at the time that word due is one past: that it is there in byte f, its value in
// word w.
fn tell_kept(r: &mut [u8], due: usize, f: usize, w: usize, s: u64, t: u32, v: u64)
    requires { (length r.old ≡ 256) × (due < 7) × (f < 8) × (w < 7) }
    ensures { r.new ≡ enc_raw (told_at (8 + due) f (8 + w) s t v (dec_raw r.old)) }
{
    let a = layout::byte_at(r, layout::A);
    if a != s {
        return;
    }
    let past = layout::word_at(r, due);
    if past != t as u64 + 1 {
        return;
    }
    layout::put_byte(r, f, 1);
    layout::put_word(r, w, v);
}

// A delay's latest set point is at t: whether its first argument has an event there, and its value.
fn put_point(r: &mut [u8], t: u32, has: u64, v: u64)
    requires { (length r.old ≡ 256) × (has < 256) }
    ensures { r.new ≡ enc_raw (set_point t has v (dec_raw r.old)) }
{
    layout::put_byte(r, layout::FLAG, has);
    layout::put_word(r, layout::VALUE, v);
    layout::put_word(r, layout::KEPT, t as u64 + 1);
}

// A delay has a set point at t, the latest unless a later one is known. Just below its bound its first argument's event is
// its prior, elsewhere it is not known.
fn tell_since(r: &mut [u8], s: u64, t: u32)
    requires { length r.old ≡ 256 }
    ensures { r.new ≡ enc_raw (told_since s t (dec_raw r.old)) }
{
    let b = layout::byte_at(r, layout::B);
    if b != s {
        return;
    }
    let since = layout::word_at(r, layout::KEPT);
    if (t as u64) < since {
        return;
    }
    let bound = layout::word_at(r, layout::BOUND);
    if bound != t as u64 + 1 {
        put_point(r, t, 0, 0);
        return;
    }
    let has = layout::byte_at(r, layout::PRIOR_FLAG);
    let v = layout::word_at(r, layout::PRIOR);
    put_point(r, t, has, v);
}

// A delay's value is told at its latest set point, its prior just below its bound.
fn tell_delay(r: &mut [u8], s: u64, t: u32, v: u64)
    requires { length r.old ≡ 256 }
    ensures { r.new ≡ enc_raw (told_delay s t v (dec_raw r.old)) }
{
    tell_kept(r, layout::KEPT, layout::FLAG, layout::VALUE, s, t, v);
    tell_kept(r, layout::BOUND, layout::PRIOR_FLAG, layout::PRIOR, s, t, v);
    tell_since(r, s, t);
}

// Tells a record that stream s has the event (t, v): a last or a delay. A signal form and a window are never told, since their
// bounds are never above an argument's.
fn tell(r: &mut [u8], s: u64, t: u32, v: u64)
    requires { length r.old ≡ 256 }
    ensures { r.new ≡ enc_raw (told_row s t v (dec_raw r.old)) }
{
    match group_at(r) {
        Group::Last => {
            if (t as u64) < layout::word_at(r, layout::BOUND) {
                tell_last(r, s, v);
            }
        }
        Group::Delay => {
            if (t as u64) < layout::word_at(r, layout::BOUND) {
                tell_delay(r, s, t, v);
            }
        }
        _ => {}
    }
}

// Tells each of the n records that stream s has the event (t, v).
pub fn tell_all(state: &mut [u8], n: usize, s: u64, t: u32, v: u64)
    requires { n * 256 ≤ length state.old }
    ensures { state.new ≡ encode n (change_all (told_row s t v) (decode n state.old)) }
{
    for i in 0..n {
        let at = i * layout::RECORD;
        let end = at + layout::RECORD;
        tell(&mut state[at..end], s, t, v);
    }
}

// One past the last of the n records that reads stream s; 0 if none does.
pub fn last_reader(state: &[u8], n: usize, s: u64) -> usize
    requires { n * 256 ≤ length state.now }
    ensures { (result ≡ last_reader s (decode n state.now).rows n) × (result ≤ n) }
{
    for i in (0..n).rev() {
        if reads(layout::row_at(state, i), s) {
            return i + 1;
        }
    }
    0
}

// Whether the record before record i waits for an event at t. Before the first there is none.
fn waits_before(state: &[u8], n: usize, i: usize, t: u64) -> bool
    requires { (n * 256 ≤ length state.now) × (i ≤ n) }
    ensures { result ≡ waits_before i t (decode n state.now).rows }
{
    if i == 0 {
        return false;
    }
    let bound = layout::word_at(layout::row_at(state, i - 1), layout::BOUND);
    bound <= t
}

// The least bound of the readers of stream s, the horizon if no stream reads it: from the last reader, before record last, to the
// first.
fn least_reader(state: &[u8], n: usize, s: u64, last: usize) -> u64
    requires { (n * 256 ≤ length state.now) × (last ≡ last_reader s (decode n state.now).rows n) }
    ensures { result ≡ least_reader s (state_of n state.now) }
{
    let mut least = Bound::HORIZON;
    let mut i = last;
    while 0 < i {
        let bound = layout::word_at(layout::row_at(state, i - 1), layout::BOUND);
        least = bound.min(least);
        i = last_reader(state, i - 1, s);
    }
    least
}

// The least bound of a record's readers, with collection of an output as one reader more.
fn waiting(r: &[u8], least: u64) -> u64
    requires { length r.now ≡ 256 }
    ensures { result ≡ waiting_row least (dec_raw r.now) }
{
    let out = layout::byte_at(r, layout::OUT);
    if out == 0 {
        return least;
    }
    let next = layout::word_at(r, layout::NEXT);
    next.min(least)
}

// Lets go what nobody waits for of stream i, whose last reader is the record before last: the least bound of the readers is worked
// out once, for all held events.
pub fn release_below(state: &mut [u8], n: usize, i: usize, last: usize)
    requires { (n * 256 ≤ length state.old) × (i < n) × (last ≡ last_reader i (decode n state.old).rows n) }
    ensures { state.new ≡ encode n (released_row i (decode n state.old)) }
{
    let least = least_reader(state, n, i as u64, last);
    let w = waiting(layout::row_at(state, i), least);
    let at = i * layout::RECORD;
    let end = at + layout::RECORD;
    queue::drop_below(&mut state[at..end], w);
}

// Lets go what nobody waits for of stream i. Nothing is let go while nothing is held, or while the last reader waits for the oldest
// event: in a run that one moves last, so most releases end there.
pub fn release_row(state: &mut [u8], n: usize, i: usize)
    requires { (n * 256 ≤ length state.old) × (i < n) }
    ensures { state.new ≡ encode n (released_row i (decode n state.old)) }
{
    let r = layout::row_at(state, i);
    let count = layout::byte_at(r, layout::COUNT);
    if count == 0 {
        return;
    }
    let last = last_reader(state, n, i as u64);
    let first = layout::stamp_at(r, 0);
    if waits_before(state, n, last, first) {
        return;
    }
    release_below(state, n, i, last);
}

// Appends the event (t, v) to stream i, tells its readers, and lets go what nobody waits for.
pub fn offer(state: &mut [u8], n: usize, i: usize, t: u32, v: u64)
    requires { (n * 256 ≤ length state.old) × (i < n) }
    ensures { state.new ≡ encode n (offered i t v (decode n state.old)) }
{
    let at = i * layout::RECORD;
    let end = at + layout::RECORD;
    queue::append(&mut state[at..end], t, v);
    tell_all(state, n, i as u64, t, v);
    release_row(state, n, i);
}
