// The queue of a stream, where it lies in its record: an event appended, how many there are, the first not below a stamp, the
// oldest dropped, and searches.
#![tactic(auto)]

ghost use Rattle.std.specs.Prelude.{◌≡◌, ◌≤◌, min, length};
ghost use Rattle.meaning.specs.Events.{found};
ghost use Rattle.meaning.specs.Table.{latest};
ghost use Rattle.machine.specs.State.{room};
ghost use Rattle.machine.specs.Reach.{past_latest};
ghost use Rattle.layout.specs.Record as layout;
ghost use Rattle.layout.specs.Record.{enc_raw, dec_raw};
ghost use Rattle.encoding.specs.Back.{held_of};
ghost use Rattle.queue.specs.Latest.{passed};
ghost use Rattle.queue.specs.Queue.{pushed, below, shed, released};

use limits::{Bound, Queue};

// How many events a record holds: never more than there is room for.
pub fn count(r: &[u8]) -> usize
    requires { length r.now ≡ 256 }
    ensures { (result ≡ min (layout.num layout.count_f (dec_raw r.now)) room) × (result ≤ room) }
{
    Queue::new(layout::byte_at(r, layout::COUNT)).length()
}

// Puts the event (t, v) after the held ones of a record, and its bound past it. A full record stays as it is.
pub fn append(r: &mut [u8], t: u32, v: u64)
    requires { length r.old ≡ 256 }
    ensures { r.new ≡ enc_raw (pushed t v (dec_raw r.old)) }
{
    let n = layout::byte_at(r, layout::COUNT);
    if Queue::new(n).is_full() {
        return;
    }
    layout::put_slot(r, n as usize, t as u64, v);
    layout::put_byte(r, layout::COUNT, n + 1);
    layout::put_word(r, layout::BOUND, Bound::past(t).stamp);
}

// The first of the first n slots that is not below w, or n.
pub fn first_from(r: &[u8], n: usize, w: u64) -> usize
    requires { (length r.now ≡ 256) × (n ≤ room) }
    ensures { (result ≡ below w n (dec_raw r.now).slots) × (result ≤ n) }
{
    for i in 0..n {
        if w <= layout::stamp_at(r, i) {
            return i;
        }
    }
    n
}

// Drops the k oldest held events.
pub fn drop_first(r: &mut [u8], k: usize)
    requires { (length r.old ≡ 256) × (k ≤ min (layout.num layout.count_f (dec_raw r.old)) room) }
    ensures { r.new ≡ enc_raw (shed k (dec_raw r.old)) }
{
    let n = layout::byte_at(r, layout::COUNT);
    let m = count(r);
    layout::drop_slots(r, k, m);
    layout::put_byte(r, layout::COUNT, n - k as u64);
}

// Drops the held events below w.
pub fn drop_below(r: &mut [u8], w: u64)
    requires { length r.old ≡ 256 }
    ensures { r.new ≡ enc_raw (released w (dec_raw r.old)) }
{
    let m = count(r);
    let k = first_from(r, m, w);
    if k == 0 {
        return;
    }
    drop_first(r, k);
}

// The value of the held event at stamp t.
pub fn find(r: &[u8], t: u64) -> Option<i64>
    requires { length r.now ≡ 256 }
    ensures { result ≡ found (held_of (dec_raw r.now)) t }
{
    let n = count(r);
    for i in 0..n {
        let stamp = layout::stamp_at(r, i);
        if stamp == t {
            return Some(num::of_bits(layout::value_at(r, i)));
        }
    }
    None
}

// One past the stamp, if that is below t and past the best so far.
fn later(t: u64, stamp: u64, best: u64) -> u64
    ensures { result ≡ passed t stamp best }
{
    if t <= stamp {
        return best;
    }
    if best <= stamp {
        return stamp + 1;
    }
    best
}

// One past the latest held event below t; 0 if there is none.
pub fn past_latest(r: &[u8], t: u64) -> u64
    requires { length r.now ≡ 256 }
    ensures { result ≡ past_latest (found (held_of (dec_raw r.now))) t }
{
    let n = count(r);
    let mut best: u64 = 0;
    let mut i = n;
    while 0 < i {
        i -= 1;
        let stamp = layout::stamp_at(r, i);
        best = later(t, stamp, best);
    }
    best
}

// The value of the latest held event strictly before t.
pub fn latest_before(r: &[u8], t: u64) -> Option<i64>
    requires { length r.now ≡ 256 }
    ensures { result ≡ latest (found (held_of (dec_raw r.now))) t }
{
    let z = past_latest(r, t);
    if z == 0 {
        return None;
    }
    find(r, z - 1)
}
