// The space test done otherwise, for the measurement alone: over all readers for every event, and by the least bound without a
// shortcut. Both leave the bytes that the engine's release leaves.
#![tactic(auto)]

ghost use Rattle.std.specs.Prelude.{◌≡◌, true, ◌*◌, ◌≤◌, ◌<◌, length};
ghost use Rattle.machine.specs.Waiting.{SomeReaderWaits};
ghost use Rattle.layout.specs.Record.{dec_raw, encode, decode};
ghost use Rattle.encoding.specs.Back.{state_of};
ghost use Rattle.readers.specs.Step.{released_row};
ghost use Rattle.plain.specs.Free.{waits_row, uncollected_row, held_in, free_in};

// Whether a record reads stream s and its bound is not above t.
fn waits(r: &[u8], s: u64, t: u64) -> bool
    requires { length r.now ≡ 256 }
    ensures { result ≡ waits_row s t (dec_raw r.now) }
{
    readers::reads(r, s) && layout::word_at(r, layout::BOUND) <= t
}

// Whether some reader of stream s waits for an event at t.
fn some_waits(state: &[u8], n: usize, s: u64, t: u64) -> bool
    requires { n * 256 ≤ length state.now }
    ensures one { result ≡ true → SomeReaderWaits (state_of n state.now) s t }
    ensures all { SomeReaderWaits (state_of n state.now) s t → result ≡ true }
{
    for i in 0..n {
        if waits(layout::row_at(state, i), s, t) {
            return true;
        }
    }
    false
}

// Whether collection waits for an event at t: the record is an output, and nothing so late is collected.
fn uncollected(r: &[u8], t: u64) -> bool
    requires { length r.now ≡ 256 }
    ensures { result ≡ uncollected_row t (dec_raw r.now) }
{
    layout::byte_at(r, layout::OUT) != 0 && layout::word_at(r, layout::NEXT) <= t
}

// How many of the held events of stream i, from the oldest on, nobody waits for.
fn free(state: &[u8], n: usize, i: usize) -> usize
    requires { (n * 256 ≤ length state.now) × (i < n) }
    ensures { (result ≡ free_in i (decode n state.now)) × (result ≤ held_in i (decode n state.now)) }
{
    let r = layout::row_at(state, i);
    let m = queue::count(r);
    for j in 0..m {
        let t = layout::stamp_at(r, j);
        if some_waits(state, n, i as u64, t) {
            return j;
        }
        if uncollected(r, t) {
            return j;
        }
    }
    m
}

// Lets go what nobody waits for of stream i: a test over all readers for every held event.
pub fn release_each(state: &mut [u8], n: usize, i: usize)
    requires { (n * 256 ≤ length state.old) × (i < n) }
    ensures { state.new ≡ encode n (released_row i (decode n state.old)) }
{
    let k = free(state, n, i);
    if k == 0 {
        return;
    }
    let at = i * layout::RECORD;
    let end = at + layout::RECORD;
    queue::drop_first(&mut state[at..end], k);
}

// Lets go what nobody waits for of stream i: the least bound of the readers, whatever is held and whoever waits.
pub fn release_least(state: &mut [u8], n: usize, i: usize)
    requires { (n * 256 ≤ length state.old) × (i < n) }
    ensures { state.new ≡ encode n (released_row i (decode n state.old)) }
{
    let last = readers::last_reader(state, n, i as u64);
    readers::release_below(state, n, i, last);
}
