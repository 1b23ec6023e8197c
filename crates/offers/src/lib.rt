// The offers' and collect's refusals and steps, on the bytes of n records.
#![tactic(auto)]

ghost use Rattle.std.specs.Prelude.{◌≡◌, ◌*◌, ◌+◌, ◌≤◌, ◌<◌, length};
ghost use Rattle.refusal.specs.Numbers.{code_of};
ghost use Rattle.machine.specs.State.{room};
ghost use Rattle.layout.specs.Record as layout;
ghost use Rattle.layout.specs.Record.{dec_raw, encode, decode, with_num, bound_f, next_f, row_at, slot_at, change};
ghost use Rattle.offers.specs.Numbers.{reading_row, reading_raw, progress_row, progress_raw, waiting_slot, collect_row, collect_raw, collected_raw};

use limits::{Bound, Queue};
use refusal::Refusal;

fn check_reading_row(r: &[u8], t: u32) -> Result<(), Refusal>
    requires { length r.now ≡ 256 }
    ensures { code_of result ≡ reading_row (dec_raw r.now) t }
{
    let op = layout::byte_at(r, layout::OP);
    if !operators::is_in(operators::group_of(op)) {
        return Err(Refusal::NoInput);
    }
    let bound = layout::word_at(r, layout::BOUND);
    if (t as u64) < bound {
        return Err(Refusal::TooEarly);
    }
    let count = layout::byte_at(r, layout::COUNT);
    if Queue::new(count).is_full() {
        return Err(Refusal::Full);
    }
    Ok(())
}

// Whether an offer of a reading is taken, after the test of number 15.
pub fn check_reading(state: &[u8], n: usize, stream: u32, t: u32) -> Result<(), Refusal>
    requires { n * 256 ≤ length state.now }
    ensures { code_of result ≡ reading_raw n (decode n state.now) stream t }
{
    let i = stream as usize;
    if n <= i {
        return Err(Refusal::NoInput);
    }
    check_reading_row(layout::row_at(state, i), t)
}

fn check_progress_row(r: &[u8], y: u64) -> Result<(), Refusal>
    requires { length r.now ≡ 256 }
    ensures { code_of result ≡ progress_row (dec_raw r.now) y }
{
    let op = layout::byte_at(r, layout::OP);
    if !operators::is_in(operators::group_of(op)) {
        return Err(Refusal::NoInput);
    }
    if !Bound::new(y).fits() {
        return Err(Refusal::PastHorizon);
    }
    let bound = layout::word_at(r, layout::BOUND);
    if y < bound {
        return Err(Refusal::TooEarly);
    }
    Ok(())
}

// Whether an offer of progress is taken, after the test of number 15.
pub fn check_progress(state: &[u8], n: usize, stream: u32, y: u64) -> Result<(), Refusal>
    requires { n * 256 ≤ length state.now }
    ensures { code_of result ≡ progress_raw n (decode n state.now) stream y }
{
    let i = stream as usize;
    if n <= i {
        return Err(Refusal::NoInput);
    }
    check_progress_row(layout::row_at(state, i), y)
}

// Progress writes the bound and nothing more.
pub fn progress(state: &mut [u8], n: usize, i: usize, y: u64)
    requires { (n * 256 ≤ length state.old) × (i < n) }
    ensures { state.new ≡ encode n (change i (with_num bound_f y) (decode n state.old)) }
{
    let at = i * layout::RECORD;
    let end = at + layout::RECORD;
    layout::put_word(&mut state[at..end], layout::BOUND, y);
}

// The slot of the oldest waiting event of a record, or as many as it holds.
fn waiting_slot(r: &[u8]) -> usize
    requires { length r.now ≡ 256 }
    ensures { (result ≡ waiting_slot (dec_raw r.now)) × (result ≤ room) }
{
    queue::first_from(r, queue::count(r), layout::word_at(r, layout::NEXT))
}

fn check_collect_row(r: &[u8]) -> Result<(), Refusal>
    requires { length r.now ≡ 256 }
    ensures { code_of result ≡ collect_row (dec_raw r.now) }
{
    let out = layout::byte_at(r, layout::OUT);
    if out == 0 {
        return Err(Refusal::NoOutput);
    }
    if waiting_slot(r) < queue::count(r) {
        Ok(())
    } else {
        Err(Refusal::Nothing)
    }
}

// Whether a collect hands out an event, after the test of number 15.
pub fn check_collect(state: &[u8], n: usize, stream: u32) -> Result<(), Refusal>
    requires { n * 256 ≤ length state.now }
    ensures { code_of result ≡ collect_raw n (decode n state.now) stream }
{
    let i = stream as usize;
    if n <= i {
        return Err(Refusal::NoOutput);
    }
    check_collect_row(layout::row_at(state, i))
}

// Where the oldest waiting event of stream i lies.
pub fn oldest(state: &[u8], n: usize, i: usize) -> usize
    requires { (n * 256 ≤ length state.now) × (i < n) }
    ensures { (result ≡ waiting_slot (row_at (decode n state.now) i)) × (result ≤ room) }
{
    waiting_slot(layout::row_at(state, i))
}

// The stamp in slot j of stream i.
pub fn stamp_of(state: &[u8], n: usize, i: usize, j: usize) -> u32
    requires { (n * 256 ≤ length state.now) × (i < n) × (j < room) }
    ensures { result ≡ (slot_at j (row_at (decode n state.now) i)).stamp }
{
    layout::stamp_at(layout::row_at(state, i), j) as u32
}

// The value in slot j of stream i, in two's complement.
pub fn value_of(state: &[u8], n: usize, i: usize, j: usize) -> u64
    requires { (n * 256 ≤ length state.now) × (i < n) × (j < room) }
    ensures { result ≡ (slot_at j (row_at (decode n state.now) i)).value }
{
    layout::value_at(layout::row_at(state, i), j)
}

// Marks the event in slot j of a record as collected.
fn mark(r: &mut [u8], j: usize)
    requires { (length r.old ≡ 256) × (j < room) }
    ensures { r.new ≡ layout.enc_raw (with_num next_f ((slot_at j (dec_raw r.old)).stamp + 1) (dec_raw r.old)) }
{
    let t = layout::stamp_at(r, j);
    layout::put_word(r, layout::NEXT, t + 1);
}

// Collects the event in slot j of stream i, and lets go what nobody waits for any more.
pub fn collect(state: &mut [u8], n: usize, i: usize, j: usize)
    requires { (n * 256 ≤ length state.old) × (i < n) × (j < room) }
    ensures { state.new ≡ encode n (collected_raw i j (decode n state.old)) }
{
    let at = i * layout::RECORD;
    let end = at + layout::RECORD;
    mark(&mut state[at..end], j);
    readers::release_row(state, n, i);
}
