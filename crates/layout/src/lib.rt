// Records in bytes: the only functions that know where a field lies.
#![tactic(auto)]

ghost use Rattle.std.specs.Prelude.{◌≡◌, ◌+◌, ◌*◌, ◌≤◌, ◌<◌, ◌^◌, length, get_or, set};
ghost use Rattle.le.specs.Bytes.{part};
ghost use Rattle.machine.specs.State.{room};
ghost use Rattle.operators.specs.Limits.{width_limit, window_limit};
ghost use Rattle.layout.specs.Record.{enc_raw, dec_raw, num, with_num, slot_at, with_slot, dropped};
ghost use Rattle.layout.specs.Windows.{window_length, area_length, window_start, enc_window, dec_window, pushed_word};

// How many bytes a record has.
pub const RECORD: usize = 256;
// How many its head has, and each slot behind it.
pub const HEAD: usize = 64;

pub const SLOT: usize = 12;
// Where the first slot's value lies, behind its stamp.
const FIRST_VALUE: usize = HEAD + 4;

// The numbers of one byte in a record's head, by their place among them.

// The operator's stored number.
pub const OP: usize = 0;
// The arguments.
pub const A: usize = 1;

pub const B: usize = 2;
// 1 of an output.
pub const OUT: usize = 3;
// How many events are held.
pub const COUNT: usize = 4;
// Whether what is kept is there: a last's or a delay's value, a signal form's latest of a.
pub const FLAG: usize = 5;
// The same of a delay's prior, a signal form's latest of b.
pub const PRIOR_FLAG: usize = 6;
// Unused.
pub const SMALL: usize = 7;

// The numbers of eight bytes, by their place among them.

// The value k.
pub const K: usize = 0;
// The bound.
pub const BOUND: usize = 1;
// Of an output: one past the last collected stamp.
pub const NEXT: usize = 2;
// A last's value, a delay's since, a signal form's latest of a.
pub const KEPT: usize = 3;
// A delay's value, a signal form's latest of b.
pub const VALUE: usize = 4;
// A delay's prior.
pub const PRIOR: usize = 5;
// The counts of missing events: outside the range in the lower four bytes, of zero divisors in the upper four.
pub const COUNTS: usize = 6;

// Record i of a state.
pub fn row_at(state: &[u8], i: usize) -> &[u8]
    requires { i * 256 + 256 ≤ length state.now }
    ensures { (result.now ≡ part state.now (i * 256) 256) × (length result.now ≡ 256) }
{
    let at = i * RECORD;
    let end = at + RECORD;
    &state[at..end]
}

// Number j of a record's head, of those of one byte.
pub fn byte_at(r: &[u8], j: usize) -> u64
    requires { (length r.now ≡ 256) × (j < 8) }
    ensures { (result ≡ num j (dec_raw r.now)) × (result < 256) }
{
    le::get(r, j, 1)
}

// Number 8 + j of a record's head, of those of eight bytes.
pub fn word_at(r: &[u8], j: usize) -> u64
    requires { (length r.now ≡ 256) × (j < 7) }
    ensures { result ≡ num (8 + j) (dec_raw r.now) }
{
    le::get(r, 8 + j * 8, 8)
}

// Stores number j of the head, of those of one byte.
pub fn put_byte(r: &mut [u8], j: usize, v: u64)
    requires { (length r.old ≡ 256) × (j < 8) }
    ensures { r.new ≡ enc_raw (with_num j v (dec_raw r.old)) }
{
    le::put(r, j, 1, v);
}

// Stores number 8 + j of the head, of those of eight bytes.
pub fn put_word(r: &mut [u8], j: usize, v: u64)
    requires { (length r.old ≡ 256) × (j < 7) }
    ensures { r.new ≡ enc_raw (with_num (8 + j) v (dec_raw r.old)) }
{
    le::put(r, 8 + j * 8, 8, v);
}

// The stamp in slot j of a record.
pub fn stamp_at(r: &[u8], j: usize) -> u64
    requires { (length r.now ≡ 256) × (j < room) }
    ensures { (result ≡ (slot_at j (dec_raw r.now)).stamp) × (result < 2 ^ 32) }
{
    le::get(r, HEAD + j * SLOT, 4)
}

// The value in slot j of a record, in two's complement.
pub fn value_at(r: &[u8], j: usize) -> u64
    requires { (length r.now ≡ 256) × (j < room) }
    ensures { result ≡ (slot_at j (dec_raw r.now)).value }
{
    le::get(r, FIRST_VALUE + j * SLOT, 8)
}

// Puts the event (t, v) into slot j of a record.
pub fn put_slot(r: &mut [u8], j: usize, t: u64, v: u64)
    requires { (length r.old ≡ 256) × (j < room) }
    ensures { r.new ≡ enc_raw (with_slot j t v (dec_raw r.old)) }
{
    let at = HEAD + j * SLOT;
    le::put(r, at, 4, t);
    le::put(r, at + 4, 8, v);
}

// Drops the first k of the first n slots of a record: the rest of the n move down, and as many become free behind them.
pub fn drop_slots(r: &mut [u8], k: usize, n: usize)
    requires { (length r.old ≡ 256) × (k ≤ n) × (n ≤ room) }
    ensures { r.new ≡ enc_raw (dropped k n (dec_raw r.old)) }
{
    let m = k * SLOT;
    let rest = n * SLOT - m;
    le::shift(r, HEAD, m, rest);
    le::clear(r, HEAD + rest, m);
}

// How many bytes a window has, and all windows together: they lie behind everything else.
pub const WINDOW: usize = 512;

pub const AREA: usize = 4096;
// How many bytes each of its words has.
const WORD: usize = 8;

// Where window j begins, in a state of this many bytes.
pub fn window_start(size: usize, j: usize) -> usize
    requires { (area_length ≤ size) × (j < window_limit) }
    ensures { (result ≡ window_start size j) × (result + window_length ≤ size) }
{
    size - AREA + j * WINDOW
}

// Word j of a window.
pub fn window_word(w: &[u8], j: usize) -> u64
    requires { (length w.now ≡ window_length) × (j < width_limit) }
    ensures { result ≡ get_or (dec_window w.now) j 0 }
{
    le::get(w, j * WORD, 8)
}

// Stores word j of a window.
pub fn put_window_word(w: &mut [u8], j: usize, v: u64)
    requires { (length w.old ≡ window_length) × (j < width_limit) }
    ensures { w.new ≡ enc_window (set (dec_window w.old) j v) }
{
    le::put(w, j * WORD, 8, v);
}

// Drops the first of the first n words of a window: the rest of the n move down, and v comes behind them.
pub fn push_window_word(w: &mut [u8], n: usize, v: u64)
    requires { (length w.old ≡ window_length) × (0 < n) × (n ≤ width_limit) }
    ensures { w.new ≡ enc_window (pushed_word n v (dec_window w.old)) }
{
    let rest = (n - 1) * WORD;
    le::shift_many(w, 0, WORD, rest);
    le::put(w, rest, 8, v);
}
