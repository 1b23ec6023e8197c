// A window's part of a move, in place on the bytes of n records and of the windows behind them.
#![tactic(auto)]

ghost use Rattle.std.specs.Prelude.{◌≡◌, suc, ◌+◌, ◌*◌, ◌^◌, ◌≤◌, ◌<◌, cond, length};
ghost use Rattle.operators.specs.Limits.{width_limit, window_limit};
ghost use Rattle.layout.specs.Record.{encode, decode, row_at};
ghost use Rattle.layout.specs.Windows.{area_length};
ghost use Rattle.machine.specs.State.{room};
ghost use Rattle.encoding.specs.Back.{held_of};
ghost use Rattle.apply.specs.Named.{folding};
ghost use Rattle.windows.specs.Window.{fitted};
ghost use Rattle.sliding.specs.Slide.{width_in, windows_before, place_of, fill_of, fit_row, missing_row, slid_row};

use apply::Fold;
use operators::Plan;

// The width of a window of k values, cut to 1 to 64.
pub fn width_of(k: i64) -> usize
    ensures { (result ≡ width_in k) × (1 ≤ result) × (result ≤ width_limit) }
{
    if k < 1 {
        return 1;
    }
    let w = k as u64;
    if Plan::WIDTH < w {
        return Plan::WIDTH as usize;
    }
    w as usize
}

// One more, if w says so.
fn counted(j: usize, w: bool) -> usize
    requires { j + 1 < 2 ^ 64 }
    ensures { result ≡ cond w (suc j) j }
{
    if w { j + 1 } else { j }
}

// The place of stream i's window: how many windows there are before it, cut to the last place.
fn place_of(state: &[u8], n: usize, i: usize) -> usize
    requires { (n * 256 ≤ length state.now) × (i < n) }
    ensures { (result ≡ place_of i (decode n state.now)) × (result < window_limit) }
{
    let mut j = 0;
    for r in (0..i).rev() {
        let row = layout::row_at(state, r);
        j = counted(j, operators::is_window(layout::byte_at(row, layout::OP)));
    }
    j.min(Plan::WINDOWS as usize - 1)
}

// How many values the window of stream i, of width k, keeps.
fn fill_of(state: &[u8], n: usize, i: usize, k: usize) -> usize
    requires { (n * 256 ≤ length state.now) × (i < n) }
    ensures { (result ≡ fill_of k i (decode n state.now)) × (result ≤ k) }
{
    let fill = layout::byte_at(layout::row_at(state, i), layout::FLAG) as usize;
    fill.min(k)
}

// What a move of stream i, a window of k values with bound y, finds below hi, where its argument is record a.
pub fn fit(
    state: &[u8],
    n: usize,
    i: usize,
    f: Fold,
    k: usize,
    a: usize,
    y: u64,
    hi: u64,
) -> Option<(u32, i64)>
    requires { (n * 256 + area_length ≤ length state.now) × (i < n) × (a < n) × (1 ≤ k) × (k ≤ width_limit) }
    ensures { fitted hi result ≡ fit_row (folding f) k i y hi (held_of (row_at (decode n state.now) a)) (decode n state.now) }
{
    let at = layout::window_start(state.len(), place_of(state, n, i));
    let end = at + layout::WINDOW;
    let fill = fill_of(state, n, i, k);
    let held = layout::row_at(state, a);
    windows::find(f, k, &state[at..end], fill, held, y, hi)
}

// At how many stamps from y on and below x the sum of stream i, a window of k values, has no value, where its argument is record a.
pub fn missing(state: &[u8], n: usize, i: usize, k: usize, a: usize, y: u64, x: u64) -> usize
    requires { (n * 256 + area_length ≤ length state.now) × (i < n) × (a < n) × (1 ≤ k) × (k ≤ width_limit) }
    ensures { (result ≡ missing_row k i y x (held_of (row_at (decode n state.now) a)) (decode n state.now)) × (result ≤ room) }
{
    let at = layout::window_start(state.len(), place_of(state, n, i));
    let end = at + layout::WINDOW;
    let fill = fill_of(state, n, i, k);
    let held = layout::row_at(state, a);
    windows::missing(k, &state[at..end], fill, held, y, x)
}

// The window of stream i slides: what its argument, record a, holds from y on and below x comes into it.
pub fn slide(state: &mut [u8], n: usize, i: usize, k: usize, a: usize, y: u64, x: u64)
    requires { (n * 256 + area_length ≤ length state.old) × (i < n) × (a < n) × (1 ≤ k) × (k ≤ width_limit) }
    ensures { state.new ≡ encode n (slid_row k i y x (held_of (row_at (decode n state.old) a)) (decode n state.old)) }
{
    let mut new: [u64; 16] = [0; 16];
    let m = windows::gather(layout::row_at(state, a), y, x, &mut new);
    let at = layout::window_start(state.len(), place_of(state, n, i));
    let end = at + layout::WINDOW;
    let fill = fill_of(state, n, i, k);
    let kept = windows::slide(&mut state[at..end], k, fill, &new, m);
    let row = i * layout::RECORD;
    let past = row + layout::RECORD;
    layout::put_byte(&mut state[row..past], layout::FLAG, kept as u64);
}
