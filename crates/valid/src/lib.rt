// Number 15: whether bytes are a state.
#![tactic(auto)]

ghost use Rattle.std.specs.Prelude.{◌≡◌, ◌+◌, ◌*◌, ◌≤◌, ◌<◌, length, drop};
ghost use Rattle.operators.specs.Limits.{most_streams, window_limit, capacity};
ghost use Rattle.machine.specs.State.{room};
ghost use Rattle.le.specs.Bytes.{all_zero};
ghost use Rattle.layout.specs.Record.{num, count_f, dec_raw};
ghost use Rattle.layout.specs.Windows.{window_length, area_length};
ghost use Rattle.valid.specs.Valid.{plan_ok, next_ok, counts_ok, sizes_ok, risen, flag_ok, none_if, none_ok, latest_ok, last_ok, signal_ok, own_ok, delay_ok, window_ok, kept_ok, row_ok, all_rows, streams_in, count, clear_at, counted_at, windows_ok, tail_ok, noted, clear_in, tested};

use cycle::GRAPH;
use limits::{Bound, Queue};
use operators::{Group, Plan};

#[tactic(auto, unfolding(crate::specs::Valid::plan_ok))]
fn plan_ok(r: &[u8], n: u64) -> bool
    requires { length r.now ≡ 256 }
    ensures { result ≡ plan_ok n (dec_raw r.now) }
{
    let op = layout::byte_at(r, layout::OP);
    let a = layout::byte_at(r, layout::A);
    let b = layout::byte_at(r, layout::B);
    let k = layout::word_at(r, layout::K);
    let out = layout::byte_at(r, layout::OUT);
    operators::is_present(operators::group_of(op))
        && operators::fields_ok(n, op, a, b, k, out)
        && operators::width_ok(op, k)
}

fn next_ok(out: u64, next: u64, bound: u64) -> bool
    ensures { result ≡ next_ok out next bound }
{
    if out == 0 { next == 0 } else { next <= bound }
}

// Whether the counts of missing events are as they may be. Most are 0, which every operator may have.
#[tactic(auto, unfolding(crate::specs::Valid::counts_ok))]
fn counts_ok(r: &[u8]) -> bool
    requires { length r.now ≡ 256 }
    ensures { result ≡ counts_ok (dec_raw r.now) }
{
    let counts = layout::word_at(r, layout::COUNTS);
    counts == 0
        || (layout::word_at(r, layout::BOUND) != 0
            && operators::can_lack(layout::byte_at(r, layout::OP)))
}

#[tactic(auto, unfolding(crate::specs::Valid::sizes_ok))]
fn sizes_ok(r: &[u8]) -> bool
    requires { length r.now ≡ 256 }
    ensures { result ≡ sizes_ok (dec_raw r.now) }
{
    let bound = layout::word_at(r, layout::BOUND);
    Queue::new(layout::byte_at(r, layout::COUNT)).fits()
        && Bound::new(bound).fits()
        && next_ok(
            layout::byte_at(r, layout::OUT),
            layout::word_at(r, layout::NEXT),
            bound,
        )
        && layout::byte_at(r, layout::SMALL) == 0
        && counts_ok(r)
}

// Whether the first n stamps rise and stay below top.
fn rises(r: &[u8], n: usize, top: u64) -> bool
    requires { (length r.now ≡ 256) × (n ≤ room) }
    ensures { result ≡ risen top 0 n (dec_raw r.now).slots }
{
    let mut low: u64 = 0;
    for i in 0..n {
        let t = layout::stamp_at(r, i);
        if t < low {
            return false;
        }
        low = t + 1;
    }
    low <= top
}

fn flag_ok(has: u64, x: u64) -> bool
    ensures { result ≡ flag_ok has x }
{
    if has == 0 { x == 0 } else { has == 1 }
}

fn none_if(a: u64, has: u64) -> bool
    ensures { result ≡ none_if a has }
{
    a != 0 || has == 0
}

#[tactic(auto, unfolding(crate::specs::Valid::none_ok))]
fn none_ok(r: &[u8]) -> bool
    requires { length r.now ≡ 256 }
    ensures { result ≡ none_ok (dec_raw r.now) }
{
    layout::byte_at(r, layout::FLAG) == 0
        && layout::byte_at(r, layout::PRIOR_FLAG) == 0
        && layout::word_at(r, layout::KEPT) == 0
        && layout::word_at(r, layout::VALUE) == 0
        && layout::word_at(r, layout::PRIOR) == 0
}

// Whether the value of an argument's latest event is as it may be: that it is there in byte f, its bits in word w.
#[tactic(auto, unfolding(crate::specs::Valid::latest_ok))]
fn latest_ok(r: &[u8], f: usize, w: usize) -> bool
    requires { (length r.now ≡ 256) × (f < 8) × (w < 7) }
    ensures { result ≡ latest_ok f (8 + w) (dec_raw r.now) }
{
    let has = layout::byte_at(r, f);
    flag_ok(has, layout::word_at(r, w)) && none_if(layout::word_at(r, layout::BOUND), has)
}

#[tactic(auto, unfolding(crate::specs::Valid::last_ok))]
fn last_ok(r: &[u8]) -> bool
    requires { length r.now ≡ 256 }
    ensures { result ≡ last_ok (dec_raw r.now) }
{
    latest_ok(r, layout::FLAG, layout::KEPT)
        && layout::byte_at(r, layout::PRIOR_FLAG) == 0
        && layout::word_at(r, layout::VALUE) == 0
        && layout::word_at(r, layout::PRIOR) == 0
}

#[tactic(auto, unfolding(crate::specs::Valid::signal_ok))]
fn signal_ok(r: &[u8]) -> bool
    requires { length r.now ≡ 256 }
    ensures { result ≡ signal_ok (dec_raw r.now) }
{
    latest_ok(r, layout::FLAG, layout::KEPT)
        && latest_ok(r, layout::PRIOR_FLAG, layout::VALUE)
        && layout::word_at(r, layout::PRIOR) == 0
}

// Whether a delay's newest held event, a set point, lies below since.
#[tactic(auto, unfolding(crate::specs::Valid::own_ok))]
fn own_ok(r: &[u8], since: u64) -> bool
    requires { (length r.now ≡ 256) × (num count_f (dec_raw r.now) ≤ room) }
    ensures { result ≡ own_ok since (dec_raw r.now) }
{
    let count = layout::byte_at(r, layout::COUNT) as usize;
    count == 0 || layout::stamp_at(r, count - 1) < since
}

#[tactic(auto, unfolding(crate::specs::Valid::delay_ok))]
fn delay_ok(r: &[u8]) -> bool
    requires { (length r.now ≡ 256) × (num count_f (dec_raw r.now) ≤ room) }
    ensures { result ≡ delay_ok (dec_raw r.now) }
{
    let flag = layout::byte_at(r, layout::FLAG);
    let prior_flag = layout::byte_at(r, layout::PRIOR_FLAG);
    let since = layout::word_at(r, layout::KEPT);
    let bound = layout::word_at(r, layout::BOUND);
    flag_ok(flag, layout::word_at(r, layout::VALUE))
        && flag_ok(prior_flag, layout::word_at(r, layout::PRIOR))
        && none_if(since, flag)
        && none_if(bound, prior_flag)
        && own_ok(r, since)
        && since <= bound
}

// Whether a window keeps at most as many values as its width, and none with bound 0.
#[tactic(auto, unfolding(crate::specs::Valid::window_ok))]
fn window_ok(r: &[u8]) -> bool
    requires { length r.now ≡ 256 }
    ensures { result ≡ window_ok (dec_raw r.now) }
{
    let fill = layout::byte_at(r, layout::FLAG);
    fill <= layout::word_at(r, layout::K)
        && none_if(layout::word_at(r, layout::BOUND), fill)
        && layout::byte_at(r, layout::PRIOR_FLAG) == 0
        && layout::word_at(r, layout::KEPT) == 0
        && layout::word_at(r, layout::VALUE) == 0
        && layout::word_at(r, layout::PRIOR) == 0
}

fn kept_ok(r: &[u8]) -> bool
    requires { (length r.now ≡ 256) × (num count_f (dec_raw r.now) ≤ room) }
    ensures { result ≡ kept_ok (dec_raw r.now) }
{
    let op = layout::byte_at(r, layout::OP);
    match operators::group_of(op) {
        Group::Last => last_ok(r),
        Group::Delay => delay_ok(r),
        Group::Signal => signal_ok(r),
        Group::Window => window_ok(r),
        _ => none_ok(r),
    }
}

#[tactic(auto, unfolding(crate::specs::Valid::row_ok))]
fn row_ok(r: &[u8], n: u64) -> bool
    requires { length r.now ≡ 256 }
    ensures { result ≡ row_ok n r.now }
{
    let count = layout::byte_at(r, layout::COUNT) as usize;
    plan_ok(r, n)
        && sizes_ok(r)
        && rises(r, count, layout::word_at(r, layout::BOUND))
        && kept_ok(r)
        && le::zeros(r, layout::HEAD + count * layout::SLOT)
}

// Whether the first n records pass.
fn rows_ok(state: &[u8], n: usize) -> bool
    requires { n * 256 ≤ length state.now }
    ensures { result ≡ all_rows (row_ok n) n state.now }
{
    for i in 0..n {
        if !row_ok(layout::row_at(state, i), n as u64) {
            return false;
        }
    }
    true // also of no records
}

// How many records have an operator, from the first on, of so many at most.
fn streams_in(state: &[u8], most: usize) -> usize
    requires { most * 256 ≤ length state.now }
    ensures { (result ≡ streams_in most state.now) × (result ≤ most) }
{
    for i in 0..most {
        if state[i * layout::RECORD] == 0 {
            return i;
        }
    }
    most
}

// Whether every byte of a window behind its values is 0.
fn rest_clear(w: &[u8], fill: u64) -> bool
    requires { (length w.now ≡ window_length) × (fill < 256) }
    ensures { result ≡ all_zero (drop (fill * 8) w.now) }
{
    if Plan::WIDTH <= fill {
        return true; // nothing is behind them
    }
    le::zeros(w, fill as usize * 8)
}

// Whether record i, a window if w says so, the jth of them from 0, is not one too many, and every byte behind its values is 0.
fn window_clear(state: &[u8], i: usize, j: usize, w: bool) -> bool
    requires { (i * 256 + 256 + area_length ≤ length state.now) × (j ≤ window_limit) }
    ensures { result ≡ clear_at w j i state.now }
{
    if !w {
        return true;
    }
    if j as u64 == Plan::WINDOWS {
        return false;
    }
    let row = layout::row_at(state, i);
    let fill = layout::byte_at(row, layout::FLAG);
    let at = layout::window_start(state.len(), j);
    let end = at + layout::WINDOW;
    rest_clear(&state[at..end], fill)
}

// One more, if w says so.
fn counted(j: usize, w: bool) -> usize
    requires { j ≤ window_limit }
    ensures { result ≡ counted_at w j }
{
    if w { j + 1 } else { j }
}

// Whether there are no more windows than may be, and every byte behind their values is 0.
fn windows_ok(state: &[u8], n: usize) -> bool
    requires { n * 256 + area_length ≤ length state.now }
    ensures { result ≡ windows_ok n state.now }
{
    let mut j = 0;
    for i in 0..n {
        let row = layout::row_at(state, i);
        let w = operators::is_window(layout::byte_at(row, layout::OP));
        if !window_clear(state, i, j, w) {
            return false;
        }
        j = counted(j, w);
    }
    le::zeros(state, state.len() - layout::AREA + j * layout::WINDOW)
}

// Whether what lies behind the first n records is as it may be: zeros, then the windows.
#[tactic(auto, unfolding(crate::specs::Valid::tail_ok))]
fn tail_ok(state: &[u8], n: usize) -> bool
    requires { n * 256 + area_length ≤ length state.now }
    ensures { result ≡ tail_ok n state.now }
{
    let at = n * layout::RECORD;
    let end = state.len() - layout::AREA;
    le::zeros(&state[at..end], 0) && windows_ok(state, n)
}

// The undelayed arguments of the first n records, three bytes for each.
fn fill_graph(state: &[u8], n: usize, graph: &mut [u8])
    requires { (n * 256 ≤ length state.now) × (3 * n ≤ length graph.old) }
    ensures { graph.new ≡ noted n state.now graph.old }
{
    for i in 0..n {
        let at = i * layout::RECORD;
        cycle::note(graph, i, state[at], state[at + 1], state[at + 2]);
    }
}

// Whether the arguments of the first n records, of so many at most, make no cycle without a delayed one.
fn clear(state: &[u8], n: usize, most: usize) -> bool
    requires { (n * 256 ≤ length state.now) × (n ≤ most) × (most ≤ most_streams) }
    ensures { result ≡ clear_in most n state.now }
{
    let mut graph = [0u8; GRAPH];
    fill_graph(state, n, &mut graph);
    cycle::clear(&mut graph, n as u8, most as u8)
}

// How many streams the state of these bytes has, or `None` where the test of number 15 finds that they are no state.
pub fn streams(state: &[u8]) -> Option<usize>
    ensures { result ≡ tested state.now }
{
    let most = Plan::capacity(state.len());
    if most == 0 {
        return None;
    }
    let n = streams_in(state, most);
    if !rows_ok(state, n) {
        return None;
    }
    if !tail_ok(state, n) {
        return None;
    }
    if !clear(state, n, most) {
        return None;
    }
    Some(n)
}
