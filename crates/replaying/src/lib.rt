// Replaying, step by step: a record is offered, and then the state is run to rest and its outputs are collected, again and again.
#![tactic(auto)]

ghost use Rattle.std.specs.Prelude.{◌≡◌, ◌+◌, ◌*◌, ◌<◌, ◌≤◌, false, length, take};
ghost use Rattle.decimal.specs.Put.{Put};
ghost use Rattle.printer.specs.Print.{event_room, refused_room};
ghost use Rattle.replaying.specs.Replay.{Turned, Prints, call_of, refusal, all_moves, is_output, next_output, to_output, ran, collected, step};
ghost use Rattle.replaying.specs.Rank.{is_rest, rank};
ghost use Rattle.replaying.specs.Whole.{line_text, line_state};
ghost use Rattle.calls.specs.Reply.{reply};
ghost use Rattle.engine.specs.Load.{load_reply};
ghost use Rattle.trace.specs.Trace.{line as Trace·line};
ghost use Rattle.machine.specs.Calls.{running, collecting};

use refusal::Refusal;
use trace::Record;

// Where a replay stands.
#[derive(Clone, Copy)]
pub enum Place {
    // It is to run.
    Run,
    // It is to collect from this output. `busy` says that something was handed out in this round.
    Collect { stream: u32, busy: bool },
    // Nothing moves or waits.
    Rest,
}

// Where a replay stands, and the position past what it printed.
#[derive(Clone, Copy)]
pub struct Stand {
    pub place: Place,
    pub end: usize,
}

// The number of a loaded plan, and the position past what was put.
#[derive(Clone, Copy)]
pub struct Loaded {
    pub number: u32,
    pub end: usize,
}

// What reading a line found, and the position past what was put.
#[derive(Clone, Copy)]
pub struct Passed {
    pub found: Option<(Record, usize)>,
    pub end: usize,
}

// Offers a record.
fn offered(state: &mut [u8], read: Record) -> u32
    ensures number { result ≡ (reply (call_of read) state.old).number }
    ensures buffer { state.new ≡ (reply (call_of read) state.old).buffer }
{
    match read {
        Record::Reading {
            stream,
            stamp,
            value,
        } => engine::tessla_offer_reading(state, stream, stamp, value),
        Record::Progress { stream, bound } => {
            engine::tessla_offer_progress(state, stream, bound)
        }
    }
}

// Puts the line of a refusal at the start, if the number is one.
fn put_refusal(out: &mut [u8], number: u32) -> usize
    requires { refused_room ≤ length out.old }
    ensures { Put out.old 0 (refusal number) result out.new }
{
    if number == 0 {
        return 0;
    }
    printer::put_refused(out, 0, number)
}

// Loads a plan, and puts the line of the refusal if it is refused.
pub fn load(state: &mut [u8], text: &[u8], out: &mut [u8]) -> Loaded
    requires { refused_room ≤ length out.old }
    ensures number { result.number ≡ (load_reply text.now state.old).number }
    ensures put { Put out.old 0 (refusal (load_reply text.now state.old).number) result.end out.new }
    ensures state { state.new ≡ (load_reply text.now state.old).buffer }
{
    let number = engine::tessla_load(state, text);
    let end = put_refusal(out, number);
    Loaded { number, end }
}

// Reads the line at a position and offers its record, and puts the line of the refusal if it is refused. A bad line is put as
// refused, and offers nothing.
pub fn line(state: &mut [u8], text: &[u8], at: usize, out: &mut [u8]) -> Passed
    requires { refused_room ≤ length out.old }
    ensures found { result.found ≡ Trace·line text.now at }
    ensures put { Put out.old 0 (line_text (Trace·line text.now at) state.old) result.end out.new }
    ensures state { state.new ≡ line_state (Trace·line text.now at) state.old }
{
    let found = trace::read(text, at);
    let Some((read, _)) = found else {
        let end = printer::put_refused(out, 0, Refusal::BadLine.number());
        return Passed { found, end };
    };
    let number = offered(state, read);
    let end = put_refusal(out, number);
    Passed { found, end }
}

// Whether a stream is an output.
fn is_output(state: &[u8], i: usize) -> bool
    requires { i * 256 + 256 ≤ length state.now }
    ensures { result ≡ is_output state.now i }
{
    layout::byte_at(layout::row_at(state, i), layout::OUT) != 0
}

// Of n streams the lowest output from a stream on.
fn next_output(state: &[u8], n: usize, from: usize) -> usize
    requires { n * 256 ≤ length state.now }
    ensures { result ≡ next_output n from state.now }
{
    let mut i = from;
    while i < n {
        if is_output(state, i) {
            return i;
        }
        i += 1;
    }
    i
}

// Goes to the next output from a stream on; past the last one to another round, or to rest.
fn to_output(state: &[u8], n: u32, from: usize, busy: bool) -> Place
    requires { n * 256 ≤ length state.now }
    ensures { result ≡ to_output n from busy state.now }
{
    let i = next_output(state, n as usize, from);
    if i < n as usize {
        return Place::Collect {
            stream: i as u32,
            busy,
        };
    }
    if busy {
        return Place::Run;
    }
    Place::Rest
}

// Collects one event of an output and puts its line, or goes on to the next output.
fn collect(state: &mut [u8], n: u32, stream: u32, busy: bool, out: &mut [u8], at: usize) -> Stand
    requires { (n * 256 ≤ length state.old) × (at + event_room ≤ length out.old) }
    ensures { Turned (collected n stream busy (reply (collecting stream) state.old)) out.old at result out.new state.new }
{
    let mut stamp: u32 = 0;
    let mut value: i64 = 0;
    let number = engine::tessla_collect(state, stream, &mut stamp, &mut value);
    if number == 0 {
        let end = printer::put_event(out, at, stream, stamp, value);
        return Stand {
            place: Place::Collect { stream, busy: true },
            end,
        };
    }
    Stand {
        place: to_output(state, n, stream as usize + 1, busy),
        end: at,
    }
}

// Runs, and goes on to the first output once the run made fewer moves than it was asked for.
fn run(state: &mut [u8], n: u32) -> Place
    requires { n * 256 ≤ length state.old }
    ensures place { result ≡ (ran n (reply (running all_moves) state.old)).place }
    ensures state { state.new ≡ (reply (running all_moves) state.old).buffer }
{
    let mut moves: u32 = 0;
    engine::tessla_run(state, u32::MAX, &mut moves);
    if moves < u32::MAX {
        return to_output(state, n, 0, false);
    }
    Place::Run
}

// Makes the one call that is due at a place.
fn turn(state: &mut [u8], n: u32, place: Place, out: &mut [u8], at: usize) -> Stand
    requires { (n * 256 ≤ length state.old) × (at + event_room ≤ length out.old) }
    ensures { Turned (step n place state.old) out.old at result out.new state.new }
{
    match place {
        Place::Run => Stand {
            place: run(state, n),
            end: at,
        },
        Place::Collect { stream, busy } => collect(state, n, stream, busy, out, at),
        Place::Rest => Stand {
            place: Place::Rest,
            end: at,
        },
    }
}

// Whether nothing moves or waits any more.
pub fn is_rest(place: Place) -> bool
    ensures { result ≡ is_rest place }
{
    match place {
        Place::Run => false,
        Place::Collect { stream: _, busy: _ } => false,
        Place::Rest => true,
    }
}

// Goes on from a place, through n streams, until the buffer has no room for one more event or nothing moves or waits. The buffer
// then starts with what is to be printed.
pub fn fill(state: &mut [u8], n: u32, place: Place, out: &mut [u8]) -> Stand
    requires { (n * 256 ≤ length state.old) × (event_room ≤ length out.old) }
    ensures fits { result.end ≤ length out.new }
    ensures prints { Prints n place state.old (take result.end out.new) result.place state.new }
    ensures nearer { is_rest place ≡ false → rank n result.place state.new < rank n place state.old }
{
    let mut p = place;
    let mut end: usize = 0;
    while printer::EVENT_ROOM <= out.len() - end {
        if is_rest(p) {
            return Stand { place: p, end };
        }
        let next = turn(state, n, p, out, end);
        p = next.place;
        end = next.end;
    }
    Stand { place: p, end }
}
