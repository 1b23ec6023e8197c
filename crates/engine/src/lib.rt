// The calls that the firmware links. Each works on lent buffers, asks nothing of its caller, and is promised equal to a
// definition (`load_reply`, `reply`, `plan_text`, `missing_reply`, `widen_reply`, `write`, `line`): its number, its results and the buffers it leaves.
#![tactic(auto)]

ghost use Rattle.std.specs.Prelude.{◌≡◌};
ghost use Rattle.block.specs.Block as board;
ghost use Rattle.registers.specs.Write.{write};
ghost use Rattle.machine.specs.Calls.{reading, progress, moving, running, collecting};
ghost use Rattle.engine.specs.Load.{load_reply};
ghost use Rattle.calls.specs.Reply.{reply};
ghost use Rattle.writing.specs.Text.{plan_text};
ghost use Rattle.counts.specs.Missing.{missing_reply};
ghost use Rattle.widen.specs.Widen.{widen_reply};

use operators::Plan;
use refusal::Refusal;

// Loads a plan text: on 0 the state is fresh, with the plan's streams; on any other number it is as it was.
pub fn tessla_load(state: &mut [u8], text: &[u8]) -> u32
    ensures number { result ≡ (load_reply text.now state.old).number }
    ensures buffer { state.new ≡ (load_reply text.now state.old).buffer }
{
    let most = Plan::capacity(state.len());
    if most == 0 {
        return Refusal::BadState.number();
    }
    if let Err(r) = plan::check(text, most) {
        return r.number();
    }
    load::fill(state, text, most);
    0
}

// Offers a reading (stream, stamp, value) of an input.
pub fn tessla_offer_reading(state: &mut [u8], stream: u32, stamp: u32, value: i64) -> u32
    ensures number { result ≡ (reply (reading stream stamp value) state.old).number }
    ensures buffer { state.new ≡ (reply (reading stream stamp value) state.old).buffer }
{
    match valid::streams(state) {
        Some(n) => refusal::code(calls::offer_reading(state, n, stream, stamp, value)),
        None => Refusal::BadState.number(),
    }
}

// Offers progress (stream, new bound) of an input.
pub fn tessla_offer_progress(state: &mut [u8], stream: u32, bound: u64) -> u32
    ensures number { result ≡ (reply (progress stream bound) state.old).number }
    ensures buffer { state.new ≡ (reply (progress stream bound) state.old).buffer }
{
    match valid::streams(state) {
        Some(n) => refusal::code(calls::offer_progress(state, n, stream, bound)),
        None => Refusal::BadState.number(),
    }
}

// Collects the oldest waiting event of an output.
pub fn tessla_collect(state: &mut [u8], stream: u32, stamp: &mut u32, value: &mut i64) -> u32
    ensures number { result ≡ (reply (collecting stream) state.old).number }
    ensures stamp { stamp.new ≡ (reply (collecting stream) state.old).stamp }
    ensures value { value.new ≡ (reply (collecting stream) state.old).value }
    ensures buffer { state.new ≡ (reply (collecting stream) state.old).buffer }
{
    *stamp = 0;
    *value = 0;
    match valid::streams(state) {
        Some(n) => match calls::collect(state, n, stream) {
            Ok((at, event)) => {
                *stamp = at;
                *value = event;
                0
            }
            Err(reason) => reason.number(),
        },
        None => Refusal::BadState.number(),
    }
}

// Moves one equation.
pub fn tessla_move(state: &mut [u8], stream: u32) -> u32
    ensures number { result ≡ (reply (moving stream) state.old).number }
    ensures buffer { state.new ≡ (reply (moving stream) state.old).buffer }
{
    match valid::streams(state) {
        Some(n) => refusal::code(calls::move_stream(state, n, stream)),
        None => Refusal::BadState.number(),
    }
}

// Moves the lowest-numbered equation that can, again and again, at most n times; `moves` says how often.
pub fn tessla_run(state: &mut [u8], n: u32, moves: &mut u32) -> u32
    ensures number { result ≡ (reply (running n) state.old).number }
    ensures moves { moves.new ≡ (reply (running n) state.old).moves }
    ensures buffer { state.new ≡ (reply (running n) state.old).buffer }
{
    match valid::streams(state) {
        Some(streams) => {
            *moves = calls::run(state, streams, n);
            0
        }
        None => {
            *moves = 0;
            Refusal::BadState.number()
        }
    }
}

// Writes the plan of a state as text into a lent buffer; `length` says how many bytes it has.
pub fn tessla_plan_text(state: &[u8], text: &mut [u8], length: &mut u64) -> u32
    ensures number { result ≡ (plan_text state.now text.old).number }
    ensures length { length.new ≡ (plan_text state.now text.old).length }
    ensures buffer { text.new ≡ (plan_text state.now text.old).buffer }
{
    *length = 0;
    match valid::streams(state) {
        Some(n) => match writing::write(state, n, text) {
            Ok(size) => {
                *length = size as u64;
                0
            }
            Err(reason) => reason.number(),
        },
        None => Refusal::BadState.number(),
    }
}

// Reads the two counts of a stream: at how many stamps below its bound an event is missing because its result is outside the
// range, and because the divisor is zero.
pub fn tessla_missing(state: &[u8], stream: u32, outside: &mut u32, zero: &mut u32) -> u32
    ensures number { result ≡ (missing_reply stream state.now).number }
    ensures outside { outside.new ≡ (missing_reply stream state.now).outside }
    ensures zero { zero.new ≡ (missing_reply stream state.now).divisors }
{
    *outside = 0;
    *zero = 0;
    match valid::streams(state) {
        Some(n) => match counts::missing(state, n, stream) {
            Ok((past, divisors)) => {
                *outside = past;
                *zero = divisors;
                0
            }
            Err(reason) => reason.number(),
        },
        None => Refusal::BadState.number(),
    }
}

// Copies a state into a longer buffer, where it goes on from the same point.
pub fn tessla_widen(from: &[u8], to: &mut [u8]) -> u32
    ensures number { result ≡ (widen_reply from.now to.old).number }
    ensures buffer { to.new ≡ (widen_reply from.now to.old).buffer }
{
    refusal::code(widen::widen(from, to))
}

// Writes a byte of the reader board's block; writing the command starts it.
pub fn tessla_register_write(state: &mut [u8], block: &mut [u8], at: u32, byte: u8) -> u32
    ensures number { result ≡ (write state.old block.old at byte).number }
    ensures block { block.new ≡ (write state.old block.old at byte).block }
    ensures buffer { state.new ≡ (write state.old block.old at byte).state }
{
    refusal::code(registers::write(state, block, at, byte))
}

// Whether the board's line is up.
pub fn tessla_register_line(block: &[u8], up: &mut u32) -> u32
    ensures number { result ≡ (board.line block.now).number }
    ensures up { up.new ≡ (board.line block.now).up }
{
    match block::line(block) {
        Ok(raised) => {
            *up = raised as u32;
            0
        }
        Err(reason) => {
            *up = 0;
            reason.number()
        }
    }
}
