// Prints of every stream of a state at how many stamps an event is missing, since its result is outside the range or its divisor
// is zero: `s=2 outside=1 zero=3`. With an argument, the state is that after a replay of the folder which it names; what is
// refused there is said on the standard error, as `replay` does. Without one, it is the saved state on the standard input; where
// that is no state, the standard error has its number, `refused=15`.
#![tactic(auto)]

ghost use Rattle.std.specs.Prelude.{◌+◌, ◌*◌, ◌≤◌, ◌≡◌, length};
ghost use Rattle.io.specs.Counts.{IsPrefixLen};
ghost use Rattle.operators.specs.Limits.{most_streams};
ghost use Rattle.decimal.specs.Put.{Put};
ghost use Rattle.counts.specs.Missing.{missing_reply};
ghost use Rattle.missing.specs.Listing.{field, counts_text, counts_room, listing};

use operators::Plan;
use std::env::FillError;
use std::io;
use std::io::Write;
use std::rt::{Env, Files};

// As much room as is asked for to put the line of a stream.
const ROOM: usize = 75;

// What the call gives of a stream.
#[derive(Clone, Copy)]
struct Answer {
    number: u32,
    outside: u32,
    zero: u32,
}

// Asks for the counts of a stream.
fn ask(state: &[u8], stream: u32) -> Answer
    ensures number { result.number ≡ (missing_reply stream state.now).number }
    ensures outside { result.outside ≡ (missing_reply stream state.now).outside }
    ensures zero { result.zero ≡ (missing_reply stream state.now).divisors }
{
    let mut outside = 0;
    let mut zero = 0;
    let number = engine::tessla_missing(state, stream, &mut outside, &mut zero);
    Answer {
        number,
        outside,
        zero,
    }
}

// Puts a key and a number.
fn put_field(out: &mut [u8], at: usize, key: &[u8], n: u32) -> usize
    requires { at + length (field key.now n) ≤ length out.old }
    ensures { Put out.old at (field key.now n) result out.new }
{
    let a = decimal::put_word(out, at, key);
    decimal::put_number(out, a, n as u64)
}

// Puts the line of a stream.
fn put_counts(out: &mut [u8], at: usize, stream: u32, outside: u32, zero: u32) -> usize
    requires { at + counts_room ≤ length out.old }
    ensures { Put out.old at (counts_text stream outside zero) result out.new }
{
    let a = put_field(out, at, b"s=", stream);
    let b = put_field(out, a, b" outside=", outside);
    let c = put_field(out, b, b" zero=", zero);
    decimal::put_byte(out, c, b'\n')
}

// Puts the lines of all streams of a state.
fn put_all(out: &mut [u8], state: &[u8]) -> usize
    requires { most_streams * counts_room ≤ length out.old }
    ensures listing { Put out.old 0 (listing most_streams 0 state.now) result out.new }
    ensures inside { IsPrefixLen result out.new }
{
    let mut end: usize = 0;
    for stream in 0..Plan::MOST as u32 {
        let answer = ask(state, stream);
        if answer.number != 0 {
            return end;
        }
        end = put_counts(out, end, stream, answer.outside, answer.zero);
    }
    end
}

// Prints the lines of all streams of a state.
fn tell(rt: &impl Print, state: &[u8]) {
    let mut text = [0u8; Plan::MOST * ROOM];
    let end = put_all(&mut text, state);
    let _ = rt.write_all(&text[..end]);
}

// Of a saved state.
fn tell_saved(rt: &(impl Input + Print + Eprint)) {
    let mut room = [0u8; saved::ROOM];
    let n = intake::read_full(&mut rt.reader(), &mut room);
    let end = saved::length_of(&room, n);
    let first = ask(&room[..end], 0);
    if first.number == 15 {
        saved::refuse(rt, first.number);
    }
    tell(rt, &room[..end]);
}

// Of a replay, whose own lines go nowhere; what is refused is said to `err`.
fn tell_replayed<R: Files + Env + Print, E: Write>(rt: &R, err: &mut E) {
    let mut state = [0u8; Plan::LONG];
    playing::replay(rt, &mut state, Plan::MOST as u32, &mut io::sink(), err);
    tell(rt, &state);
}

// Whether the program was started with an argument.
fn has_argument<R: Env>(rt: &R) -> bool {
    let mut first = [0u8; 1];
    match rt.arg(1, &mut first) {
        Ok(_) => true,
        Err(FillError::TooLong) => true,
        Err(FillError::NotPresent) => false,
    }
}

fn main(rt: HostRuntime) {
    if !has_argument(&rt) {
        tell_saved(&rt);
        return;
    }
    tell_replayed(&rt, &mut rt.stderr());
}
