// The five calls on a state: each asks for bytes that are one and promises that they still are, so that whoever makes several
// calls tests the bytes once.
#![tactic(auto)]

ghost use Rattle.std.specs.Prelude.{◌≡◌, false, ◌*◌, ◌≤◌, ◌<◌, length, IfOk};
ghost use Rattle.refusal.specs.Numbers.{code_of};
ghost use Rattle.machine.specs.Calls.{reading, progress, moving, running, collecting};
ghost use Rattle.machine.specs.Touched.{Still};
ghost use Rattle.layout.specs.Record.{dec_raw, decode};
ghost use Rattle.roundtrip.specs.In.{state_in, IsState};
ghost use Rattle.calls.specs.Equation.{equation_raw};
ghost use Rattle.calls.specs.Reply.{reply_in};
ghost use Rattle.calls.specs.Search.{Neither, Untouched, NoneBelow, Searched};

use refusal::Refusal;

// Offers a reading (stream, stamp, value) of an input.
pub fn offer_reading(
    state: &mut [u8],
    n: usize,
    stream: u32,
    stamp: u32,
    value: i64,
) -> Result<(), Refusal>
    requires { IsState state.old n }
    ensures number { code_of result ≡ (reply_in (reading stream stamp value) state.old).number }
    ensures buffer { state.new ≡ (reply_in (reading stream stamp value) state.old).buffer }
    ensures still { IsState state.new n }
{
    offers::check_reading(state, n, stream, stamp)?;
    readers::offer(state, n, stream as usize, stamp, num::bits(value));
    Ok(())
}

// Offers progress (stream, new bound) of an input.
pub fn offer_progress(state: &mut [u8], n: usize, stream: u32, bound: u64) -> Result<(), Refusal>
    requires { IsState state.old n }
    ensures number { code_of result ≡ (reply_in (progress stream bound) state.old).number }
    ensures buffer { state.new ≡ (reply_in (progress stream bound) state.old).buffer }
    ensures still { IsState state.new n }
{
    offers::check_progress(state, n, stream, bound)?;
    offers::progress(state, n, stream as usize, bound);
    Ok(())
}

// Moves one equation.
pub fn move_stream(state: &mut [u8], n: usize, stream: u32) -> Result<(), Refusal>
    requires { IsState state.old n }
    ensures number { code_of result ≡ (reply_in (moving stream) state.old).number }
    ensures buffer { state.new ≡ (reply_in (moving stream) state.old).buffer }
    ensures still { IsState state.new n }
{
    if !is_equation(state, n, stream) {
        return Err(Refusal::NoEquation);
    }
    if !moves::move_one(state, n, stream as usize) {
        return Err(Refusal::CannotMove);
    }
    Ok(())
}

// Collects the oldest waiting event of an output.
pub fn collect(state: &mut [u8], n: usize, stream: u32) -> Result<(u32, i64), Refusal>
    requires { IsState state.old n }
    ensures number { code_of result ≡ (reply_in (collecting stream) state.old).number }
    ensures stamp { IfOk result (λ x. x.0 ≡ (reply_in (collecting stream) state.old).stamp) }
    ensures value { IfOk result (λ x. x.1 ≡ (reply_in (collecting stream) state.old).value) }
    ensures buffer { state.new ≡ (reply_in (collecting stream) state.old).buffer }
    ensures still { IsState state.new n }
{
    offers::check_collect(state, n, stream)?;
    let i = stream as usize;
    let j = offers::oldest(state, n, i);
    let stamp = offers::stamp_of(state, n, i, j);
    let value = num::of_bits(offers::value_of(state, n, i, j));
    offers::collect(state, n, i, j);
    Ok((stamp, value))
}

// Whether z is one of two numbers.
fn one_of(z: u8, x: u8, y: u8) -> bool
    ensures { result ≡ false → Neither z x y }
{
    z == x || z == y
}

// Whether a move of stream s, with the arguments a and b as they are stored, can have let the stream of this record, j, move: it
// reads s, it is an argument of s, or it keeps something and reads an argument of s.
fn touched(r: &[u8], j: u8, s: u8, a: u8, b: u8) -> bool
    requires { length r.now ≡ 256 }
    ensures { result ≡ false → Untouched s a b j (dec_raw r.now) }
{
    let x = layout::byte_at(r, layout::A) as u8;
    let y = layout::byte_at(r, layout::B) as u8;
    one_of(s, x, y)
        || one_of(j, a, b)
        || (operators::is_keeper(layout::byte_at(r, layout::OP))
            && (one_of(x, a, b) || one_of(y, a, b)))
}

// Moves the lowest-numbered equation below s that can move, where the last move was one of s; its number, or s if there is none.
fn move_touched(state: &mut [u8], n: usize, s: usize) -> usize
    requires { IsState state.old n × (0 < s → s < n) × Still s (state_in state.old) }
    ensures { Searched s result state.old state.new }
{
    let row = layout::row_at(state, s);
    let a = layout::byte_at(row, layout::A) as u8;
    let b = layout::byte_at(row, layout::B) as u8;
    let last = s as u8;
    for j in 0..last {
        let i = j as usize;
        if touched(layout::row_at(state, i), j, last, a, b) && moves::move_one(state, n, i) {
            return i;
        }
    }
    s
}

// Moves the lowest-numbered equation that can move, where none below `from` can; its number, or n if there is none.
fn move_from(state: &mut [u8], n: usize, from: usize) -> usize
    requires { IsState state.old n × (from ≤ n) × NoneBelow from state.old }
    ensures { Searched n result state.old state.new }
{
    for i in from..n {
        if moves::move_one(state, n, i) {
            return i;
        }
    }
    n
}

// Moves the lowest-numbered equation that can move, where the last move was one of s; its number, or n if there is none.
fn move_next(state: &mut [u8], n: usize, s: usize) -> usize
    requires { IsState state.old n × (0 < s → s < n) × Still s (state_in state.old) }
    ensures { Searched n result state.old state.new }
{
    let i = move_touched(state, n, s);
    if i < s {
        return i;
    }
    move_from(state, n, s)
}

// Moves the lowest-numbered equation that can, again and again, at most this many times; how often it moved.
// The first search begins at stream 0, each other where the last move can have changed something.
pub fn run(state: &mut [u8], n: usize, most: u32) -> u32
    requires { IsState state.old n }
    ensures moves { result ≡ (reply_in (running most) state.old).moves }
    ensures buffer { state.new ≡ (reply_in (running most) state.old).buffer }
    ensures still { IsState state.new n }
{
    let mut s = 0;
    for made in 0..most {
        s = move_next(state, n, s);
        if s == n {
            return made;
        }
    }
    most
}

// Whether the stream is there and is no input.
pub fn is_equation(state: &[u8], n: usize, stream: u32) -> bool
    requires { n * 256 ≤ length state.now }
    ensures { result ≡ equation_raw n (decode n state.now) stream }
{
    let i = stream as usize;
    if n <= i {
        return false;
    }
    let op = layout::byte_at(layout::row_at(state, i), layout::OP);
    !operators::is_in(operators::group_of(op))
}
