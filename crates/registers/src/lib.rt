// Writes to the reader board's block: writing the command byte starts a call on the state.
#![tactic(auto)]

ghost use Rattle.std.specs.Prelude.{◌≡◌, length};
ghost use Rattle.refusal.specs.Numbers.{code_of};
ghost use Rattle.machine.specs.Calls.{collecting};
ghost use Rattle.block.specs.Block.{stream_in};
ghost use Rattle.roundtrip.specs.In.{IsState};
ghost use Rattle.calls.specs.Reply.{reply_in};
ghost use Rattle.registers.specs.Write.{call_in, answered, waiting, commanded};
ghost use Rattle.registers.specs.Write as written;

use refusal::Refusal;

// How many moves command 3 runs.
const MOVES: u32 = 64;

// Whether an output waits.
fn waits(state: &[u8], n: usize) -> bool
    requires { IsState state.now n }
    ensures { result ≡ waiting state.now }
{
    for i in 0..n {
        if offers::check_collect(state, n, i as u32).is_ok() {
            return true;
        }
    }
    false
}

// Collects into the block.
fn collect(state: &mut [u8], n: usize, block: &mut [u8]) -> Result<(), Refusal>
    requires { (IsState state.old n) × (length block.old ≡ 24) }
    ensures number { code_of result ≡ (reply_in (collecting (stream_in block.old)) state.old).number }
    ensures state { state.new ≡ (reply_in (collecting (stream_in block.old)) state.old).buffer }
    ensures block { block.new ≡ answered 2 (reply_in (collecting (stream_in block.old)) state.old) block.old }
    ensures still { IsState state.new n }
{
    let (stamp, value) = calls::collect(state, n, block::stream(block))?;
    block::fill(block, stamp, value);
    Ok(())
}

// Makes the call of a command on a state.
fn perform(state: &mut [u8], n: usize, block: &mut [u8], command: u8) -> Result<(), Refusal>
    requires { (IsState state.old n) × (length block.old ≡ 24) }
    ensures number { code_of result ≡ (reply_in (call_in block.old command) state.old).number }
    ensures state { state.new ≡ (reply_in (call_in block.old command) state.old).buffer }
    ensures block { block.new ≡ answered command (reply_in (call_in block.old command) state.old) block.old }
    ensures still { IsState state.new n }
{
    match command {
        1 => calls::offer_reading(
            state,
            n,
            block::stream(block),
            block::stamp(block),
            block::value(block),
        ),
        2 => collect(state, n, block),
        _ => {
            calls::run(state, n, MOVES);
            Ok(())
        }
    }
}

// Starts a command and ends it. The state is tested once.
fn command(state: &mut [u8], block: &mut [u8], command: u8) -> Result<(), Refusal>
    requires { length block.old ≡ 24 }
    ensures number { code_of result ≡ (commanded state.old block.old command).number }
    ensures block { block.new ≡ (commanded state.old block.old command).block }
    ensures state { state.new ≡ (commanded state.old block.old command).state }
{
    match valid::streams(state) {
        Some(n) => {
            let outcome = perform(state, n, block, command);
            block::end_command(block, command, refusal::code(outcome), waits(state, n));
            outcome
        }
        None => {
            let refused = Refusal::BadState;
            block::end_command(block, command, refused.number(), false);
            Err(refused)
        }
    }
}

// Writes a byte of the block; writing the command starts it.
pub fn write(state: &mut [u8], block: &mut [u8], at: u32, byte: u8) -> Result<(), Refusal>
    ensures number { code_of result ≡ (written.write state.old block.old at byte).number }
    ensures block { block.new ≡ (written.write state.old block.old at byte).block }
    ensures state { state.new ≡ (written.write state.old block.old at byte).state }
{
    if block.len() != block::LENGTH {
        return Err(Refusal::BadWrite);
    }
    match at {
        0..=15 => {
            block::store(block, at, byte);
            Ok(())
        }
        16 => match byte {
            1..=3 => command(state, block, byte),
            _ => Err(block::refuse(block)),
        },
        18 => {
            block::clear(block, byte);
            Ok(())
        }
        19 => {
            block::store(block, at, byte);
            Ok(())
        }
        _ => Err(block::refuse(block)),
    }
}
