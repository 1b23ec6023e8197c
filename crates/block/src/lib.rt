// The reader board's block of 24 bytes: the only functions that know where a register lies, the interrupt flags, and the line.
#![tactic(auto)]

ghost use Rattle.std.specs.Prelude.{◌≡◌, false, cond, ◌&&◌, ◌||◌, ◌<◌, length, set, IfOk};
ghost use Rattle.refusal.specs.Numbers.{number_of, code_of};
ghost use Rattle.block.specs.Block.{bit, with_flags, stream_in, stamp_in, value_in};
ghost use Rattle.block.specs.Block as board;

use refusal::Refusal;

// How many bytes the block has.
pub const LENGTH: usize = 24;

// Where the registers lie.

const STREAM: usize = 0;

const STAMP: usize = 4;

const VALUE: usize = 8;

const COMMAND: usize = 16;

const STATUS: usize = 17;

const FLAGS: usize = 18;

const MASK: usize = 19;

const REPLY_STAMP: usize = 20;

// Whether bit 0 is set.
fn bit0(f: u8) -> bool
    ensures { result ≡ bit 0 f }
{
    f % 2 == 1
}

// Whether bit 1 is set.
fn bit1(f: u8) -> bool
    ensures { result ≡ bit 1 f }
{
    f / 2 % 2 == 1
}

// What a flag adds to the byte.
fn weight(flag: bool, bit: u8) -> u8
    ensures { result ≡ cond flag bit 0 }
{
    if flag { bit } else { 0 }
}

// The byte with these flags, its other bits as they are.
fn with_flags(f: u8, zero: bool, one: bool) -> u8
    ensures { result ≡ with_flags f zero one }
{
    f / 4 * 4 + (weight(one, 2) + weight(zero, 1))
}

// The flags after a byte was written to them.
fn cleared(f: u8, x: u8) -> u8
    ensures { result ≡ board.cleared f x }
{
    let zero = bit0(f) && !bit0(x);
    let one = bit1(f) && !bit1(x);
    with_flags(f, zero, one)
}

// The flags after a command or a refused write has ended.
fn raised(f: u8, number: u32, waits: bool) -> u8
    ensures { result ≡ board.raised f number waits }
{
    let zero = bit0(f) || number != 0;
    let one = bit1(f) || waits;
    with_flags(f, zero, one)
}

// The stream that the block names.
pub fn stream(block: &[u8]) -> u32
    requires { length block.now ≡ 24 }
    ensures { result ≡ stream_in block.now }
{
    le::get(block, STREAM, 4) as u32
}

// The stamp in the block.
pub fn stamp(block: &[u8]) -> u32
    requires { length block.now ≡ 24 }
    ensures { result ≡ stamp_in block.now }
{
    le::get(block, STAMP, 4) as u32
}

// The value in the block.
pub fn value(block: &[u8]) -> i64
    requires { length block.now ≡ 24 }
    ensures { result ≡ value_in block.now }
{
    num::of_bits(le::get(block, VALUE, 8))
}

// Fills value and reply stamp.
pub fn fill(block: &mut [u8], stamp: u32, value: i64)
    requires { length block.old ≡ 24 }
    ensures { block.new ≡ board.filled stamp value block.old }
{
    le::put(block, VALUE, 8, num::bits(value));
    le::put(block, REPLY_STAMP, 4, stamp as u64);
}

// Stores a byte.
pub fn store(block: &mut [u8], at: u32, byte: u8)
    requires { (length block.old ≡ 24) × (at < 24) }
    ensures { block.new ≡ set block.old at byte }
{
    block[at as usize] = byte;
}

// Clears the flags that have a 1 in the byte.
pub fn clear(block: &mut [u8], byte: u8)
    requires { length block.old ≡ 24 }
    ensures { block.new ≡ set block.old board.flags_at (board.cleared (board.flags_in block.old) byte) }
{
    block[FLAGS] = cleared(block[FLAGS], byte);
}

// A command or a refused write ends: status and flags.
fn end(block: &mut [u8], number: u32, waits: bool)
    requires { (length block.old ≡ 24) × (number < 256) }
    ensures { block.new ≡ board.ended number waits block.old }
{
    let f = block[FLAGS];
    block[STATUS] = number as u8;
    block[FLAGS] = raised(f, number, waits);
}

// A write is refused; the reason.
pub fn refuse(block: &mut [u8]) -> Refusal
    requires { length block.old ≡ 24 }
    ensures number { number_of result ≡ 17 }
    ensures block { block.new ≡ board.ended 17 false block.old }
{
    let refused = Refusal::BadWrite;
    end(block, refused.number(), false);
    refused
}

// A command ends, with its number; whether an output waits.
pub fn end_command(block: &mut [u8], command: u8, number: u32, waits: bool)
    requires { (length block.old ≡ 24) × (number < 256) }
    ensures { block.new ≡ board.ended number waits (set block.old board.command_at command) }
{
    block[COMMAND] = command;
    end(block, number, waits);
}

// Whether a flag and its mask bit are both set.
fn is_up(flags: u8, mask: u8) -> bool
    ensures { result ≡ ((bit 0 flags && bit 0 mask) || (bit 1 flags && bit 1 mask)) }
{
    (bit0(flags) && bit0(mask)) || (bit1(flags) && bit1(mask))
}

// Whether the line is up.
pub fn line(block: &[u8]) -> Result<bool, Refusal>
    ensures number { code_of result ≡ (board.line block.now).number }
    ensures up { IfOk result (λ up. cond up 1 0 ≡ (board.line block.now).up) }
{
    if block.len() != LENGTH {
        return Err(Refusal::BadWrite);
    }
    Ok(is_up(block[FLAGS], block[MASK]))
}
