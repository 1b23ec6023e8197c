// The counts of missing events of a stream, read from a state.
#![tactic(auto)]

ghost use Rattle.std.specs.Prelude.{◌≡◌, IfOk};
ghost use Rattle.refusal.specs.Numbers.{code_of};
ghost use Rattle.machine.specs.Calls as machine;
ghost use Rattle.roundtrip.specs.In.{state_in, IsState};

use refusal::Refusal;

// 2^32, which parts the two counts of a record.
const BASE: u64 = 0x1_0000_0000;

// Reads the two counts of a stream: outside the range, and a zero divisor.
pub fn missing(state: &[u8], n: usize, stream: u32) -> Result<(u32, u32), Refusal>
    requires { IsState state.now n }
    ensures number { code_of result ≡ (machine.missing stream (state_in state.now)).number }
    ensures outside { IfOk result (λ counts. counts.0 ≡ (machine.missing stream (state_in state.now)).outside) }
    ensures zero { IfOk result (λ counts. counts.1 ≡ (machine.missing stream (state_in state.now)).divisors) }
{
    let i = stream as usize;
    if n <= i {
        return Err(Refusal::NoEquation);
    }
    let both = layout::word_at(layout::row_at(state, i), layout::COUNTS);
    let outside = (both % BASE) as u32;
    let zero = (both / BASE) as u32;
    Ok((outside, zero))
}
