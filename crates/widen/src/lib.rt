// A state copied into a longer buffer, where it goes on from the same point.
#![tactic(auto)]

ghost use Rattle.std.specs.Prelude.{◌≡◌, ◌≤◌, length};
ghost use Rattle.refusal.specs.Numbers.{code_of};
ghost use Rattle.layout.specs.Windows.{area_length};
ghost use Rattle.widen.specs.Spread.{spread};
ghost use Rattle.widen.specs.Widen.{widen_reply};

use operators::Plan;
use refusal::Refusal;

// Copies the records of a state, clears what lies behind them up to the windows of the longer one, and copies the windows there.
fn copy(from: &[u8], to: &mut [u8])
    requires { (area_length ≤ length from.now) × (length from.now ≤ length to.old) }
    ensures { to.new ≡ spread (length to.old) from.now }
{
    let end = from.len() - layout::AREA;
    let windows = to.len() - layout::AREA;
    decimal::put_bytes(to, 0, &from[..end]);
    le::clear(to, end, windows - end);
    decimal::put_bytes(to, windows, &from[end..]);
}

// Copies a state into a longer buffer; refused if there is no state of the shorter length, or no buffer of the longer.
pub fn widen(from: &[u8], to: &mut [u8]) -> Result<(), Refusal>
    ensures number { code_of result ≡ (widen_reply from.now to.old).number }
    ensures buffer { to.new ≡ (widen_reply from.now to.old).buffer }
{
    if from.len() != Plan::STATE || to.len() != Plan::LONG {
        return Err(Refusal::BadState);
    }
    match valid::streams(from) {
        Some(_) => {
            copy(from, to);
            Ok(())
        }
        None => Err(Refusal::BadState),
    }
}
