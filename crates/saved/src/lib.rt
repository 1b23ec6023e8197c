// A saved state that was read from a file: all its bytes, or only the first of them, as the firmware need not save the zeros at
// its end.
#![tactic(auto)]

ghost use Rattle.std.specs.Prelude.{◌≡◌, ◌≤◌, length};
ghost use Rattle.io.specs.Counts.{IsPrefixLen};
ghost use Rattle.operators.specs.Limits.{long_length};
ghost use Rattle.saved.specs.Saved.{is_short, length_of};

use operators::Plan;

// One byte more than the longest state has, so that a longer file is seen.
pub const ROOM: usize = Plan::LONG + 1;

// Whether a file of n bytes, in a room with zeros behind them, is a state of the shorter length.
fn is_short(room: &[u8], n: usize) -> bool
    requires { long_length ≤ length room.now }
    ensures { result ≡ is_short n room.now }
{
    if Plan::STATE < n {
        return false;
    }
    valid::streams(&room[..Plan::STATE]).is_some()
}

// As how many bytes of the room a file of n bytes, which were read into it, is to be taken for a state.
pub fn length_of(room: &[u8], n: usize) -> usize
    requires { (long_length ≤ length room.now) × (n ≤ length room.now) }
    ensures taken { result ≡ length_of n room.now }
    ensures inside { IsPrefixLen result room.now }
{
    if is_short(room, n) {
        return Plan::STATE;
    }
    n.max(Plan::LONG)
}

// Says on the standard error which number refused it.
pub fn refuse(rt: &impl Eprint, number: u32) {
    let _ = eprintln!(rt; "refused={number}");
}
