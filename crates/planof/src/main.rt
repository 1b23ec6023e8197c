// Writes the plan of a saved state as text: the state on the standard input, its plan text on the standard output. Where the
// input is no state, nothing is written there, and the standard error has its number, `refused=15`.
#![tactic(auto)]

use operators::Plan;

// As long as any plan text.
const TEXT: usize = Plan::TEXT;

// Writes the plan of a state.
fn tell(rt: &(impl Print + Eprint), state: &[u8]) {
    let mut text = [0u8; TEXT];
    let mut length: u64 = 0;
    let number = engine::tessla_plan_text(state, &mut text, &mut length);
    if number != 0 {
        saved::refuse(rt, number);
        return;
    }
    let end = length as usize;
    let _ = rt.write_all(&text[..end]);
}

fn main(rt: HostRuntime) {
    let mut room = [0u8; saved::ROOM];
    let n = intake::read_full(&mut rt.stdin(), &mut room);
    let end = saved::length_of(&room, n);
    tell(&rt, &room[..end]);
}
