// Reads a plan text from standard input and prints where it is wrong: `number=N line=L stream=S`.
#![tactic(auto)]

use faults::Fault;
use operators::Plan;

// One byte more than a text may have, so that a longer one is seen.
const ROOM: usize = Plan::TEXT + 1;

fn tell(rt: &impl Print, fault: Option<Fault>) {
    let (number, line, stream) = match fault {
        Some(f) => (f.number, f.line, f.stream),
        None => (0, 0, 0),
    };
    let _ = println!(rt; "number={number} line={line} stream={stream}");
}

fn main(rt: HostRuntime) {
    let mut text = [0u8; ROOM];
    let n = intake::read_full(&mut rt.stdin(), &mut text);
    tell(&rt, faults::find(&text[..n], Plan::MOST));
}
