// Replays a trace on a plan: reads plan.txt and trace.txt of the working folder, or of the folder that the first argument
// names, and prints every event of every output. What was refused is said on the standard error too: the plan, or which line.
#![tactic(auto)]

use operators::Plan;

fn main(rt: HostRuntime) {
    let mut state = [0u8; Plan::LONG];
    playing::replay(
        &rt,
        &mut state,
        Plan::MOST as u32,
        &mut rt.stdout(),
        &mut rt.stderr(),
    );
}
