// The cycle test: follows undelayed arguments from stream to stream over a graph in bytes.
#![tactic(auto)]

ghost use Rattle.std.specs.Prelude.{◌≡◌, ◌+◌, ◌*◌, ◌<◌, [], ◌∷◌, length, get_or, eqb, ◌&&◌};
ghost use Rattle.std.proofs.lemmas.List.Edits.{sets};
ghost use Rattle.cycle.specs.Graph.{present, walked, followed, cleared, entry_of};

use operators::{Group, Plan};

// The bytes of a graph: three for each stream that a plan may have.
pub const GRAPH: usize = 3 * Plan::MOST;

// How a stream stands in the graph: its two arguments are to be followed.
pub const OPEN: u8 = 0;
// It was found clear.
pub const CLEAR: u8 = 1;
// It has no undelayed argument.
pub const BARE: u8 = 2;

// Stores the three bytes of a stream.
fn store(graph: &mut [u8], at: usize, how: u8, a: u8, b: u8)
    requires { at + 2 < length graph.old }
    ensures { graph.new ≡ sets graph.old at (how ∷ a ∷ b ∷ []) }
{
    graph[at] = how;
    graph[at + 1] = a;
    graph[at + 2] = b;
}

// Notes the undelayed arguments of stream i, by the group of its stored number.
pub fn note(graph: &mut [u8], i: usize, op: u8, a: u8, b: u8)
    requires { 3 * i + 2 < length graph.old }
    ensures { graph.new ≡ sets graph.old (3 * i) (entry_of op a b) }
{
    let at = 3 * i;
    match operators::group_of(op as u64) {
        Group::Absent | Group::Input | Group::Plain => store(graph, at, BARE, 0, 0),
        Group::One | Group::Window => store(graph, at, OPEN, a, a),
        Group::Two | Group::Signal => store(graph, at, OPEN, a, b),
        Group::Last | Group::Delay => store(graph, at, OPEN, b, b),
    }
}

// A stream's number as an index.
fn index_of(x: u8) -> usize
    ensures { (result ≡ x) × (result < 256) }
{
    x as usize
}

// Whether stream i was found clear before.
fn found(graph: &[u8; GRAPH], i: u8) -> bool
    ensures { result ≡ (present i && eqb (get_or graph.now (3 * i) 0) 1) }
{
    let stream = index_of(i);
    stream < Plan::MOST && graph[3 * stream] == CLEAR
}

// Whether stream i is clear, followed at most this deep. A stream once found clear is not followed again.
pub fn follow(graph: &mut [u8; GRAPH], i: u8, depth: u8) -> bool
    ensures { walked result graph.new ≡ followed depth i graph.old }
{
    let stream = index_of(i);
    if Plan::MOST <= stream {
        return false;
    }
    let at = 3 * stream;
    let how = graph[at];
    if how == CLEAR {
        return true;
    }
    if depth == 0 {
        return false;
    }
    if how == BARE {
        graph[at] = CLEAR;
        return true;
    }
    let a = graph[at + 1];
    if !follow(graph, a, depth - 1) {
        return false;
    }
    let b = graph[at + 2];
    if found(graph, b) {
        graph[at] = CLEAR;
        return true;
    }
    if !follow(graph, b, depth - 1) {
        return false;
    }
    graph[at] = CLEAR;
    true
}

// Whether all streams below n are clear, the last one followed first.
pub fn clear(graph: &mut [u8; GRAPH], n: u8, depth: u8) -> bool
    ensures { walked result graph.new ≡ cleared depth n graph.old }
{
    for i in (0..n).rev() {
        if found(graph, i) {
            continue;
        }
        if !follow(graph, i, depth) {
            return false;
        }
    }
    true
}
