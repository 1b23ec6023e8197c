// A plan text checked: its form line by line, then rules 5, 18 and 6.
#![tactic(auto)]

ghost use Rattle.std.specs.Prelude.{◌≡◌, true, ◌+◌, ◌*◌, ◌<◌, ◌≤◌, length};
ghost use Rattle.text.specs.Grammar.{stream};
ghost use Rattle.operators.specs.Limits.{most_streams};
ghost use Rattle.refusal.specs.Numbers.{code_of};
ghost use Rattle.plan.specs.Rules.{keeps, streams, number_after, number};
ghost use Rattle.plan.specs.Pass.{noted_stream, noted_lines, weight_of, turn, Noted, pass_of, checked_of};

use cycle::GRAPH;
use operators::Plan;
use refusal::Refusal;
use text::Fields;

// Whether a stream of a plan of n streams keeps rule 5.
fn keeps(n: u64, f: Fields) -> bool
    ensures { result ≡ keeps n f }
{
    operators::fields_ok(n, f.op as u64, f.a, f.b, f.k, f.out)
}

// What a stream weighs: a window 1, and one of a bad width more than all windows of a plan may.
fn weight(f: Fields) -> u64
    ensures { result ≡ weight_of f }
{
    if !operators::is_window(f.op as u64) {
        return 0;
    }
    if operators::width_ok(f.op as u64, f.k) {
        return 1;
    }
    Plan::WINDOWS + 1
}

// Tests rule 5 for stream i, and notes its undelayed arguments if it keeps the rule.
fn note_stream(graph: &mut [u8], i: usize, n: u64, f: Fields) -> bool
    requires { (3 * i + 2 < length graph.old) × (n ≤ 256) }
    ensures value { result ≡ keeps n f }
    ensures graph_after { graph.new ≡ noted_stream n i f graph.old }
{
    if !keeps(n, f) {
        return false;
    }
    cycle::note(graph, i, f.op, f.a as u8, f.b as u8);
    true
}

// Reads stream i at a position: whether it keeps rule 5, what it weighs, and the position past its lines.
#[tactic(auto, unfolding(crate::specs::Pass::turn))]
fn read_turn(
    text: &[u8],
    at: usize,
    graph: &mut [u8],
    i: usize,
    n: u64,
) -> Result<(bool, u64, usize), Refusal>
    requires { (3 * i + 2 < length graph.old) × (n ≤ 256) }
    ensures value { result ≡ turn n (stream text.now at) }
    ensures graph_after { graph.new ≡ noted_lines n i (stream text.now at) graph.old }
{
    let f = text::read_stream(text, at)?;
    let kept = note_stream(graph, i, n, f);
    Ok((kept, weight(f), f.next))
}

// Reads all streams' lines: whether each keeps rule 5, and what they weigh. A text whose form is right leaves its graph.
fn form(text: &[u8], at: usize, n: usize, graph: &mut [u8]) -> Result<(bool, u64), Refusal>
    requires { (3 * n ≤ length graph.old) × (n ≤ 256) }
    ensures value { result ≡ checked_of (length text.now) (pass_of n true 0 0 graph.old (streams text.now at n)) }
    ensures noted { Noted graph.new (pass_of n true 0 0 graph.old (streams text.now at n)) }
{
    let mut p = at;
    let mut ok = true;
    let mut sum: u64 = 0;
    for i in 0..n {
        let (kept, w, q) = read_turn(text, p, graph, i, n as u64)?;
        ok &= kept;
        sum += w;
        p = q;
    }
    if p != text.len() {
        return Err(Refusal::TextForm);
    }
    Ok((ok, sum))
}

// Checks a text whose first two lines announce n streams, the first of them at a position.
fn check_streams(text: &[u8], n: usize, at: usize, most: usize) -> Result<(), Refusal>
    requires { (n ≤ most) × (most ≤ most_streams) }
    ensures { code_of result ≡ number_after most text.now n (streams text.now at n) }
{
    let mut graph = [0u8; GRAPH];
    let (ok, sum) = form(text, at, n, &mut graph)?;
    if !ok {
        return Err(Refusal::TextField);
    }
    if Plan::WINDOWS < sum {
        return Err(Refusal::TextWindow);
    }
    if !cycle::clear(&mut graph, n as u8, most as u8) {
        return Err(Refusal::TextCycle);
    }
    Ok(())
}

// Checks a plan text, for a state with room for so many streams.
#[tactic(auto, unfolding(crate::specs::Rules::number))]
pub fn check(text: &[u8], most: usize) -> Result<(), Refusal>
    requires { most ≤ most_streams }
    ensures { code_of result ≡ number most text.now }
{
    if Plan::TEXT < text.len() {
        return Err(Refusal::TextLong);
    }
    let (n, at) = text::read_head(text, most)?;
    check_streams(text, n, at, most)
}
