// The lowest stream on a cycle: marks the streams that undelayed arguments lead to, over the graph of a plan in bytes.
#![tactic(auto)]

ghost use Rattle.std.specs.Prelude.{◌≡◌, ◌||◌, ◌<◌, ◌≤◌, length, IfSome, unwrap_or};
ghost use Rattle.operators.specs.Limits.{most_streams};
ghost use Rattle.marks.specs.Marks.{marked, args_marked, turned, passed, Grown, Spread, Back, LowestBack};

use cycle::{BARE, GRAPH};
use operators::Plan;

// Marks a stream, and answers whether that was new.
fn mark(marks: &mut [u8], x: u8) -> bool
    ensures marks_after { marks.new ≡ marked x marks.old }
    ensures grown { Grown marks.old marks.new result }
{
    let i = x as usize;
    if marks.len() <= i {
        return false;
    }
    if marks[i] != 0 {
        return false;
    }
    marks[i] = 1;
    true
}

// Marks the undelayed arguments of stream i, and answers whether one was new.
fn mark_arguments(graph: &[u8; GRAPH], i: usize, marks: &mut [u8]) -> bool
    requires { i < most_streams }
    ensures marks_after { marks.new ≡ args_marked graph.now i marks.old }
    ensures grown { Grown marks.old marks.new result }
{
    let at = 3 * i;
    if graph[at] == BARE {
        return false;
    }
    let a = graph[at + 1];
    let b = graph[at + 2];
    let first = mark(marks, a);
    let second = mark(marks, b);
    first | second
}

// The same, if stream i is marked.
fn turn(graph: &[u8; GRAPH], i: usize, marks: &mut [u8]) -> bool
    requires { (i < most_streams) × (i < length marks.old) }
    ensures marks_after { marks.new ≡ turned graph.now i marks.old }
    ensures grown { Grown marks.old marks.new result }
{
    if marks[i] == 0 {
        return false;
    }
    mark_arguments(graph, i, marks)
}

// The same for n streams, one after the other.
fn pass(graph: &[u8; GRAPH], n: usize, marks: &mut [u8]) -> bool
    requires { (n ≤ most_streams) × (n ≤ length marks.old) }
    ensures marks_after { marks.new ≡ passed graph.now 0 n marks.old }
    ensures grown { Grown marks.old marks.new result }
{
    let mut new = false;
    for i in 0..n {
        let more = turn(graph, i, marks);
        new |= more;
    }
    new
}

// Passes until nothing is new.
fn spread(graph: &[u8; GRAPH], n: usize, marks: &mut [u8])
    requires { (n ≤ most_streams) × (n ≤ length marks.old) }
    ensures { Spread graph.now n marks.old marks.new }
{
    while pass(graph, n, marks) {}
}

// Whether undelayed arguments lead from stream s to itself.
fn leads_back(graph: &[u8; GRAPH], n: usize, s: usize) -> bool
    requires { (n ≤ most_streams) × (s < most_streams) }
    ensures { Back graph.now n s result }
{
    let mut marks = [0u8; Plan::MOST];
    mark_arguments(graph, s, &mut marks);
    spread(graph, n, &mut marks);
    0 < marks[s]
}

// The lowest stream below n that leads to itself.
pub fn lowest(graph: &[u8; GRAPH], n: usize) -> Option<usize>
    requires { n ≤ most_streams }
    ensures { LowestBack graph.now n (unwrap_or result n) × IfSome result (λ s. s < n) }
{
    for s in 0..n {
        if leads_back(graph, n, s) {
            return Some(s);
        }
    }
    None
}
