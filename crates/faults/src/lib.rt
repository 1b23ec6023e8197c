// Where a plan text is wrong: its number, the line and the stream.
#![tactic(auto)]

ghost use Rattle.std.specs.Prelude.{◌≡◌, ◌*◌, ◌<◌, ◌≤◌, length, IfSome, unwrap_or, Ok};
ghost use Rattle.lines.specs.Form.{skip};
ghost use Rattle.text.specs.Grammar.{plan_line, head};
ghost use Rattle.operators.specs.Limits.{most_streams};
ghost use Rattle.operators.specs.Rules.{arg_ok};
ghost use Rattle.refusal.specs.Numbers.{number_of};
ghost use Rattle.plan.specs.Rules.{streams, number};
ghost use Rattle.faults.specs.Faults.{none, in_stream, head_line, field_line, stream_line, form_fault, field_broken, rule_fault, width_fault, ninth_fault, window_fault, Found};
ghost use Rattle.faults.specs.Search.{Tells, Kept, noted_form, LowestIn, FoundAfter};

use cycle::GRAPH;
use operators::Plan;
use refusal::Refusal;
use text::Fields;

// What is wrong with a plan text: load's number, the line, counted from 1, and the stream. Line 0: the text is too long.
#[derive(Clone, Copy)]
pub struct Fault {
    pub number: u32,
    pub line: usize,
    pub stream: usize,
}

// Line j of stream i: op, a, b, k, out, from 0.
fn in_stream(refusal: Refusal, i: usize, j: usize) -> Fault
    requires { (i ≤ most_streams) × (j < 5) }
    ensures { (result ≡ in_stream (number_of refusal) i j) × ((0 < result.number) × (0 < result.line)) }
{
    Fault {
        number: refusal.number(),
        line: 3 + 5 * i + j,
        stream: i,
    }
}

// Which of the first two lines of a text is wrong.
fn head_line(text: &[u8]) -> usize
    ensures { result ≡ head_line (skip text.now 0 plan_line) }
{
    match lines::skip(text, 0, b"plan=1\n") {
        Some(_) => 2,
        None => 1,
    }
}

// Which of the lines a, b, k and out of a refused stream is wrong.
#[tactic(auto, unfolding(crate::specs::Faults::field_line))]
fn field_line(text: &[u8], at: usize) -> usize
    ensures { (result ≡ field_line text.now at) × (result < 5) }
{
    let Some((_, p)) = lines::field(text, at, b"a=", 3) else {
        return 1;
    };
    let Some((_, q)) = lines::field(text, p, b"b=", 3) else {
        return 2;
    };
    if lines::value_line(text, q).is_none() {
        3
    } else {
        4
    }
}

// Which of the five lines of a refused stream is wrong.
#[tactic(auto, unfolding(crate::specs::Faults::stream_line))]
fn stream_line(text: &[u8], at: usize) -> usize
    ensures { (result ≡ stream_line text.now at) × (result < 5) }
{
    match text::op_line(text, at) {
        Ok((_, p)) => field_line(text, p),
        Err(_) => 0,
    }
}

// The first faulty line of n streams, or the bytes left over after them.
fn form_fault(text: &[u8], at: usize, n: usize) -> Option<Fault>
    requires { n ≤ most_streams }
    ensures { Tells result (form_fault text.now 0 at n) }
{
    let mut p = at;
    for i in 0..n {
        match text::read_stream(text, p) {
            Ok(f) => p = f.next,
            Err(r) => {
                let j = stream_line(text, p);
                return Some(in_stream(r, i, j));
            }
        }
    }
    if p == text.len() {
        return None;
    }
    Some(Fault {
        number: Refusal::TextForm.number(),
        line: 3 + 5 * n,
        stream: 0,
    })
}

fn arg_ok(used: bool, n: u64, a: u64) -> bool
    ensures { result ≡ arg_ok used n a }
{
    if used { a < n } else { a == 0 }
}

// The first field, of a stream that breaks rule 5, that does: a, b, k, out, from 1.
fn field_broken(n: u64, f: Fields) -> usize
    ensures { (result ≡ field_broken n f) × (result < 5) }
{
    let group = operators::group_of(f.op as u64);
    if !arg_ok(operators::takes_first(group), n, f.a) {
        1
    } else if !arg_ok(operators::takes_second(group), n, f.b) {
        2
    } else if !operators::value_ok(operators::takes_value(f.op as u64), f.k) {
        3
    } else {
        4
    }
}

// The first field that breaks rule 5, of n streams.
fn rule_fault(text: &[u8], at: usize, n: usize) -> Option<Fault>
    requires { n ≤ most_streams }
    ensures { Tells result (rule_fault text.now n at) }
{
    let mut p = at;
    for i in 0..n {
        let f = text::read_stream(text, p).ok()?;
        if !operators::fields_ok(n as u64, f.op as u64, f.a, f.b, f.k, f.out) {
            let j = field_broken(n as u64, f);
            return Some(in_stream(Refusal::TextField, i, j));
        }
        p = f.next;
    }
    None
}

// The first window of n streams whose width is outside 1 to 64.
fn width_fault(text: &[u8], at: usize, n: usize) -> Option<Fault>
    requires { n ≤ most_streams }
    ensures { Tells result (width_fault text.now n at) }
{
    let mut p = at;
    for i in 0..n {
        let f = text::read_stream(text, p).ok()?;
        if !operators::width_ok(f.op as u64, f.k) {
            return Some(in_stream(Refusal::TextWindow, i, 3));
        }
        p = f.next;
    }
    None
}

// The ninth window of n streams.
fn ninth_fault(text: &[u8], at: usize, n: usize) -> Option<Fault>
    requires { n ≤ most_streams }
    ensures { Tells result (ninth_fault text.now n at) }
{
    let mut p = at;
    let mut w: u64 = 0;
    for i in 0..n {
        let f = text::read_stream(text, p).ok()?;
        if operators::is_window(f.op as u64) {
            if Plan::WINDOWS <= w {
                return Some(in_stream(Refusal::TextWindow, i, 0));
            }
            w += 1;
        }
        p = f.next;
    }
    None
}

// The first window of n streams that breaks rule 18: by its width, or else the ninth.
fn window_fault(text: &[u8], at: usize, n: usize) -> Option<Fault>
    requires { n ≤ most_streams }
    ensures { Tells result (window_fault text.now n at) }
{
    width_fault(text, at, n).or_else(|| ninth_fault(text, at, n))
}

// Notes the undelayed arguments of n streams that keep rule 5.
fn note_all(text: &[u8], at: usize, n: usize, graph: &mut [u8])
    requires { (n ≤ most_streams) × (3 * n ≤ length graph.old) × Kept n (streams text.now at n) }
    ensures { graph.new ≡ noted_form n 0 (streams text.now at n) graph.old }
{
    let mut p = at;
    for i in 0..n {
        let Ok(f) = text::read_stream(text, p) else {
            break;
        };
        cycle::note(graph, i, f.op, f.a as u8, f.b as u8);
        p = f.next;
    }
}

// The lowest stream of a plan of n streams that leads to itself.
fn on_cycle(text: &[u8], at: usize, n: usize) -> Option<usize>
    requires { (n ≤ most_streams) × Kept n (streams text.now at n) }
    ensures { LowestIn n (streams text.now at n) (unwrap_or result n) × IfSome result (λ s. s < n) }
{
    let mut graph = [0u8; GRAPH];
    note_all(text, at, n, &mut graph);
    marks::lowest(&graph, n)
}

// The fault of a text whose first two lines announce n streams, the first of them at a position.
fn plan_fault(text: &[u8], n: usize, at: usize, most: usize) -> Option<Fault>
    requires { (most ≤ most_streams) × (n ≤ most) × (head most text.now ≡ Ok (n, at)) }
    ensures { FoundAfter most text.now n at (unwrap_or result none) × IfSome result (λ f. 0 < f.number) }
{
    if let Some(f) = form_fault(text, at, n) {
        return Some(f);
    }
    if let Some(f) = rule_fault(text, at, n) {
        return Some(f);
    }
    if let Some(f) = window_fault(text, at, n) {
        return Some(f);
    }
    let c = on_cycle(text, at, n)?;
    Some(in_stream(Refusal::TextCycle, c, 0))
}

// Where a plan text is wrong, for a state with room for so many streams; none if it is taken.
pub fn find(text: &[u8], most: usize) -> Option<Fault>
    requires { most ≤ most_streams }
    ensures number_value { (unwrap_or result none).number ≡ number most text.now }
    ensures found { Found most text.now (unwrap_or result none) }
    ensures numbered { IfSome result (λ f. 0 < f.number) }
{
    if Plan::TEXT < text.len() {
        return Some(Fault {
            number: Refusal::TextLong.number(),
            line: 0,
            stream: 0,
        });
    }
    match text::read_head(text, most) {
        Ok((n, at)) => plan_fault(text, n, at, most),
        Err(r) => Some(Fault {
            number: r.number(),
            line: head_line(text),
            stream: 0,
        }),
    }
}
