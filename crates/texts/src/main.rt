// Runs a table of plan texts through the library, and prints each text's number before what the case tries.
//
// The table is standard input: a case is `#`, a line that says what it tries, and the text up to the next `#`.
#![tactic(auto)]

ghost use Rattle.std.specs.Prelude.{◌≤◌, length};

use operators::Plan;

// The position of the first byte b from a position on, or the table's length.
fn find(table: &[u8], b: u8, from: usize) -> usize
    requires { from ≤ length table.now }
    ensures { (from ≤ result) × (result ≤ length table.now) }
{
    match table[from..].iter().position(|&x| x == b) {
        Some(i) => from + i,
        None => table.len(),
    }
}

// Runs one case whose label starts at a position, and answers where the next case starts.
fn one(rt: &impl Print, table: &[u8], from: usize) -> usize
    requires { from ≤ length table.now }
    ensures { (from ≤ result) × (result ≤ length table.now) }
{
    let line = find(table, b'\n', from);
    if line == table.len() {
        return line;
    }
    let start = line + 1;
    let next = find(table, b'#', start);
    let number = refusal::code(plan::check(&table[start..next], Plan::MOST));
    let _ = print!(rt; "{number} ");
    let _ = rt.write_all(&table[from..start]);
    next
}

fn run(rt: &impl Print, table: &[u8]) {
    let mut at = find(table, b'#', 0);
    while at < table.len() {
        at = one(rt, table, at + 1);
    }
}

fn main(rt: HostRuntime) {
    let mut table = [0u8; 65536];
    let n = intake::read_full(&mut rt.stdin(), &mut table);
    run(&rt, &table[..n]);
}
