// Plan text: the op line, a stream's five lines and the head, read in place at a position of the lent text.
#![tactic(auto)]

ghost use Rattle.std.specs.Prelude.{◌≡◌, Some};
ghost use Rattle.text.specs.Grammar.{op_line, fields_after, stream, counts, head};
ghost use Rattle.text.specs.Lookup.{packed_at, operator_packed};

use operators::Plan;
use refusal::Refusal;

// A stream as its five lines give it: the stored number of its operator, a, b, k in two's complement, out, and the
// position past its lines.
#[derive(Clone, Copy)]
pub struct Fields {
    pub op: u8,
    pub a: u64,
    pub b: u64,
    pub k: u64,
    pub out: u64,
    pub next: usize,
}

// The longest name of an operator has so many letters.
const LETTERS: usize = 5;

// Letters passed: their bytes as one number, the first the lowest, and the position past them.
#[derive(Clone, Copy)]
pub struct Packed {
    pub code: u64,
    pub next: usize,
}

// The small letters that stand at a position, five at most.
fn letters(text: &[u8], at: usize) -> Packed
    ensures { result ≡ packed_at text.now at }
{
    let mut code: u64 = 0;
    let mut weight: u64 = 1;
    let mut p = at;
    for _ in 0..LETTERS {
        if text.len() <= p {
            return Packed { code, next: p };
        }
        let c = text[p];
        if !c.is_ascii_lowercase() {
            return Packed { code, next: p };
        }
        code += weight * u64::from(c);
        weight *= 256;
        p += 1;
    }
    Packed { code, next: p }
}

// The stored number of the operator whose name has these letters, the first the lowest.
#[tactic(auto, unfolding(crate::specs::Lookup::number_packed, crate::specs::Lookup::place_packed, crate::specs::Lookup::pack))]
fn operator(code: u64) -> Option<u8>
    ensures { result ≡ operator_packed code }
{
    match code {
        0x6E69 => Some(1), // in
        0x6C_696E => Some(2), // nil
        0x7469_6E75 => Some(3), // unit
        0x656D_6974 => Some(4), // time
        0x74_6573 => Some(5), // set
        0x7375_6C70 => Some(6), // plus
        0x67_656E => Some(7), // neg
        0x64_6461 => Some(8), // add
        0x62_7573 => Some(9), // sub
        0x6C_756D => Some(10), // mul
        0x76_6964 => Some(11), // div
        0x6D_6572 => Some(12), // rem
        0x746C => Some(13), // lt
        0x656C => Some(14), // le
        0x7165 => Some(15), // eq
        0x7065_656B => Some(16), // keep
        0x65_6772_656D => Some(17), // merge
        0x7473_616C => Some(18), // last
        0x79_616C_6564 => Some(19), // delay
        0x6464_6173 => Some(20), // sadd
        0x6275_7373 => Some(21), // ssub
        0x6C75_6D73 => Some(22), // smul
        0x7669_6473 => Some(23), // sdiv
        0x6D65_7273 => Some(24), // srem
        0x74_6C73 => Some(25), // slt
        0x65_6C73 => Some(26), // sle
        0x71_6573 => Some(27), // seq
        0x6D75_7377 => Some(28), // wsum
        0x6E69_6D77 => Some(29), // wmin
        0x7861_6D77 => Some(30), // wmax
        _ => None,
    }
}

// The op line: the stored number of its operator, and the position past it.
#[tactic(auto, using(crate::proofs::Names::no_name, crate::proofs::Names::a_name, crate::proofs::Names::not_ended, crate::proofs::Names::unknown, crate::proofs::Names::an_operator), unfolding(crate::specs::Grammar::op_line))]
pub fn op_line(text: &[u8], at: usize) -> Result<(u8, usize), Refusal>
    ensures { result ≡ op_line text.now at }
{
    let p = lines::skip(text, at, b"op=").ok_or(Refusal::TextForm)?;
    let name = letters(text, p);
    let end = name.next;
    if end == p {
        return Err(Refusal::TextForm);
    }
    let q = lines::skip(text, end, b"\n").ok_or(Refusal::TextForm)?;
    let op = operator(name.code).ok_or(Refusal::TextOperator)?;
    Ok((op, q))
}

// The lines a, b, k and out, after the op line.
#[tactic(auto, unfolding(crate::specs::Grammar::fields_after))]
fn field_lines(text: &[u8], op: u8, at: usize) -> Result<Fields, Refusal>
    ensures { result ≡ fields_after text.now op at }
{
    let (a, p) = lines::field(text, at, b"a=", 3).ok_or(Refusal::TextForm)?;
    let (b, q) = lines::field(text, p, b"b=", 3).ok_or(Refusal::TextForm)?;
    let (k, t) = lines::value_line(text, q).ok_or(Refusal::TextForm)?;
    let (out, next) = lines::out_line(text, t).ok_or(Refusal::TextForm)?;
    Ok(Fields {
        op,
        a,
        b,
        k,
        out,
        next,
    })
}

// A stream's five lines.
#[tactic(auto, unfolding(crate::specs::Grammar::stream))]
pub fn read_stream(text: &[u8], at: usize) -> Result<Fields, Refusal>
    ensures { result ≡ stream text.now at }
{
    let (op, p) = op_line(text, at)?;
    field_lines(text, op, p)
}

// A count of streams, whose line ends before a position.
fn count(n: u64, most: usize, at: usize) -> Result<(usize, usize), Refusal>
    ensures { result ≡ counts most (Some (n, at)) }
{
    let streams = n as usize;
    if !Plan::new(streams).fits(most) {
        return Err(Refusal::TextStreams);
    }
    Ok((streams, at))
}

// The first two lines, of a text that may announce so many streams: how many follow, and the position of the first. A text of no
// bytes has no streams.
#[tactic(auto, using(crate::proofs::Heads::no_bytes, crate::proofs::Heads::some_bytes))]
pub fn read_head(text: &[u8], most: usize) -> Result<(usize, usize), Refusal>
    ensures { result ≡ head most text.now }
{
    if text.is_empty() {
        return Ok((0, 0));
    }
    let p = lines::skip(text, 0, b"plan=1\n").ok_or(Refusal::TextForm)?;
    let (n, q) = lines::field(text, p, b"streams=", 3).ok_or(Refusal::TextForm)?;
    count(n, most, q)
}
