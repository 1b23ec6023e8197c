// The plan of a state written as text into a lent buffer: line by line, and how long it is.
#![tactic(auto)]

ghost use Rattle.std.specs.Prelude.{◌≡◌, ◌+◌, ◌*◌, ◌≤◌, eqb, length, IfOk};
ghost use Rattle.refusal.specs.Numbers.{code_of};
ghost use Rattle.std.proofs.lemmas.List.Edits.{sets};
ghost use Rattle.std.specs.Int.{w64};
ghost use Rattle.std.proofs.Common.{to_z};
ghost use Rattle.operators.specs.Operators.{name_of};
ghost use Rattle.layout.specs.Record.{dec_raw, decode};
ghost use Rattle.lines.specs.Form.{value_key, out_key};
ghost use Rattle.text.specs.Grammar.{op_key};
ghost use Rattle.decimal.specs.Decimal.{decimal, value_text};
ghost use Rattle.decimal.specs.Put.{Put};
ghost use Rattle.render.specs.Render.{line, bit_text, opening};
ghost use Rattle.roundtrip.specs.In.{IsState};
ghost use Rattle.writing.specs.Text.{text_in, given};
ghost use Rattle.writing.specs.Rows.{row_text, rows_text, text_of};

use refusal::Refusal;

// How many bytes the five lines of a stream have beside its name and its numbers: the keys, the ends, and out.
const LINES: usize = 19;
// How many the first two lines have beside the count of streams.
const OPENING: usize = 16;

// Puts a line of a key and a number.
fn put_field(out: &mut [u8], at: usize, key: &[u8], n: u64) -> usize
    requires { at + length (line key.now (decimal n)) ≤ length out.old }
    ensures { Put out.old at (line key.now (decimal n)) result out.new }
{
    let p = decimal::put_word(out, at, key);
    let q = decimal::put_number(out, p, n);
    decimal::put_byte(out, q, b'\n')
}

// Puts the op line.
fn put_op(out: &mut [u8], at: usize, op: u64) -> usize
    requires { at + length (line op_key (name_of op)) ≤ length out.old }
    ensures { Put out.old at (line op_key (name_of op)) result out.new }
{
    let p = decimal::put_word(out, at, b"op=");
    let q = names::put_name(out, p, op);
    decimal::put_byte(out, q, b'\n')
}

// Puts the line of k, given in two's complement.
fn put_k(out: &mut [u8], at: usize, k: u64) -> usize
    requires { at + length (line value_key (value_text (to_z w64 k))) ≤ length out.old }
    ensures { Put out.old at (line value_key (value_text (to_z w64 k))) result out.new }
{
    let p = decimal::put_word(out, at, b"k=");
    let q = decimal::put_bits(out, p, k);
    decimal::put_byte(out, q, b'\n')
}

// Puts the line of out.
fn put_out(out: &mut [u8], at: usize, bit: u64) -> usize
    requires { at + length (line out_key (bit_text (eqb bit 1))) ≤ length out.old }
    ensures { Put out.old at (line out_key (bit_text (eqb bit 1))) result out.new }
{
    if bit == 1 {
        return decimal::put_word(out, at, b"out=1\n");
    }
    decimal::put_word(out, at, b"out=0\n")
}

// Puts the five lines of a record.
fn put_stream(row: &[u8], out: &mut [u8], at: usize) -> usize
    requires { (length row.now ≡ 256) × (at + length (row_text (dec_raw row.now)) ≤ length out.old) }
    ensures { Put out.old at (row_text (dec_raw row.now)) result out.new }
{
    let p = put_op(out, at, layout::byte_at(row, layout::OP));
    let q = put_field(out, p, b"a=", layout::byte_at(row, layout::A));
    let r = put_field(out, q, b"b=", layout::byte_at(row, layout::B));
    let t = put_k(out, r, layout::word_at(row, layout::K));
    put_out(out, t, layout::byte_at(row, layout::OUT))
}

// How many bytes the five lines of a record have.
fn stream_length(row: &[u8]) -> usize
    requires { length row.now ≡ 256 }
    ensures { result ≡ length (row_text (dec_raw row.now)) }
{
    let op = names::name_length(layout::byte_at(row, layout::OP));
    let a = decimal::number_length(layout::byte_at(row, layout::A));
    let b = decimal::number_length(layout::byte_at(row, layout::B));
    let k = decimal::bits_length(layout::word_at(row, layout::K));
    LINES + op + a + b + k
}

// Puts the lines of the first n records.
fn put_streams(state: &[u8], n: usize, out: &mut [u8], at: usize) -> usize
    requires { (n * 256 ≤ length state.now) × (at + length (rows_text (decode n state.now).rows) ≤ length out.old) }
    ensures { Put out.old at (rows_text (decode n state.now).rows) result out.new }
{
    let mut p = at;
    for i in 0..n {
        p = put_stream(layout::row_at(state, i), out, p);
    }
    p
}

// How many bytes the lines of the first n records have.
fn streams_length(state: &[u8], n: usize) -> usize
    requires { n * 256 ≤ length state.now }
    ensures { result ≡ length (rows_text (decode n state.now).rows) }
{
    let mut sum: usize = 0;
    for i in 0..n {
        sum += stream_length(layout::row_at(state, i));
    }
    sum
}

// Puts the first two lines, of n streams, at the start; of no streams none.
fn put_opening(out: &mut [u8], n: usize) -> usize
    requires { length (opening n) ≤ length out.old }
    ensures { Put out.old 0 (opening n) result out.new }
{
    if n == 0 {
        return 0;
    }
    let p = decimal::put_word(out, 0, b"plan=1\n");
    put_field(out, p, b"streams=", n as u64)
}

// How many bytes the first two lines have.
fn opening_length(n: usize) -> usize
    ensures { result ≡ length (opening n) }
{
    if n == 0 {
        return 0;
    }
    OPENING + decimal::number_length(n as u64)
}

// How many bytes the text of the first n records has.
fn text_length(state: &[u8], n: usize) -> usize
    requires { n * 256 ≤ length state.now }
    ensures { result ≡ length (text_of n state.now) }
{
    opening_length(n) + streams_length(state, n)
}

// Puts the text of the first n records at the start.
fn put_text(state: &[u8], n: usize, out: &mut [u8])
    requires { (n * 256 ≤ length state.now) × (length (text_of n state.now) ≤ length out.old) }
    ensures { out.new ≡ sets out.old 0 (text_of n state.now) }
{
    let p = put_opening(out, n);
    put_streams(state, n, out, p);
}

// Writes the plan of a state of n streams as text, unless the buffer is too short for it; how long the text is. That is worked out
// before the first byte is written.
pub fn write(state: &[u8], n: usize, text: &mut [u8]) -> Result<usize, Refusal>
    requires { IsState state.now n }
    ensures number { code_of result ≡ (given (text_in state.now) text.old).number }
    ensures length { IfOk result (λ size. size ≡ (given (text_in state.now) text.old).length) }
    ensures buffer { text.new ≡ (given (text_in state.now) text.old).buffer }
{
    let size = text_length(state, n);
    if text.len() < size {
        return Err(Refusal::TextRoom);
    }
    put_text(state, n, text);
    Ok(size)
}
