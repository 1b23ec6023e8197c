// Bytes, words, numbers and values in decimal, put into a lent buffer, and how long they are.
#![tactic(auto)]

ghost use Rattle.std.specs.Prelude.{[], ◌∷◌, ◌≡◌, ◌+◌, ◌-◌, ◌<◌, ◌≤◌, length};
ghost use Rattle.std.proofs.lemmas.List.Edits.{sets};
ghost use Rattle.std.specs.Int.{w64};
ghost use Rattle.std.proofs.Common.{to_z};
ghost use Rattle.decimal.specs.Decimal.{digits, decimal, value_text};
ghost use Rattle.decimal.specs.Put.{Put, last_digits};

// The most digits that a number of a text has.
const MOST_DIGITS: usize = 19;

// Puts one byte, and answers the position past it.
pub fn put_byte(out: &mut [u8], at: usize, byte: u8) -> usize
    requires { at < length out.old }
    ensures { Put out.old at (byte ∷ []) result out.new }
{
    out[at] = byte;
    at + 1
}

// Puts a word, and answers the position past it. A word has a few bytes: a call of the library's copy takes longer.
pub fn put_word(out: &mut [u8], at: usize, word: &[u8]) -> usize
    requires { at + length word.now ≤ length out.old }
    ensures { Put out.old at word.now result out.new }
{
    for i in 0..word.len() {
        out[at + i] = word[i];
    }
    at + word.len()
}

// Puts many bytes, and answers the position past them.
pub fn put_bytes(out: &mut [u8], at: usize, bytes: &[u8]) -> usize
    requires { at + length bytes.now ≤ length out.old }
    ensures { Put out.old at bytes.now result out.new }
{
    let end = at + bytes.len();
    out[at..end].copy_from_slice(bytes);
    end
}

// How many digits n has, at most `most`.
fn digits_length(n: u64, most: usize) -> usize
    ensures { result ≡ length (digits most n) }
{
    if most == 0 {
        return 0;
    }
    let tenth = n / 10;
    if tenth == 0 {
        return 1;
    }
    digits_length(tenth, most - 1) + 1
}

// How many bytes a number has in decimal.
pub fn number_length(n: u64) -> usize
    ensures { result ≡ length (decimal n) }
{
    digits_length(n, MOST_DIGITS)
}

// Puts the last digits of n from a position on up to an end, the last one first.
fn put_digits(out: &mut [u8], at: usize, end: usize, n: u64)
    requires { (at ≤ end) × (end ≤ length out.old) }
    ensures { out.new ≡ sets out.old at (last_digits (end - at) n) }
{
    let mut rest = n;
    for p in (at..end).rev() {
        let tenth = rest / 10;
        out[p] = 48 + (rest - tenth * 10) as u8;
        rest = tenth;
    }
}

// Puts a number in decimal, and answers the position past it.
pub fn put_number(out: &mut [u8], at: usize, n: u64) -> usize
    requires { at + length (decimal n) ≤ length out.old }
    ensures { Put out.old at (decimal n) result out.new }
{
    let end = at + number_length(n);
    put_digits(out, at, end, n);
    end
}

// Puts a value in decimal, given by its bits in two's complement, a minus sign before it if it is below 0.
pub fn put_bits(out: &mut [u8], at: usize, u: u64) -> usize
    requires { at + length (value_text (to_z w64 u)) ≤ length out.old }
    ensures { Put out.old at (value_text (to_z w64 u)) result out.new }
{
    if u < 0x8000_0000_0000_0000 {
        return put_number(out, at, u);
    }
    let p = put_byte(out, at, b'-');
    put_number(out, p, u64::MAX - u + 1)
}

// Puts a value in decimal.
pub fn put_value(out: &mut [u8], at: usize, v: i64) -> usize
    requires { at + length (value_text v) ≤ length out.old }
    ensures { Put out.old at (value_text v) result out.new }
{
    put_bits(out, at, num::bits(v))
}

// How many bytes a value has in decimal, given by its bits.
pub fn bits_length(u: u64) -> usize
    ensures { result ≡ length (value_text (to_z w64 u)) }
{
    if u < 0x8000_0000_0000_0000 {
        return number_length(u);
    }
    number_length(u64::MAX - u + 1) + 1
}
