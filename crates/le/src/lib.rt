// Little-endian numbers and runs of bytes in byte slices.
#![tactic(auto)]

ghost use Rattle.std.specs.Prelude.{◌≡◌, ◌+◌, ◌≤◌, ◌<◌, ◌^◌, length, drop, replicate, eqb};
ghost use Rattle.std.proofs.lemmas.List.Edits.{sets};
ghost use Rattle.le.specs.Bytes.{le, enc, part, all_zero};

// A byte as a number.
pub fn wide(x: u8) -> u64
    ensures { (result ≡ x) × (result < 256) }
{
    x as u64
}

// The number of the n bytes from index at, least byte first.
pub fn get(s: &[u8], at: usize, n: usize) -> u64
    requires { (n ≤ 8) × (at + n ≤ length s.now) }
    ensures { (result ≡ le (part s.now at n)) × (result < 256 ^ n) }
{
    let mut r: u64 = 0;
    for i in (0..n).rev() {
        r = r * 256 + wide(s[at + i]);
    }
    r
}

// Stores the n lowest bytes of v from index at on, least byte first.
pub fn put(s: &mut [u8], at: usize, n: usize, v: u64)
    requires { at + n ≤ length s.old }
    ensures { s.new ≡ sets s.old at (enc n v) }
{
    let mut w = v;
    for i in 0..n {
        s[at + i] = (w % 256) as u8;
        w /= 256;
    }
}

// Moves the n bytes that stand by bytes above index at down to index at, one at a time.
fn shift_singly(s: &mut [u8], at: usize, by: usize, n: usize)
    requires { at + by + n ≤ length s.old }
    ensures { s.new ≡ sets s.old at (part s.old (at + by) n) }
{
    for moved in 0..n {
        s[at + moved] = s[at + by + moved];
    }
}

// Moves 4 bytes down.
fn shift4(s: &mut [u8], at: usize, by: usize)
    requires { at + by + 4 ≤ length s.old }
    ensures { s.new ≡ sets s.old at (part s.old (at + by) 4) }
{
    let from = at + by;
    let a = s[from];
    let b = s[from + 1];
    let c = s[from + 2];
    let d = s[from + 3];
    s[at] = a;
    s[at + 1] = b;
    s[at + 2] = c;
    s[at + 3] = d;
}

// Moves 12 bytes down.
fn shift12(s: &mut [u8], at: usize, by: usize)
    requires { at + by + 12 ≤ length s.old }
    ensures { s.new ≡ sets s.old at (part s.old (at + by) 12) }
{
    shift4(s, at, by);
    shift4(s, at + 4, by);
    shift4(s, at + 8, by);
}

// Moves the n bytes that stand by bytes above index at down to index at: 12 at a time, and what is left one at a time.
pub fn shift(s: &mut [u8], at: usize, by: usize, n: usize)
    requires { at + by + n ≤ length s.old }
    ensures { s.new ≡ sets s.old at (part s.old (at + by) n) }
{
    let mut moved = 0;
    while 12 <= n - moved {
        shift12(s, at + moved, by);
        moved += 12;
    }
    shift_singly(s, at + moved, by, n - moved);
}

// Moves 24 bytes down.
fn shift24(s: &mut [u8], at: usize, by: usize)
    requires { at + by + 24 ≤ length s.old }
    ensures { s.new ≡ sets s.old at (part s.old (at + by) 24) }
{
    shift12(s, at, by);
    shift12(s, at + 12, by);
}

// The same as shift, for many bytes: 24 at a time, and what is left as shift does.
pub fn shift_many(s: &mut [u8], at: usize, by: usize, n: usize)
    requires { at + by + n ≤ length s.old }
    ensures { s.new ≡ sets s.old at (part s.old (at + by) n) }
{
    let mut moved = 0;
    while 24 <= n - moved {
        shift24(s, at + moved, by);
        moved += 24;
    }
    shift(s, at + moved, by, n - moved);
}

// Sets n bytes from index at on to 0.
pub fn clear(s: &mut [u8], at: usize, n: usize)
    requires { at + n ≤ length s.old }
    ensures { s.new ≡ sets s.old at (replicate n 0) }
{
    s[at..at + n].fill(0);
}

// The bits of 4 bytes together: 0 just if each byte is.
fn any4(s: &[u8], at: usize) -> u8
    requires { at + 4 ≤ length s.now }
    ensures { eqb result 0 ≡ all_zero (part s.now at 4) }
{
    let a = s[at];
    let b = s[at + 1];
    let c = s[at + 2];
    let d = s[at + 3];
    a | b | c | d
}

fn any8(s: &[u8], at: usize) -> u8
    requires { at + 8 ≤ length s.now }
    ensures { eqb result 0 ≡ all_zero (part s.now at 8) }
{
    let a = any4(s, at);
    let b = any4(s, at + 4);
    a | b
}

fn any16(s: &[u8], at: usize) -> u8
    requires { at + 16 ≤ length s.now }
    ensures { eqb result 0 ≡ all_zero (part s.now at 16) }
{
    let a = any8(s, at);
    let b = any8(s, at + 8);
    a | b
}

fn any32(s: &[u8], at: usize) -> u8
    requires { at + 32 ≤ length s.now }
    ensures { eqb result 0 ≡ all_zero (part s.now at 32) }
{
    let a = any16(s, at);
    let b = any16(s, at + 16);
    a | b
}

// Whether all bytes from index at on are 0, one at a time.
fn zeros_singly(s: &[u8], at: usize) -> bool
    requires { at ≤ length s.now }
    ensures { result ≡ all_zero (drop at s.now) }
{
    s[at..].iter().all(|&x| x == 0)
}

// Whether all bytes from index at on are 0: 32 at a time, and what is left one at a time.
pub fn zeros(s: &[u8], at: usize) -> bool
    requires { at ≤ length s.now }
    ensures { result ≡ all_zero (drop at s.now) }
{
    let mut i = at;
    while 32 <= s.len() - i {
        if any32(s, i) != 0 {
            return false;
        }
        i += 32;
    }
    zeros_singly(s, i)
}
