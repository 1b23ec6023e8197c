// The lines of a text, read in place at a position of the lent text: words, numbers, a key with its number.
#![tactic(auto)]

ghost use Rattle.std.specs.Prelude.{◌≡◌, ◌<◌, ◌≤◌};
ghost use Rattle.lines.specs.Form.{skip, scan, whole, ended, field, signed, value_line, out_line};

// Digits passed: their number, and the position past them.
#[derive(Clone, Copy)]
pub struct Scanned {
    pub value: u64,
    pub next: usize,
}

// The position past the word, if it stands at a position.
pub fn skip(text: &[u8], at: usize, word: &[u8]) -> Option<usize>
    ensures { result ≡ skip text.now at word.now }
{
    let mut p = at;
    for &c in word {
        if text.len() <= p || text[p] != c {
            return None;
        }
        p += 1;
    }
    Some(p)
}

// At most max digits.
fn digits(text: &[u8], at: usize, max: usize) -> Scanned
    requires { max ≤ 19 }
    ensures { result ≡ scan text.now at 0 max }
{
    let mut value: u64 = 0;
    let mut p = at;
    for _ in 0..max {
        if text.len() <= p {
            return Scanned { value, next: p };
        }
        let c = text[p];
        if !c.is_ascii_digit() {
            return Scanned { value, next: p };
        }
        value = value * 10 + u64::from(c - b'0');
        p += 1;
    }
    Scanned { value, next: p }
}

// A number of at most max digits, without leading zeros, and the position past it; none if the form is wrong.
#[tactic(auto, unfolding(crate::specs::Form::whole))]
pub fn whole(text: &[u8], at: usize, max: usize) -> Option<(u64, usize)>
    requires { max ≤ 19 }
    ensures { result ≡ whole text.now at max }
{
    if let Some(p) = skip(text, at, b"0") {
        return Some((0, p));
    }
    let d = digits(text, at, max);
    if d.next == at {
        return None;
    }
    Some((d.value, d.next))
}

// A number with the line's ending byte after it.
#[tactic(auto, unfolding(crate::specs::Form::ended))]
fn ended(text: &[u8], number: Option<(u64, usize)>) -> Option<(u64, usize)>
    ensures { result ≡ ended text.now number }
{
    let (v, p) = number?;
    let q = skip(text, p, b"\n")?;
    Some((v, q))
}

// A line: the key with its `=`, a number of at most max digits, the ending byte.
#[tactic(auto, unfolding(crate::specs::Form::field))]
pub fn field(text: &[u8], at: usize, key: &[u8], max: usize) -> Option<(u64, usize)>
    requires { max ≤ 19 }
    ensures { result ≡ field text.now at key.now max }
{
    let p = skip(text, at, key)?;
    ended(text, whole(text, p, max))
}

// A value in two's complement: only it may have a minus sign, never before 0.
#[tactic(auto, unfolding(crate::specs::Form::signed))]
pub fn signed(text: &[u8], at: usize) -> Option<(u64, usize)>
    ensures { result ≡ signed text.now at }
{
    let Some(p) = skip(text, at, b"-") else {
        let (v, q) = whole(text, at, 19)?;
        if v < 0x8000_0000_0000_0000 {
            return Some((v, q));
        }
        return None;
    };
    let (v, q) = whole(text, p, 19)?;
    if v == 0 {
        return None;
    }
    if v <= 0x8000_0000_0000_0000 {
        return Some((u64::MAX - (v - 1), q));
    }
    None
}

// The k line.
#[tactic(auto, unfolding(crate::specs::Form::value_line))]
pub fn value_line(text: &[u8], at: usize) -> Option<(u64, usize)>
    ensures { result ≡ value_line text.now at }
{
    let p = skip(text, at, b"k=")?;
    ended(text, signed(text, p))
}

// The out line: 0 or 1.
#[tactic(auto, unfolding(crate::specs::Form::out_line))]
pub fn out_line(text: &[u8], at: usize) -> Option<(u64, usize)>
    ensures { result ≡ out_line text.now at }
{
    let (v, p) = field(text, at, b"out=", 1)?;
    if v <= 1 {
        return Some((v, p));
    }
    None
}
