// The rows of the operator table that compute: what an equation has at a stamp, from what its arguments have there.
#![tactic(auto)]

ghost use Rattle.std.specs.Prelude.{◌≡◌, ℕ, ◌≤◌};
ghost use Rattle.meaning.specs.Events.{horizon};
ghost use Rattle.meaning.specs.Table.{one_at, two_at, calculated};
ghost use Rattle.meaning.specs.Missing.{Reason, said_for, one_says, calc_says, two_says};
ghost use Rattle.apply.specs.Named.{unary, calculation, binary};
ghost use Rattle.apply.specs.Lack.{lack_for};

use num::Reason;

// The operators of one argument, with their value.
#[derive(Clone, Copy)]
pub enum Unary {
    Time,
    Set(i64),
    Plus(i64),
    Neg,
}

// The arithmetic of two arguments.
#[derive(Clone, Copy)]
pub enum Calc {
    Add,
    Sub,
    Mul,
    Div,
    Rem,
    Lt,
    Le,
    Eq,
}

// The operators of two arguments, none of them delayed.
#[derive(Clone, Copy)]
pub enum Binary {
    Arith(Calc),
    Keep,
    Merge,
}

// What a window tells of its values.
#[derive(Clone, Copy)]
pub enum Fold {
    Sum,
    Least,
    Greatest,
}

// time, set, plus, neg: what the equation has at t where its argument has x.
pub fn one_at(f: Unary, t: u64, x: Option<i64>) -> Option<i64>
    requires { t ≤ horizon }
    ensures { result ≡ one_at (unary f) t x }
{
    let v = x?;
    match f {
        Unary::Time => Some(t as i64),
        Unary::Set(k) => Some(k),
        Unary::Plus(k) => num::add(v, k).ok(),
        Unary::Neg => num::neg(v).ok(),
    }
}

fn calculate(g: Calc, v: i64, w: i64) -> Result<i64, Reason>
    ensures { result ≡ calculated (calculation g) v w }
{
    match g {
        Calc::Add => num::add(v, w),
        Calc::Sub => num::sub(v, w),
        Calc::Mul => num::mul(v, w),
        Calc::Div => num::div(v, w),
        Calc::Rem => num::rem(v, w),
        Calc::Lt => num::lt(v, w),
        Calc::Le => num::le(v, w),
        Calc::Eq => num::eq(v, w),
    }
}

// add to eq, of two events or of two latest values: only if both are there.
pub fn calc_at(g: Calc, x: Option<i64>, y: Option<i64>) -> Option<i64>
    ensures { result ≡ two_at (binary (Binary.Arith g)) x y }
{
    let v = x?;
    let w = y?;
    calculate(g, v, w).ok()
}

// plus, neg: why the equation has no event where its argument has x. The others always have one.
pub fn one_lack(f: Unary, x: Option<i64>) -> Option<Reason>
    ensures { (q : Reason) (t : ℕ) → lack_for q result ≡ said_for q (one_says (unary f) t x) }
{
    let v = x?;
    match f {
        Unary::Time | Unary::Set(_) => None,
        Unary::Plus(k) => num::add(v, k).err(),
        Unary::Neg => num::neg(v).err(),
    }
}

// add to eq: why there is no value of two events or of two latest values.
pub fn calc_lack(g: Calc, x: Option<i64>, y: Option<i64>) -> Option<Reason>
    ensures { (q : Reason) → lack_for q result ≡ said_for q (calc_says (calculation g) x y) }
{
    let v = x?;
    let w = y?;
    calculate(g, v, w).err()
}

// Why an equation of two arguments has no event where they have x and y. keep and merge have one for whatever they work on.
pub fn two_lack(g: Binary, x: Option<i64>, y: Option<i64>) -> Option<Reason>
    ensures { (q : Reason) → lack_for q result ≡ said_for q (two_says (binary g) x y) }
{
    match g {
        Binary::Arith(c) => calc_lack(c, x, y),
        Binary::Keep | Binary::Merge => None,
    }
}

// keep: the first argument's event, if the second has one that is not 0.
fn keep_at(x: Option<i64>, y: Option<i64>) -> Option<i64>
    ensures { result ≡ two_at (binary Binary.Keep) x y }
{
    let v = x?;
    let w = y?;
    if w == 0 {
        return None;
    }
    Some(v)
}

// What an equation of two arguments has where they have x and y.
pub fn two_at(g: Binary, x: Option<i64>, y: Option<i64>) -> Option<i64>
    ensures { result ≡ two_at (binary g) x y }
{
    match g {
        Binary::Arith(c) => calc_at(c, x, y),
        Binary::Keep => keep_at(x, y),
        Binary::Merge => x.or(y),
    }
}
