// Trace lines, read in place at a position of the lent text: a reading `s=0 t=3 v=7` or a progress `s=0 p=6`.
#![tactic(auto)]

ghost use Rattle.std.specs.Prelude.{◌≡◌, ◌<◌};
ghost use Rattle.trace.specs.Trace.{value_after, stamp_after, bound_after, input_after, line};

use limits::Bound;

// What a line offers to an input.
#[derive(Clone, Copy)]
pub enum Record {
    Reading { stream: u32, stamp: u32, value: i64 },
    Progress { stream: u32, bound: u64 },
}

// The value of a reading, and the line's end.
#[tactic(auto, unfolding(crate::specs::Trace::value_after))]
fn value_after(text: &[u8], stream: u32, stamp: u32, at: usize) -> Option<(Record, usize)>
    ensures { result ≡ value_after text.now stream stamp at }
{
    let p = lines::skip(text, at, b" v=")?;
    let (v, q) = lines::signed(text, p)?;
    let next = lines::skip(text, q, b"\n")?;
    let value = num::of_bits(v);
    let record = Record::Reading {
        stream,
        stamp,
        value,
    };
    Some((record, next))
}

// The stamp of a reading, and what follows it.
#[tactic(auto, unfolding(crate::specs::Trace::stamp_after))]
fn stamp_after(text: &[u8], stream: u32, at: usize) -> Option<(Record, usize)>
    ensures { result ≡ stamp_after text.now stream at }
{
    let (t, p) = lines::whole(text, at, 10)?;
    if t < Bound::HORIZON {
        return value_after(text, stream, t as u32, p);
    }
    None
}

// The new bound of a progress, and the line's end.
#[tactic(auto, unfolding(crate::specs::Trace::bound_after))]
fn bound_after(text: &[u8], stream: u32, at: usize) -> Option<(Record, usize)>
    ensures { result ≡ bound_after text.now stream at }
{
    let (bound, p) = lines::whole(text, at, 10)?;
    let next = lines::skip(text, p, b"\n")?;
    Some((Record::Progress { stream, bound }, next))
}

// What follows the input's number.
#[tactic(auto, unfolding(crate::specs::Trace::input_after))]
fn input_after(text: &[u8], stream: u32, at: usize) -> Option<(Record, usize)>
    ensures { result ≡ input_after text.now stream at }
{
    if let Some(p) = lines::skip(text, at, b" t=") {
        return stamp_after(text, stream, p);
    }
    let p = lines::skip(text, at, b" p=")?;
    bound_after(text, stream, p)
}

// The line that starts at a position: the record, and the position past the line.
#[tactic(auto, unfolding(crate::specs::Trace::line))]
pub fn read(text: &[u8], at: usize) -> Option<(Record, usize)>
    ensures { result ≡ line text.now at }
{
    let p = lines::skip(text, at, b"s=")?;
    let (s, q) = lines::whole(text, p, 3)?;
    input_after(text, s as u32, q)
}
