// What the replay program prints, put into a lent buffer: an event as `s=5 t=3 v=1`, a refusal as `refused=16`, each with byte 10.
#![tactic(auto)]

ghost use Rattle.std.specs.Prelude.{◌+◌, ◌≤◌, length};
ghost use Rattle.decimal.specs.Put.{Put};
ghost use Rattle.printer.specs.Print.{event_text, refused_text, event_room, refused_room};

// As much room as is asked for to put the line of an event.
pub const EVENT_ROOM: usize = 67;

// Puts the line of an event.
pub fn put_event(out: &mut [u8], at: usize, stream: u32, stamp: u32, value: i64) -> usize
    requires { at + event_room ≤ length out.old }
    ensures { Put out.old at (event_text stream stamp value) result out.new }
{
    let a = decimal::put_word(out, at, b"s=");
    let b = decimal::put_number(out, a, stream as u64);
    let c = decimal::put_word(out, b, b" t=");
    let d = decimal::put_number(out, c, stamp as u64);
    let e = decimal::put_word(out, d, b" v=");
    let f = decimal::put_value(out, e, value);
    decimal::put_byte(out, f, b'\n')
}

// Puts the line of a refusal.
pub fn put_refused(out: &mut [u8], at: usize, number: u32) -> usize
    requires { at + refused_room ≤ length out.old }
    ensures { Put out.old at (refused_text number) result out.new }
{
    let a = decimal::put_word(out, at, b"refused=");
    let b = decimal::put_number(out, a, number as u64);
    decimal::put_byte(out, b, b'\n')
}
