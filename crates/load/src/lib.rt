// Fills a state with the streams of a plan text: a second pass over a text whose number is 0.
#![tactic(auto)]

ghost use Rattle.std.specs.Prelude.{◌≡◌, ◌*◌, ◌≤◌, length};
ghost use Rattle.layout.specs.Record.{enc_raw, dec_raw, encode, decode};
ghost use Rattle.load.specs.Filled.{stored, written, filled};

use text::Fields;

// Stores a stream's fields in a record.
fn store(r: &mut [u8], f: Fields)
    requires { length r.old ≡ 256 }
    ensures { r.new ≡ enc_raw (stored f (dec_raw r.old)) }
{
    layout::put_byte(r, layout::OP, le::wide(f.op));
    layout::put_byte(r, layout::A, f.a % 256);
    layout::put_byte(r, layout::B, f.b % 256);
    layout::put_byte(r, layout::OUT, f.out % 256);
    layout::put_word(r, layout::K, f.k);
}

// Stores the n streams whose lines begin at a position, each in its record.
fn write(state: &mut [u8], text: &[u8], n: usize, at: usize)
    requires { n * 256 ≤ length state.old }
    ensures { state.new ≡ encode n (written text.now at n 0 (decode n state.old)) }
{
    let mut p = at;
    for i in 0..n {
        let Ok(f) = text::read_stream(text, p) else {
            return;
        };
        let start = i * layout::RECORD;
        let end = start + layout::RECORD;
        store(&mut state[start..end], f);
        p = f.next;
    }
}

// Clears the state, with room for so many streams, and stores the streams of a text.
pub fn fill(state: &mut [u8], text: &[u8], most: usize)
    requires { most * 256 ≤ length state.old }
    ensures { state.new ≡ filled most text.now state.old }
{
    let Ok((n, at)) = text::read_head(text, most) else {
        return;
    };
    let size = state.len();
    le::clear(state, 0, size);
    write(state, text, n, at);
}
