// Replays a trace on a plan, for a program: reads plan.txt and trace.txt of the working folder, or of the folder that its first
// argument names, and prints every event of every output to a writer, `out`. What was refused is said to another, `err`, too: the
// plan, or which line. What fails to be written is left out, and a read that fails ends a file.
#![tactic(auto)]

ghost use Rattle.std.specs.Prelude.{ℕ, ◌*◌, ◌-◌, ◌<◌, ◌≤◌, ◌≡◌, true, false, List, length, take};
ghost use Rattle.operators.specs.Limits.{capacity};
ghost use Rattle.engine.specs.Load.{load_reply};
ghost use Rattle.trace.specs.Trace.{line};
ghost use Rattle.replaying.specs.Rank.{is_rest, rank};
ghost use Rattle.replaying.specs.Whole.{Printed};
ghost use Rattle.playing.specs.Played.{Goes, Settles, Follows, Trailed, Played};
ghost use Rattle.playing.specs.Hand.{hand, line_after, Through, Advances};

use operators::Plan;
use replaying::Place;
use std::fs;
use std::io::{Read, Write};
use std::rt::{Env, Files};
use trace::Record;

// The longest line of a trace, with its ending byte.
const LINE: usize = 65;

// The most bytes of `line=`, a number and a blank.
const WORDS: usize = 25;

// What is left in hand: the bytes of the buffer between two positions, with the number of the first line there.
#[derive(Clone, Copy)]
struct Left {
    from: usize,
    end: usize,
    line: u64,
}

// Writes bytes, or, where a write fails, some of them.
fn put<W: Write>(to: &mut W, bytes: &[u8]) {
    let _ = to.write_all(bytes);
}

// Says what was refused, if it was: the words, and behind them the line of the refusal.
fn say<E: Write>(err: &mut E, words: &[u8], refusal: &[u8]) {
    if refusal.len() == 0 {
        return;
    }
    put(err, words);
    put(err, refusal);
}

// Says which line of the trace was refused, if it was.
fn say_line<E: Write>(err: &mut E, line: u64, refusal: &[u8]) {
    let mut words = [0u8; WORDS];
    let a = decimal::put_word(&mut words, 0, b"line=");
    let b = decimal::put_number(&mut words, a, line);
    let end = decimal::put_byte(&mut words, b, b' ');
    say(err, &words[..end], refusal);
}

// The number of the next line. The count stops at the greatest number, which no trace gets to.
fn next_line(line: u64) -> u64
    ensures { result ≡ line_after line 1 }
{
    if line == u64::MAX {
        return line;
    }
    line + 1
}

// Goes on from a place, through n streams, for as many events as a buffer holds, and prints them.
fn print_some<O: Write>(state: &mut [u8], n: u32, place: Place, out: &mut O) -> Place
    requires { n * 256 ≤ length state.old }
    ensures goes { Goes n place state.old result state.new }
    ensures nearer { is_rest place ≡ false → rank n result state.new < rank n place state.old }
{
    let mut printed = [0u8; 4096];
    let stand = replaying::fill(state, n, place, &mut printed);
    let end = stand.end;
    put(out, &printed[..end]);
    stand.place
}

// Runs to rest and prints what is collected of n streams, until nothing moves or waits.
fn settle<O: Write>(state: &mut [u8], n: u32, out: &mut O)
    requires { n * 256 ≤ length state.old }
    ensures { Settles n state.old state.new }
{
    let mut place = Place::Run;
    while !replaying::is_rest(place) {
        place = print_some(state, n, place, out);
    }
}

// Replays the line at a position, and answers what was read. A bad line prints its number and changes nothing. `number` says
// which line of the trace it is.
fn replay_line<O: Write, E: Write>(
    state: &mut [u8],
    n: u32,
    text: &[u8],
    at: usize,
    number: u64,
    out: &mut O,
    err: &mut E,
) -> Option<(Record, usize)>
    requires { n * 256 ≤ length state.old }
    ensures found { result ≡ line text.now at }
    ensures follows { Follows n result state.old state.new }
{
    let mut printed = [0u8; 4096];
    let passed = replaying::line(state, text, at, &mut printed);
    let end = passed.end;
    put(out, &printed[..end]);
    say_line(err, number, &printed[..end]);
    let found = passed.found;
    if found.is_none() {
        return None;
    }
    settle(state, n, out);
    found
}

// Replays all whole lines of the text in hand from a position on: those that end in it whatever follows, and if it is the last
// of the trace, all. `first` is the number of the first one. Answers the position from which on there is no whole line, with the
// number of the line there; none if it stops at a bad line.
fn replay_lines<O: Write, E: Write>(
    state: &mut [u8],
    n: u32,
    text: &[u8],
    at: usize,
    last: bool,
    first: u64,
    out: &mut O,
    err: &mut E,
) -> Option<(usize, u64)>
    requires { (n * 256 ≤ length state.old) × (at ≤ length text.now) }
    ensures { Through n text.now at last first state.old result state.new }
{
    let mut from = at;
    let mut line = first;
    while from < text.len() {
        if text.len() - from < LINE && !last {
            return Some((from, line));
        }
        let (_, next) = replay_line(state, n, text, from, line, out, err)?;
        from = next;
        line = next_line(line);
    }
    Some((from, line))
}

// Moves what is left in hand to the start of the buffer, reads on behind it, and answers where that ends.
fn ready<F: Read>(file: &mut F, buffer: &mut [u8], from: usize, end: usize) -> usize
    requires { (from ≤ end) × (end ≤ length buffer.old) }
    ensures inside { (end - from ≤ result) × (result ≤ length buffer.new) }
    ensures kept { take (end - from) buffer.new ≡ hand buffer.old from end }
{
    let left = end - from;
    le::shift(buffer, 0, from, left);
    let got = intake::read_full(file, &mut buffer[left..]);
    left + got
}

// Reads on, and replays all whole lines of what is then in hand. A buffer that is not full holds the last of the trace. Answers
// what is then left; none once the replay is done.
fn advance<F: Read, O: Write, E: Write>(
    file: &mut F,
    state: &mut [u8],
    n: u32,
    buffer: &mut [u8],
    left: Left,
    out: &mut O,
    err: &mut E,
) -> Option<Left>
    requires { (n * 256 ≤ length state.old) × (left.from ≤ left.end) × (left.end ≤ length buffer.old) }
    ensures { Advances n left.line (hand buffer.old left.from left.end) state.old result buffer.new state.new }
{
    let filled = ready(file, buffer, left.from, left.end);
    let last = filled < buffer.len();
    let (p, next) = replay_lines(state, n, &buffer[..filled], 0, last, left.line, out, err)?;
    if last {
        return None;
    }
    Some(Left {
        from: p,
        end: filled,
        line: next,
    })
}

// Replays the trace, and answers whether it came to its end. A proved loop has to end, and nothing says that a file does: it
// counts its reads down, from a number that no trace uses up.
fn replay_trace<F: Read, O: Write, E: Write>(
    file: &mut F,
    state: &mut [u8],
    n: u32,
    out: &mut O,
    err: &mut E,
) -> bool
    requires { n * 256 ≤ length state.old }
    ensures { Trailed n state.old result state.new }
{
    let mut buffer = [0u8; 4096];
    let mut left = Left {
        from: 0,
        end: 0,
        line: 1,
    };
    let mut reads = u64::MAX;
    while 0 < reads {
        let Some(next) = advance(file, state, n, &mut buffer, left, out, err) else {
            return true;
        };
        left = next;
        reads -= 1;
    }
    false
}

// Puts `/` and a name behind the n bytes of a folder, and answers where the path ends; 0 if there is no room for it.
fn join(path: &mut [u8], n: usize, name: &[u8]) -> usize
    requires { n ≤ length path.old }
    ensures { result ≤ length path.new }
{
    if path.len() - n <= name.len() {
        return 0;
    }
    let p = decimal::put_word(path, n, b"/");
    decimal::put_word(path, p, name)
}

// Puts the first argument, a folder, at the start of the path, and answers its length; 0 if there is none that fits.
fn folder<R: Env>(rt: &R, path: &mut [u8]) -> usize
    ensures { result ≤ length path.new }
{
    match rt.arg(1, path) {
        Ok(n) => n,
        Err(_) => 0,
    }
}

// Opens a file of the folder that the first argument names; without one, of the working folder. A path has to be UTF-8.
fn open<R: Files + Env>(rt: &R, name: &str) -> Option<R::File> {
    let mut path = [0u8; 4096];
    let n = folder(rt, &mut path);
    if n == 0 {
        return fs::open(rt, name).ok();
    }
    let end = join(&mut path, n, name.as_bytes());
    let Ok(text) = str::from_utf8(&path[..end]) else {
        return None;
    };
    fs::open(rt, text).ok()
}

// Reads the start of a file, as much as the buffer holds, and answers how many bytes. A file that can't be opened counts as empty.
fn read_start<R: Files + Env>(rt: &R, name: &str, buffer: &mut [u8]) -> usize
    ensures { result ≤ length buffer.new }
{
    let Some(mut file) = open(rt, name) else {
        return 0;
    };
    intake::read_full(&mut file, buffer)
}

// Loads the plan, of whose text one byte more is read than a plan has, and prints the number of its refusal.
fn load<R: Files + Env, O: Write, E: Write>(
    rt: &R,
    state: &mut [u8],
    out: &mut O,
    err: &mut E,
) -> u32
    ensures { (plan : List ℕ) × (result ≡ (load_reply plan state.old).number) × (state.new ≡ (load_reply plan state.old).buffer) }
{
    let mut text = [0u8; Plan::TEXT + 1];
    let n = read_start(rt, "plan.txt", &mut text);
    let mut printed = [0u8; 4096];
    let loaded = replaying::load(state, &text[..n], &mut printed);
    let end = loaded.end;
    put(out, &printed[..end]);
    say(err, b"plan ", &printed[..end]);
    loaded.number
}

// Settles, and replays the trace; a file that can't be opened counts as empty. Answers whether the trace came to its end.
fn play<R: Files + Env, O: Write, E: Write>(
    rt: &R,
    state: &mut [u8],
    n: u32,
    out: &mut O,
    err: &mut E,
) -> bool
    requires { n * 256 ≤ length state.old }
    ensures { Played n state.old result state.new }
{
    settle(state, n, out);
    let Some(mut file) = open(rt, "trace.txt") else {
        return true;
    };
    replay_trace(&mut file, state, n, out, err)
}

// Loads the plan, and plays the trace on it unless it is refused. Answers whether the trace came to its end.
pub fn replay<R: Files + Env, O: Write, E: Write>(
    rt: &R,
    state: &mut [u8],
    n: u32,
    out: &mut O,
    err: &mut E,
) -> bool
    requires { n ≡ capacity (length state.old) }
    ensures { result ≡ true → ((plan : List ℕ) × (trace : List ℕ) × (w : List ℕ) × Printed plan trace state.old w state.new) }
{
    let number = load(rt, state, out, err);
    if number != 0 {
        return true;
    }
    play(rt, state, n, out, err)
}
