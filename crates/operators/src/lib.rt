// The operators and the plan: one table of names, stored numbers, groups and equations, in specs/; and the limits of a plan.
#![tactic(auto)]

ghost use Rattle.std.specs.Prelude.{◌≡◌, ◌&&◌, eqb, ltb};
ghost use Rattle.operators.specs.Limits.{state_length, long_length, stream_limit, most_streams, width_limit, window_limit, text_limit, capacity, count_fits};
ghost use Rattle.operators.specs.Operators.{group_of, uses_k, lacks_at, is_present, is_in, is_window, takes_first, takes_second, delays_first};
ghost use Rattle.operators.specs.Keepers.{is_keeper};
ghost use Rattle.operators.specs.Rules.{value_ok, fields_ok};
ghost use Rattle.operators.specs.Windows.{width_ok};

// What the stored number of an operator says of its arguments.
#[derive(Clone, Copy)]
pub enum Group {
    // No operator has the number.
    Absent,
    // in: its events come from outside.
    Input,
    // nil, unit: no argument.
    Plain,
    // time, set, plus, neg: one argument.
    One,
    // add to merge: two arguments.
    Two,
    // last: two arguments, the first delayed.
    Last,
    // delay: two arguments, the first delayed.
    Delay,
    // sadd to seq: two arguments.
    Signal,
    // wsum to wmax: one argument, and a value.
    Window,
}

// The group of a stored number: the code's one table of operators.
pub fn group_of(number: u64) -> Group
    ensures { result ≡ group_of number }
{
    match number {
        0..=3 => match number {
            0 => Group::Absent,
            1 => Group::Input,
            _ => Group::Plain,
        },
        4..=7 => Group::One,
        8..=17 => Group::Two,
        18..=19 => match number {
            18 => Group::Last,
            _ => Group::Delay,
        },
        20..=27 => Group::Signal,
        28..=30 => Group::Window,
        _ => Group::Absent,
    }
}

// wsum, wmin, wmax
pub fn is_window(number: u64) -> bool
    ensures { result ≡ is_window (group_of number) }
{
    matches!(number, 28..=30)
}

// last, delay, and the signal forms
pub fn is_keeper(number: u64) -> bool
    ensures { result ≡ is_keeper (group_of number) }
{
    matches!(number, 18..=27)
}

// set, plus, and the windows
pub fn takes_value(number: u64) -> bool
    ensures { result ≡ uses_k number }
{
    match number {
        5..=6 => true,
        _ => is_window(number),
    }
}

// plus to rem, their signal forms, and wsum: an event can be missing, and is counted.
pub fn can_lack(number: u64) -> bool
    ensures { result ≡ lacks_at number }
{
    matches!(number, 6..=12 | 20..=24 | 28)
}

// Whether the width k of a window keeps its rule; of any other operator there is none.
#[tactic(auto, unfolding(crate::specs::Windows::width_ok))]
pub fn width_ok(number: u64, k: u64) -> bool
    ensures { result ≡ width_ok number k }
{
    !is_window(number) || (k != 0 && k <= Plan::WIDTH)
}

pub fn is_present(g: Group) -> bool
    ensures { result ≡ is_present g }
{
    !matches!(g, Group::Absent)
}

pub fn is_in(g: Group) -> bool
    ensures { result ≡ is_in g }
{
    matches!(g, Group::Input)
}

pub fn takes_first(g: Group) -> bool
    ensures { result ≡ takes_first g }
{
    matches!(
        g,
        Group::One | Group::Two | Group::Last | Group::Delay | Group::Signal | Group::Window
    )
}

pub fn takes_second(g: Group) -> bool
    ensures { result ≡ takes_second g }
{
    matches!(g, Group::Two | Group::Last | Group::Delay | Group::Signal)
}

pub fn delays_first(g: Group) -> bool
    ensures { result ≡ delays_first g }
{
    matches!(g, Group::Last | Group::Delay)
}

// Whether the value k keeps its rule: 0 where it is not used.
#[tactic(auto, unfolding(crate::specs::Rules::value_ok))]
pub fn value_ok(used: bool, k: u64) -> bool
    ensures { result ≡ value_ok used k }
{
    used || k == 0
}

// The fields of an operator without arguments. Here and below, out is whether the field out keeps its rule.
fn none_ok(a: u64, b: u64, k: u64, out: bool) -> bool
    ensures { result ≡ (eqb a 0 && (eqb b 0 && (eqb k 0 && out))) }
{
    a == 0 && b == 0 && k == 0 && out
}

// The fields of an operator with one argument.
fn one_ok(n: u64, op: u64, a: u64, b: u64, k: u64, out: bool) -> bool
    ensures { result ≡ (ltb a n && (eqb b 0 && (value_ok (uses_k op) k && out))) }
{
    a < n && b == 0 && value_ok(takes_value(op), k) && out
}

// The fields of an operator with two arguments.
fn two_ok(n: u64, a: u64, b: u64, k: u64, out: bool) -> bool
    ensures { result ≡ (ltb a n && (ltb b n && (eqb k 0 && out))) }
{
    a < n && b < n && k == 0 && out
}

// Whether the fields of a stream of a plan of n streams keep the rules.
pub fn fields_ok(n: u64, op: u64, a: u64, b: u64, k: u64, out: u64) -> bool
    ensures { result ≡ fields_ok n op a b k out }
{
    match group_of(op) {
        Group::Input => none_ok(a, b, k, out == 0),
        Group::Absent | Group::Plain => none_ok(a, b, k, out < 2),
        Group::One | Group::Window => one_ok(n, op, a, b, k, out < 2),
        Group::Two | Group::Last | Group::Delay | Group::Signal => two_ok(n, a, b, k, out < 2),
    }
}

// A plan: how many streams it has.
#[derive(Clone, Copy)]
pub struct Plan {
    pub streams: usize,
}

impl Plan {
    // The bytes of a state, and of a longer one.
    pub const STATE: usize = 12288;

    pub const LONG: usize = 20480;
    // The most streams a plan of a state has, and of a longer one.
    pub const STREAMS: usize = 32;

    pub const MOST: usize = 64;
    // The greatest width of a window, and the most windows a plan has.
    pub const WIDTH: u64 = 64;

    pub const WINDOWS: u64 = 8;
    // The most bytes a plan's text has.
    pub const TEXT: usize = 4096;

    pub fn new(streams: usize) -> Self
        ensures { result.streams ≡ streams }
    {
        Self { streams }
    }

    // How many streams a state of this many bytes has room for; 0 if no state has this length.
    pub fn capacity(size: usize) -> usize
        ensures { result ≡ capacity size }
    {
        if size == Self::STATE {
            Self::STREAMS
        } else if size == Self::LONG {
            Self::MOST
        } else {
            0
        }
    }

    // Whether a plan has as many streams as it may: at least one, and no more than there is room for.
    pub fn fits(self, most: usize) -> bool
        ensures { result ≡ count_fits most self.streams }
    {
        1 <= self.streams && self.streams <= most
    }

    // The limits are those of the definitions.
    pub fn limit() -> Self
        ensures sizes { (result.streams ≡ most_streams) × (Plan.STATE ≡ state_length) × (Plan.STREAMS ≡ stream_limit) × (Plan.MOST ≡ most_streams) × (Plan.TEXT ≡ text_limit) }
        ensures windows { (Plan.LONG ≡ long_length) × (Plan.WIDTH ≡ width_limit) × (Plan.WINDOWS ≡ window_limit) }
    {
        Self::new(Self::MOST)
    }
}
