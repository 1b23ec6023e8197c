// The limits of bounds, queues and counts, each named once, with the type it belongs to. (A plan's are in `operators`.)
#![tactic(auto)]

ghost use Rattle.std.specs.Prelude.{◌≡◌, ◌+◌, ◌≤◌, min, leb};
ghost use Rattle.meaning.specs.Events.{horizon};
ghost use Rattle.meaning.specs.Missing.{count_limit};
ghost use Rattle.machine.specs.State.{room};

// How far a stream is known: all its events at stamps below the bound are.
#[derive(Clone, Copy)]
pub struct Bound {
    pub stamp: u64,
}

impl Bound {
    // One past the last stamp.
    pub const HORIZON: u64 = 4294967296;

    // A bound as it is stored or offered, of which nothing is known yet.
    pub fn new(stamp: u64) -> Bound
        ensures { result.stamp ≡ stamp }
    {
        Bound { stamp }
    }

    // The bound just past an event.
    pub fn past(stamp: u32) -> Bound
        ensures { (result.stamp ≡ stamp + 1) × (result.stamp ≤ horizon) }
    {
        Bound {
            stamp: stamp as u64 + 1,
        }
    }

    // Whether it is a bound at all: none lies above the horizon.
    pub fn fits(self) -> bool
        ensures { result ≡ leb self.stamp horizon }
    {
        self.stamp <= Bound::HORIZON
    }
}

// The events that a stream holds, of which there is room for 16.
#[derive(Clone, Copy)]
pub struct Queue {
    pub count: u64,
}

impl Queue {
    // How many events a stream holds at most.
    pub const ROOM: u64 = 16;

    // A queue of as many events as a record counts.
    pub fn new(count: u64) -> Queue
        ensures { result.count ≡ count }
    {
        Queue { count }
    }

    // Whether it takes no more.
    pub fn is_full(self) -> bool
        ensures { result ≡ leb room self.count }
    {
        Queue::ROOM <= self.count
    }

    // Whether it is a queue at all: none holds more than there is room for.
    pub fn fits(self) -> bool
        ensures { result ≡ leb self.count room }
    {
        self.count <= Queue::ROOM
    }

    // How many events it holds, never more than there is room for.
    pub fn length(self) -> usize
        ensures { (result ≡ min self.count room) × (result ≤ room) }
    {
        if self.count < Queue::ROOM {
            return self.count as usize;
        }
        Queue::ROOM as usize
    }
}

// At how many stamps an event was missing: it stops at the limit.
#[derive(Clone, Copy)]
pub struct Count {
    pub number: u64,
}

impl Count {
    // The greatest count: four bytes hold it.
    pub const LIMIT: u64 = 4294967295;

    // A count as it is stored.
    pub fn new(number: u64) -> Count
        ensures { result.number ≡ number }
    {
        Count { number }
    }

    // The count with so many more.
    pub fn plus(self, more: u64) -> u64
        requires { self.number ≤ count_limit }
        ensures { (result ≡ min count_limit (self.number + more)) × (result ≤ count_limit) }
    {
        if Count::LIMIT - self.number < more {
            return Count::LIMIT;
        }
        self.number + more
    }
}
