/// The rule about windows that is broken.
#[derive(Clone, Copy)]
pub enum Rule {
    /// Two windows of an exclusive group meet.
    Collision,
    /// What may run weighs more than the capacity.
    OverCapacity,
    /// The lock may be kept from this skip job, which is due at the minute.
    SkipBlocked { skip: u16 },
}

/// The window of a run, in civil minutes since 1970-01-01: it may go on in `[from, to)`.
#[derive(Clone, Copy)]
pub struct Span {
    pub job: u16,
    pub from: u64,
    pub to: u64,
}

/// A civil minute at which windows break a rule.
#[derive(Drop)]
pub struct Breach {
    pub rule: Rule,
    /// The minute, counted since 1970-01-01.
    pub at: u64,
    /// The windows that hold it.
    pub held: Vec<Span>,
}
