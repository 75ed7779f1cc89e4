ghost use Rattle.std.specs.Prelude.{◌≡◌};
ghost use Rattle.cs_maker.specs.Reason.{reason_name};

/// Why the maker finds neither a certificate nor a script that breaks the plan.
#[derive(Clone, Copy, PartialEq, Eq)]
pub enum Reason {
    /// The days have more classes than a certificate can. Not returned: a compact one is made.
    TooManyClasses,
    /// The certificate's text or a leaf is too long, and the maker made no compact one.
    LeafTooLong,
    /// A tree of the certificate would be too deep. Not returned.
    TooDeep,
    /// A job may have to wait too long for its lock.
    NoReach,
    /// Windows break a rule, but no history was found in which runs do.
    NoScript,
    /// What the maker made wasn't confirmed.
    NotChecked,
    /// Memory ran out.
    NoMemory,
}

impl Reason {
    /// Returns its name, as printed.
    pub fn name(self) -> &'static str
        ensures { result.now ≡ reason_name self }
    {
        match self {
            Reason::TooManyClasses => "TooManyClasses",
            Reason::LeafTooLong => "LeafTooLong",
            Reason::TooDeep => "TooDeep",
            Reason::NoReach => "NoReach",
            Reason::NoScript => "NoScript",
            Reason::NotChecked => "NotChecked",
            Reason::NoMemory => "NoMemory",
        }
    }
}
