ghost use Rattle.std.specs.Prelude.{◌≡◌, IfOk};
ghost use Rattle.cs_gather.specs.Gathered.{place_text, user_text};

use crate::comment::{push_place, push_user};
use cs_civil::Bytes;
use cs_crontab::When;
use std::alloc::{AllocError, Global};

/// A command that was gathered, and the comment above it.
#[derive(Drop)]
pub(crate) struct Gathered {
    /// The number of its line in its table.
    pub(crate) number: u32,
    /// `NAME:LINE` of its table.
    pub(crate) origin: Bytes,
    /// The user that it runs as, as one word.
    pub(crate) user: Bytes,
    pub(crate) when: When,
    pub(crate) command: Bytes,
}

impl Gathered {
    pub(crate) fn new(
        alloc: Global,
        name: &[u8],
        number: u32,
        user: &[u8],
        when: &When,
        command: &[u8],
    ) -> Result<Gathered, AllocError>
        ensures { IfOk result (λ gathered. gathered ≡ record {
          number = number;
          origin = place_text name.now number;
          user = user_text user.now;
          when = when.now;
          command = command.now;
        }) }
    {
        let mut origin = Vec::new(alloc);
        push_place(alloc, &mut origin, name, number)?;
        let mut owner = Vec::new(alloc);
        push_user(alloc, &mut owner, user)?;
        Ok(Gathered {
            number,
            origin: Bytes::from_vec(origin),
            user: Bytes::from_vec(owner),
            when: match when {
                When::At(schedule) => When::At(schedule.copy()),
                When::Reboot => When::Reboot,
            },
            command: Bytes::from_slice(alloc, command)?,
        })
    }
}
