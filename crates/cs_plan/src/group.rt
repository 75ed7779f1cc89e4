ghost use Rattle.std.specs.Prelude.{◌≡◌, IfOk};

use cs_civil::Bytes;
use std::alloc::{AllocError, Global};
use std::marker::Model;

/// A group of jobs.
#[derive(Debug, Drop)]
pub struct Group {
    title: Bytes,
    exclusive: bool,
}

impl Model for Group {
    ghost use Rattle.cs_plan.specs.Plan.{DeclaredGroup};

    ghost Value = { DeclaredGroup };

    ghost view = { λ a. record { name = a.title; exclusive = a.exclusive } };
}

impl Group {
    /// The runs of its jobs exclude one another if it is exclusive.
    pub fn new(name: Bytes, exclusive: bool) -> Group
        ensures { result ≡ record { name = name; exclusive = exclusive } }
    {
        Group {
            title: name,
            exclusive,
        }
    }

    /// Copies the group.
    pub(crate) fn copy(&self, alloc: Global) -> Result<Group, AllocError>
        ensures { IfOk result (λ group. group ≡ self.now) }
    {
        Ok(Group {
            title: Bytes::from_slice(alloc, self.title.as_slice())?,
            exclusive: self.exclusive,
        })
    }

    /// Returns its name: UTF-8, and unlike that of any other group of its plan.
    pub fn name(&self) -> &[u8]
        ensures { result.now ≡ self.now.name }
    {
        self.title.as_slice()
    }

    /// Whether no two runs of its jobs may overlap, unless both share its lock.
    pub fn is_exclusive(&self) -> bool
        ensures { result ≡ self.now.exclusive }
    {
        self.exclusive
    }
}
