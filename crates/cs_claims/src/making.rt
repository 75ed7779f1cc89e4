ghost use Rattle.std.specs.Prelude.{◌≡◌, ◌<◌, length, map};
ghost use Rattle.cs_daytree.specs.Tree.{tree_of};
ghost use Rattle.cs_claims.specs.Answers.{Tells};
ghost use Rattle.cs_claims.specs.Certificate.{class_of, content};
ghost use Rattle.cs_claims.specs.Content.{content_of, stretch_of};
ghost use Rattle.cs_claims.specs.Kept.{Keeps};
ghost use Rattle.cs_claims.specs.Rules.{judged};

use crate::certificate::Certificate;
use crate::class::Class;
use crate::fault::CertFault;
use crate::parts::Parts;
use crate::stretch::Stretch;
use cs_civil::{DayKind, Sequence};
use cs_daytree::DayTree;
use cs_windows::JobReach;

impl Certificate {
    /// Makes a certificate, without allocating.
    ///
    /// The error is the fault with the smallest number, from 3 on: `BadVersion` for a version other
    /// than 1, 2 and 3; `BadShape` for a stretch of a length that the version doesn't allow
    /// (version 3 has no stretch), or a class of version 3 with more than what is left over at
    /// midnight; the others as [`CertFault`] says.
    pub fn new(
        version: u8,
        classes: Sequence<Class>,
        kinds: DayTree,
        stretches: Sequence<Stretch>,
        reach: Sequence<JobReach>,
    ) -> Result<Certificate, CertFault>
        ensures { Tells content result (judged (record {
          version = version;
          classes = classes;
          kinds = tree_of kinds;
          stretches = map stretch_of stretches;
          reach = reach;
        })) }
    {
        Certificate::of_parts(Parts {
            version,
            classes,
            kinds,
            stretches,
            reach,
        })
    }

    /// Like [`new`](Certificate::new), of parts.
    pub fn of_parts(parts: Parts) -> Result<Certificate, CertFault>
        ensures { Tells content result (judged (content_of parts)) }
    {
        match parts.fault() {
            Some(fault) => Err(fault),
            None => Ok(Certificate { parts }),
        }
    }

    fn parts(&self) -> &Parts
        ensures value { result.now ≡ self.now.parts }
        ensures kept { Keeps (content self.now) }
    {
        &self.parts
    }

    /// Returns the parts, which keep the rules.
    pub fn as_parts(&self) -> &Parts
        ensures { content_of result.now ≡ content self.now }
    {
        self.parts()
    }

    /// Returns the version: 1 for stretches of two days, 2 for two to four, 3 for none.
    pub fn version(&self) -> u8
        ensures value { result ≡ (content self.now).version }
        ensures kept { Keeps (content self.now) }
    {
        self.parts().version
    }

    /// Returns the classes of days, numbered from 0: 1 to 512, in version 3 up to 2,562.
    pub fn classes(&self) -> &[Class]
        ensures value { result.now ≡ (content self.now).classes }
        ensures kept { Keeps (content self.now) }
    {
        self.parts().classes.as_slice()
    }

    /// Returns the class of each kind of day: one of [`classes`](Certificate::classes).
    pub fn kinds(&self) -> &DayTree
        ensures value { tree_of result.now ≡ (content self.now).kinds }
        ensures kept { Keeps (content self.now) }
    {
        &self.parts().kinds
    }

    /// Returns the class of a kind of day.
    pub fn class_of(&self, kind: DayKind) -> u32
        ensures value { result ≡ class_of (content self.now) kind }
        ensures there { result < length (content self.now).classes }
    {
        self.parts().kinds.class_of(kind)
    }

    /// Returns the stretches, strictly rising by length, then by their classes. Version 3 has none.
    pub fn stretches(&self) -> &[Stretch]
        ensures value { map stretch_of result.now ≡ (content self.now).stretches }
        ensures kept { Keeps (content self.now) }
    {
        self.parts().stretches.as_slice()
    }

    /// Returns the reaches, jobs strictly rising.
    pub fn reach(&self) -> &[JobReach]
        ensures value { result.now ≡ (content self.now).reach }
        ensures kept { Keeps (content self.now) }
    {
        self.parts().reach.as_slice()
    }
}
