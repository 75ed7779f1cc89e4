//! What a tick logs besides the runs that it started.
ghost use Rattle.std.specs.Prelude.{◌≡◌, ◌⊎◌, ◌<◌, [], ◌∷◌, ◌++◌};

use cs_jobs::LogLine;
use std::alloc::Global;

/// Lines to log, and how many more were lost because memory ran out.
#[derive(Drop)]
pub(crate) struct Notices {
    lines: Vec<LogLine>,
    lost: u64,
}

impl Notices {
    pub(crate) fn none(alloc: Global) -> Notices
        ensures { (result.lines.items ≡ []) × (result.lost ≡ 0) }
    {
        Notices {
            lines: Vec::new(alloc),
            lost: 0,
        }
    }

    pub(crate) fn add(&mut self, line: LogLine)
        ensures { ((self.new.lines.items ≡ self.old.lines.items ++ line ∷ [])
            × (self.new.lost ≡ self.old.lost)) ⊎ (0 < self.new.lost) }
    {
        if self.lines.push(line).is_err() {
            self.lost = self.lost.saturating_add(1);
        }
    }

    pub(crate) fn lines(&self) -> &[LogLine] {
        self.lines.as_slice()
    }

    pub(crate) fn lost(&self) -> u64 {
        self.lost
    }
}
