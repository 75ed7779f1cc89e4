ghost use Rattle.std.specs.Prelude.{◌≡◌, All, IfOk, vec_len};
ghost use Rattle.cs_machine.specs.Runners.{IsMadeBy};

use crate::output::OutputFolder;
use crate::setup::JobNote;
use std::alloc::{AllocError, Global};

/// The settings of a daemon's runners.
#[derive(Clone, Copy)]
pub struct RunnerWords<'a> {
    /// Whether commands get the user's variables and run in the user's home folder.
    pub has_home: bool,
    /// Whether a signal that ended a command is reported.
    pub tells_signals: bool,
    /// The folder in which each run gets a file for its output. If none, output goes to the
    /// daemon's own streams.
    pub output: Option<&'a str>,
    /// How many files of each job are kept there, at least 1.
    pub keep: u64,
    /// The jobs, for the names of those files.
    pub jobs: &'a [JobNote],
    /// The offset of the plan's clock, in minutes ahead of UTC, if runs are ended in time.
    pub offset: Option<i16>,
}

/// What one runner is made with.
#[derive(Drop)]
pub struct RunnerSetup {
    /// As in [`RunnerWords`].
    pub has_home: bool,
    /// As in [`RunnerWords`].
    pub tells_signals: bool,
    /// The folder for output, if there is one.
    pub output: Option<OutputFolder>,
    /// As in [`RunnerWords`].
    pub offset: Option<i16>,
}

fn runner_by<W: Drop, F: Fn(RunnerSetup) -> W + Drop>(
    alloc: Global,
    words: RunnerWords<'_>,
    new_runner: &F,
) -> Result<W, AllocError>
    requires { F.IsAlwaysCallable new_runner.now }
    ensures { IfOk result (IsMadeBy (F.post new_runner.now) words.entry) }
{
    let output = match words.output {
        Some(path) => Some(OutputFolder::new(alloc, path, words.keep, words.jobs)?),
        None => None,
    };
    Ok(new_runner(RunnerSetup {
        has_home: words.has_home,
        tells_signals: words.tells_signals,
        output,
        offset: words.offset,
    }))
}

/// Makes this number of runners, each by a call of `new_runner`.
pub fn runners_by<W: Drop, F: Fn(RunnerSetup) -> W + Drop>(
    alloc: Global,
    number: u8,
    words: RunnerWords<'_>,
    new_runner: &F,
) -> Result<Vec<W>, AllocError>
    requires { F.IsAlwaysCallable new_runner.now }
    ensures number { IfOk result (λ runners. vec_len runners ≡ number) }
    ensures made { IfOk result
        (λ runners. All (IsMadeBy (F.post new_runner.now) words.entry) runners.items) }
{
    let mut runners = Vec::new(alloc);
    for _ in 0..number {
        runners.push(runner_by(alloc, words, new_runner)?)?;
    }
    Ok(runners)
}
