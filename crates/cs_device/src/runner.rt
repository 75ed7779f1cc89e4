//! Runs of commands, by their outcomes.
ghost use Rattle.std.specs.Prelude.{◌≡◌, ℕ, ◌<◌, ◌≤◌};
ghost use Rattle.cs_device.specs.Asked.{asked};

use cs_civil::{Bytes, Minute};

/// How a run ended.
#[derive(Clone, Copy, PartialEq, Eq)]
pub enum Outcome {
    /// It exited with this status, from 0 to 255 on this machine.
    Exited(i32),
    /// A signal of this number ended it.
    Killed(i32),
    /// It ended without a status, and no signal is known.
    Ended,
    /// It couldn't be started.
    NotStarted,
}

/// Runs commands.
pub trait Runner {
    ghost use Rattle.cs_device.specs.Asked.{Asked};
    ghost use Rattle.cs_device.specs.declared.runner.Outcome.{Outcome};
    ghost use Rattle.cs_device.specs.declared.runner.Outcome.TheVariants.{NotStarted};

    /// What one run does to the runner, by what is asked and the outcome. A proof about any runner
    /// knows nothing else of it: going from one state to the other shows that this was run, once.
    ghost runs: { Self → Asked → Outcome → Self → Type 0 };

    /// How often a command couldn't be started.
    ghost failures: { Self → ℕ };

    /// Runs a command until it has ended, as this user or the daemon's, with this standard input,
    /// or an empty one, and these names and values in its environment. `name` is the run's, as a
    /// log has it, `until` the minute in which it must have ended.
    fn run(
        &mut self,
        name: &[u8],
        user: Option<&[u8]>,
        command: &[u8],
        input: Option<&[u8]>,
        env: &[(Bytes, Bytes)],
        until: Option<Minute>,
    ) -> Outcome
        ensures runs { runs self.old
            (asked name.now user.entry command.now input.entry env.now until) result self.new }
        ensures failures { failures self.old ≤ failures self.new }
        ensures failed { result ≡ NotStarted → failures self.old < failures self.new };
}
