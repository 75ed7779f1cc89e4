ghost use Rattle.std.specs.Prelude.{◌≡◌, option_map};
ghost use Rattle.cs_machine.specs.Setup.{note_of, peers_of};

use cs_civil::Bytes;
use cs_schedule::Schedule;
use cs_zone::Zone;

/// What a daemon reports of a job besides its runs.
#[derive(Drop)]
pub struct JobNote {
    /// How the names of its runs begin, such as `line 3 due ` or `job backup at `.
    pub front: Bytes,
    /// The longest time of a run, in minutes.
    pub max: u64,
    /// The jobs whose runs may meet a late run of it, such as `line 5, job backup`; empty if there
    /// are none.
    pub peers: Bytes,
    /// When its line of the crontab is due; none for a job of the anacrontab.
    pub when: Option<Schedule>,
    /// The zone by whose clock that is.
    pub zone: Zone,
    /// The name of the zone's clock in the part of the year in which it shows another minute than
    /// the plan's, such as `CEST`; empty if there is none.
    pub other_clock: Bytes,
    /// What people call it: the name of its entry, else the program of its command; the identifier
    /// of a job of the anacrontab.
    pub name: Bytes,
    /// Its command.
    pub command: Bytes,
    /// The user that its command runs as; none if it is the daemon's own.
    pub user: Option<Bytes>,
}

/// What a daemon was begun with.
#[derive(Clone, Copy)]
pub struct Setup<'a> {
    /// The program's version, as `1.2.3`.
    pub version: &'a str,
    /// The path of its crontab.
    pub table: &'a str,
    /// The path of its declarations.
    pub declarations: &'a str,
    /// The path of its certificate.
    pub certificate: &'a str,
    /// The SHA-256 of the certificate's bytes (FIPS 180-4).
    pub digest: [u8; 32],
    /// The path of its anacrontab.
    pub anacrontab: Option<&'a str>,
    /// The path of the folder for the output of runs, if there is one.
    pub output: Option<&'a str>,
    /// The greatest weight of the jobs that may run at once.
    pub capacity: u64,
    /// The minutes by which the operator's clock is ahead of UTC.
    pub offset: i16,
    /// Its jobs. A run is of the first job whose front begins its name.
    pub jobs: &'a [JobNote],
    /// Whether it has hooks: commands of the operator's, started at what happens to a run.
    pub has_hooks: bool,
    /// Whether runs are ended in time.
    pub has_limits: bool,
}

/// Returns what is said of a run's job; none for a run of no job here.
pub fn note_of<'a>(jobs: &'a [JobNote], run: &[u8]) -> Option<&'a JobNote>
    ensures { option_map (λ note. note.now) result ≡ note_of run.now jobs.now }
{
    for note in jobs {
        if run.starts_with(note.front.as_slice()) {
            return Some(note);
        }
    }
    None
}

pub(crate) fn peers_of<'a>(jobs: &'a [JobNote], run: &[u8]) -> &'a [u8]
    ensures { result.now ≡ peers_of run.now jobs.now }
{
    match note_of(jobs, run) {
        Some(note) => note.peers.as_slice(),
        None => b"".as_slice(),
    }
}

/// In seconds, as `since`. None for a run of no job here, and where 64 bits don't hold it.
pub(crate) fn end_of(jobs: &[JobNote], run: &[u8], since: u64) -> Option<u64> {
    let note = note_of(jobs, run)?;
    since.checked_add(note.max.checked_mul(60)?)
}
