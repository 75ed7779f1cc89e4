//! What is found of a plan, for programs.
ghost use Rattle.std.specs.Prelude.{◌≡◌, ◌∷◌, [], IfOk, string_bytes};
ghost use Rattle.cs_cli.specs.Judge.{AreFindings, IsFound, shown_rule};
ghost use Rattle.cs_diagnostics.specs.declared.told.Level.TheVariants.{Error, Warning};
ghost use Rattle.cs_judge.specs.Judged.{IfUnsafe, Shows};
ghost use Rattle.cs_maker.specs.Reason.{reason_name};

use cs_args::JudgeWords;
use cs_civil::{Minute, date_text};
use cs_counterexample::{Shown, shown_text};
use cs_diagnostics::Level;
use cs_findings::{Event as EventTold, Finding, JobTold, Verdict, name_in};
use cs_history::{Event, Mode, Script};
use cs_judge::Judged;
use cs_maker::Reason;
use cs_place::{Place, place_of, push_place_text};
use cs_plan::{Job, Plan, identifier_of, push_command_name};
use cs_report::fault_text;
use cs_ruling::jobs_of;
use cs_theorem::CheckFault;
use cs_verdict::{Breach, takes_part};
use std::alloc::{AllocError, Global};

fn minute_text(alloc: Global, minute: Minute) -> Result<String, AllocError> {
    let mut text = date_text(minute);
    text[10] = b'T';
    String::from_utf8_lossy(alloc, &text)
}

/// None too of a minute that has no date.
fn minute_at(alloc: Global, at: Option<u64>) -> Result<Option<String>, AllocError> {
    let Some(number) = at else {
        return Ok(None);
    };
    match Minute::new(number) {
        Some(minute) => Ok(Some(minute_text(alloc, minute)?)),
        None => Ok(None),
    }
}

/// The name of a mode as declarations write it.
fn mode_name(mode: Mode) -> &'static str {
    match mode {
        Mode::Plain => "none",
        Mode::Skip => "skip",
        Mode::Try => "try",
        Mode::Wait => "wait",
        Mode::Shared => "shared",
    }
}

/// A job's line in its table.
#[derive(Clone, Copy)]
struct Row<'a, 'p> {
    file: &'a str,
    line: u32,
    command: &'p [u8],
}

/// A plan, and the files that it comes from.
#[derive(Clone, Copy)]
pub(crate) struct Source<'a, 'p> {
    pub(crate) table: &'a str,
    pub(crate) anacrontab: Option<&'a str>,
    pub(crate) plan: &'p Plan,
    pub(crate) places: &'p [Place],
}

impl<'a, 'p> Source<'a, 'p> {
    fn row(self, job: usize) -> Row<'a, 'p> {
        if let Some(line) = self.plan.crontab().lines().get(job) {
            return Row {
                file: self.table,
                line: line.number(),
                command: line.command(),
            };
        }
        let file = self.anacrontab.unwrap_or(self.table);
        let number = job.saturating_sub(self.plan.crons());
        match self.plan.anacrontab().lines().get(number) {
            Some(line) => Row {
                file,
                line: line.number(),
                command: line.command(),
            },
            None => Row {
                file,
                line: 0,
                command: b"",
            },
        }
    }

    fn name(self, alloc: Global, job: usize) -> Result<Vec<u8>, AllocError> {
        let mut name = Vec::new(alloc);
        if job < self.plan.crons() {
            push_command_name(alloc, &mut name, self.plan, job)?;
        } else {
            name.extend_from_slice(b"job ")?;
            name.extend_from_slice(identifier_of(self.plan, job))?;
        }
        Ok(name)
    }

    /// Only lines of the crontab have places.
    fn place(self, alloc: Global, job: usize, line: u32) -> Result<Option<Vec<u8>>, AllocError> {
        match place_of(self.places, line) {
            Some(place) if job < self.plan.crons() => {
                let mut text = Vec::new(alloc);
                push_place_text(&mut text, place)?;
                Ok(Some(text))
            }
            _ => Ok(None),
        }
    }

    fn group(self, alloc: Global, terms: Job) -> Result<Option<Vec<u8>>, AllocError> {
        let Some(number) = terms.group() else {
            return Ok(None);
        };
        match self.plan.groups().get(usize::from(number)) {
            Some(group) => Ok(Some(Vec::from_slice(alloc, group.name())?)),
            None => Ok(None),
        }
    }

    fn job(self, alloc: Global, job: usize, terms: Job) -> Result<JobTold<'a>, AllocError> {
        let row = self.row(job);
        Ok(JobTold {
            name: self.name(alloc, job)?,
            file: row.file,
            line: u64::from(row.line),
            place: self.place(alloc, job, row.line)?,
            command: Vec::from_slice(alloc, row.command)?,
            max: u64::from(terms.max()),
            weight: u64::from(terms.weight()),
            group: self.group(alloc, terms)?,
            mode: mode_name(terms.mode()),
        })
    }

    fn jobs(self, alloc: Global, numbers: &[usize]) -> Result<Vec<JobTold<'a>>, AllocError> {
        let mut jobs = Vec::new(alloc);
        for job in numbers {
            if let Some(terms) = self.plan.jobs().get(*job) {
                jobs.push(self.job(alloc, *job, *terms)?)?;
            }
        }
        Ok(jobs)
    }

    fn event(self, alloc: Global, event: Event) -> Result<EventTold, AllocError> {
        let (name, at, job) = match event {
            Event::Minute(at) => ("minute", Some(at), None),
            Event::Begin(job) => ("begin", None, Some(job)),
            Event::Got(job, at) => ("got", Some(at), Some(job)),
            Event::Catch(job) => ("catch", None, Some(job)),
            Event::End(run) => ("end", Some(run.at), Some(run.job)),
            Event::Down => ("down", None, None),
            Event::Up(at) => ("up", Some(at), None),
        };
        let job = match job {
            Some(job) => Some(self.name(alloc, usize::from(job))?),
            None => None,
        };
        Ok(EventTold {
            minute: minute_at(alloc, at)?,
            name,
            job,
        })
    }

    fn story(self, alloc: Global, script: &Script) -> Result<Vec<EventTold>, AllocError> {
        let mut story = Vec::new(alloc);
        for event in script.events.as_slice() {
            story.push(self.event(alloc, *event)?)?;
        }
        Ok(story)
    }

    /// The jobs that take part in what is broken, the last one to start first.
    fn takers(
        self,
        alloc: Global,
        shown: Shown,
        breach: &Breach,
    ) -> Result<Vec<usize>, AllocError> {
        let mut jobs = Vec::new(alloc);
        if let Shown::Skipped(job, _) = shown {
            jobs.push(usize::from(job))?;
        }
        for going in breach.running.as_slice().iter().rev() {
            if takes_part(self.plan, shown, going.run) {
                jobs.push(usize::from(going.run.job))?;
            }
        }
        Ok(jobs)
    }

    fn broken(
        self,
        alloc: Global,
        script: &Script,
        shown: &Shown,
        breach: &Breach,
    ) -> Result<Finding<'a>, AllocError>
        requires { Shows self.plan.now script.now shown.now }
        ensures { IfOk result (IsFound Error (shown_rule shown.now)) }
    {
        let jobs = self.takers(alloc, *shown, breach)?;
        let verdict = Verdict {
            minute: Some(minute_text(alloc, breach.minute)?),
            jobs: self.jobs(alloc, jobs.as_slice())?,
            story: self.story(alloc, script)?,
        };
        let words = shown_text(alloc, self.plan, shown)?;
        let (level, rule) = (Level::Error, shown_rule(*shown));
        Finding::of_plan(alloc, self.table, level, rule, words.as_slice(), verdict)
    }

    /// What a refusal shows.
    fn refused(self, alloc: Global, fault: &CheckFault) -> Result<Verdict<'a>, AllocError> {
        let jobs = jobs_of(alloc, fault)?;
        let minute = match minute_of(fault) {
            Some(minute) => Some(minute_text(alloc, minute)?),
            None => None,
        };
        Ok(Verdict {
            minute,
            jobs: self.jobs(alloc, jobs.as_slice())?,
            story: Vec::new(alloc),
        })
    }

    fn unknown(
        self,
        alloc: Global,
        reason: Reason,
        refusal: &Option<CheckFault>,
    ) -> Result<Finding<'a>, AllocError>
        ensures { IfOk result (IsFound Warning (reason_name reason)) }
    {
        let verdict = match refusal {
            Some(fault) => self.refused(alloc, fault)?,
            None => Verdict {
                minute: None,
                jobs: Vec::new(alloc),
                story: Vec::new(alloc),
            },
        };
        let mut words = Vec::from_slice(alloc, b"unknown: ".as_slice())?;
        words.extend_from_slice(reason.name().as_bytes())?;
        let (level, rule) = (Level::Warning, reason.name());
        Finding::of_plan(alloc, self.table, level, rule, words.as_slice(), verdict)
    }

    /// The finding of a certificate that is refused. Its rule is the fault's name.
    pub(crate) fn refusal(
        self,
        alloc: Global,
        fault: &CheckFault,
    ) -> Result<Finding<'a>, AllocError> {
        let verdict = self.refused(alloc, fault)?;
        let words = fault_text(alloc, self.plan, fault)?;
        let words = words.as_slice();
        let named = words.strip_prefix(b"refused ".as_slice()).unwrap_or(words);
        let rule = String::from_utf8_lossy(alloc, name_in(named))?;
        Finding::of_plan(
            alloc,
            self.table,
            Level::Error,
            rule.as_str(),
            words,
            verdict,
        )
    }
}

/// The checker's name of what a history breaks.
fn shown_rule(shown: Shown) -> &'static str
    ensures { result.now ≡ shown_rule shown }
{
    match shown {
        Shown::Together(_, _) => "Collision",
        Shown::Load(_) => "OverCapacity",
        Shown::Skipped(_, _) => "SkipBlocked",
    }
}

fn minute_of(fault: &CheckFault) -> Option<Minute> {
    match fault {
        CheckFault::BacklogRises { at, .. }
        | CheckFault::WindowMissing { at, .. }
        | CheckFault::Collision { at, .. }
        | CheckFault::OverCapacity { at, .. }
        | CheckFault::SkipBlocked { at, .. } => Some(*at),
        CheckFault::ClassNotDue(_)
        | CheckFault::MissingPair(_)
        | CheckFault::ReachTooShort { .. } => None,
    }
}

fn alone<'a>(alloc: Global, finding: Finding<'a>) -> Result<Vec<Finding<'a>>, AllocError>
    ensures { IfOk result (λ findings. findings.items ≡ finding.entry ∷ []) }
{
    let mut findings = Vec::new(alloc);
    findings.push(finding)?;
    Ok(findings)
}

/// The findings of a judged plan of these paths: none if it is safe; an error in the line of the job
/// that breaks a rule, with all jobs that take part and the history, if it is unsafe; else a warning
/// that names the reason, and the jobs of the refusal. The only error is out of memory.
pub fn verdict_findings<'a, 'p>(
    alloc: Global,
    words: &JudgeWords<'a>,
    plan: &'p Plan,
    places: &'p [Place],
    judged: &Judged,
) -> Result<Vec<Finding<'a>>, AllocError>
    requires { IfUnsafe judged.now (Shows plan.now) }
    ensures { IfOk result (λ findings. AreFindings judged.now findings.items) }
{
    let source = Source {
        table: words.table,
        anacrontab: words.anacrontab,
        plan,
        places,
    };
    match judged {
        Judged::Safe(_) => Ok(Vec::new(alloc)),
        Judged::Unsafe(script, shown, breach) => {
            alone(alloc, source.broken(alloc, script, shown, breach)?)
        }
        Judged::Unknown(reason, refusal) => {
            alone(alloc, source.unknown(alloc, *reason, refusal)?)
        }
    }
}

/// The finding of a certificate that is refused for a plan of these paths. The only error is out of
/// memory.
pub fn refusal_finding<'a, 'p>(
    alloc: Global,
    words: &JudgeWords<'a>,
    plan: &'p Plan,
    places: &'p [Place],
    fault: &CheckFault,
) -> Result<Finding<'a>, AllocError> {
    let source = Source {
        table: words.table,
        anacrontab: words.anacrontab,
        plan,
        places,
    };
    source.refusal(alloc, fault)
}
