//! What the words of a call ask.
ghost use Rattle.std.specs.Prelude.{◌≡◌, IfOk, Some, count_by, is_some, map, option_map};
ghost use Rattle.std.specs.Char.{is_ascii_digit};
ghost use Rattle.std.specs.List.{list_all, slice_get};
ghost use Rattle.clap.specs.Words.{first_of, found_of, rows_of};
ghost use Rattle.cs_args.specs.Asked.{Advise, Chart, Diff, Draft, Gather, Learn, Lint, Next};
ghost use Rattle.cs_args.specs.Asked.{Replay, Run, asked, asked_advise, asked_all, asked_chart};
ghost use Rattle.cs_args.specs.Asked.{asked_check, asked_diff, asked_draft, asked_gather};
ghost use Rattle.cs_args.specs.Asked.{asked_judge, asked_learn, asked_lint, asked_next};
ghost use Rattle.cs_args.specs.Asked.{asked_replay, asked_run, asking};
ghost use Rattle.cs_args.specs.CommandLine.{Answers, FaultOf, Parses, all_in, asked_by, asked_in};
ghost use Rattle.cs_args.specs.CommandLine.{check_in, day_in, format_in, format_named, has_flag};
ghost use Rattle.cs_args.specs.CommandLine.{has_no_number, has_unfit_format, has_unknown_name};
ghost use Rattle.cs_args.specs.CommandLine.{is_dash, is_given, is_misfit, is_twice_standard};
ghost use Rattle.cs_args.specs.CommandLine.{is_unsuited, is_wrong, judge_in, number_of, number_or};
ghost use Rattle.cs_args.specs.CommandLine.{numbers_of, optional_number, second_of, value_or};
ghost use Rattle.cs_args.specs.CommandLine.{values_in};
ghost use Rattle.cs_args.specs.Table.{words_given};
ghost use Rattle.cs_args.specs.declared.table.Subcommand.TheVariants as subcommand;

use crate::commands::command;
use crate::request::{
    AdviseWords, AllWords, ApplyWords, ChartWords, CheckWords, DayWords, DiffWords, DraftWords,
    Format, GatherWords, JudgeWords, LearnWords, LintWords, MakeWords, NextWords, ReloadWords,
    ReplayWords, Request, RunWords, StatusWords, StopWords, UsageFault, WallWords,
};
use crate::table::Subcommand;
use clap::error::ErrorKind;
use clap::{ArgMatches, Error};
use std::alloc::{AllocError, Global};
use std::convert::AsStr;

/// The arguments whose value is a number.
static NUMBERS: [&str; 9] = [
    "MAX", "from", "to", "days", "max", "minutes", "keep", "within", "first",
];

/// The same of `next`, whose `--from` is a date.
static NEXT_NUMBERS: [&str; 1] = ["count"];

/// The arguments at which `-` is standard input.
static INPUTS: [&str; 16] = [
    "TABLE",
    "DECLS",
    "CERT",
    "SCRIPT",
    "LOG",
    "anacrontab",
    "declarations",
    "update",
    "max-from",
    "zone",
    "system",
    "user",
    "OLD_TABLE",
    "OLD_DECLS",
    "NEW_TABLE",
    "NEW_DECLS",
];

fn fault_of(alloc: Global, error: &Error) -> UsageFault
    ensures { FaultOf error.now result }
{
    let kind = error.kind();
    if kind == ErrorKind::OutOfMemory {
        return UsageFault::OutOfMemory;
    }
    if kind == ErrorKind::DisplayVersion {
        return UsageFault::Version;
    }
    match error.to_string(alloc) {
        Ok(text) if kind == ErrorKind::DisplayHelp => UsageFault::Help(text),
        Ok(text) => UsageFault::NoCall(text),
        Err(_) => UsageFault::OutOfMemory,
    }
}

fn has_only_digits(bytes: &[u8]) -> bool
    ensures { result ≡ list_all is_ascii_digit bytes.now }
{
    bytes.iter().all(|b| b.is_ascii_digit())
}

#[tactic(auto, using(crate::proofs::CommandLineLemmas::number_read, crate::proofs::CommandLineLemmas::number_refused))]
fn digits(text: &str) -> Option<u64>
    ensures { result ≡ number_of text.now }
{
    if !has_only_digits(text.as_bytes()) {
        return None;
    }
    text.parse::<u64>().ok()
}

#[tactic(auto, using(crate::proofs::CommandLineLemmas::second_mapped))]
fn second<'a>(paths: &[&'a str]) -> Option<&'a str>
    ensures { option_map (λ path. path.now) result
        ≡ slice_get (map (λ path. path.now) paths.now) 1 }
{
    paths.get(1).copied()
}

fn dash_count(paths: &[&str]) -> usize
    ensures { result ≡ count_by is_dash (map (λ path. path.now) paths.now) }
{
    paths.iter().filter(|path| **path == "-").count()
}

fn format_named(name: &str) -> Option<Format>
    ensures { result ≡ format_named name.now }
{
    if name == "text" {
        Some(Format::Text)
    } else if name == "json" {
        Some(Format::Json)
    } else if name == "sarif" {
        Some(Format::Sarif)
    } else if name == "github" {
        Some(Format::Github)
    } else {
        None
    }
}

/// The words of a subcommand, as `clap` found them.
#[derive(Clone, Copy)]
struct Given<'a, 'm> {
    alloc: Global,
    subcommand: Subcommand,
    matches: &'m ArgMatches<'a>,
}

impl<'a, 'm> Given<'a, 'm> {
    fn value(self, id: &str) -> Option<&'a str>
        ensures { option_map (λ text. text.now) result ≡ first_of id.now (words_given self.entry) }
    {
        self.matches.get_str(id)
    }

    fn is_given(self, id: &str) -> bool
        ensures { result ≡ is_given id.now (words_given self.entry) }
    {
        self.value(id).is_some()
    }

    fn text(self, id: &str, absent: &'a str) -> &'a str
        ensures { result.now ≡ value_or absent.now id.now (words_given self.entry) }
    {
        match self.value(id) {
            Some(text) => text,
            None => absent,
        }
    }

    fn values(self, id: &str) -> Result<Vec<&'a str>, AllocError>
        ensures { IfOk result (λ values. map (λ text. text.now) values.items
            ≡ values_in id.now (words_given self.entry)) }
    {
        match self.matches.get_strs(id) {
            Some(values) => Vec::from_slice(self.alloc, values),
            None => Ok(Vec::new(self.alloc)),
        }
    }

    fn has_flag(self, id: &str) -> bool
        ensures { result ≡ has_flag id.now (words_given self.entry) }
    {
        match self.value(id) {
            Some(text) => text == "true",
            None => false,
        }
    }

    fn dashes(self, id: &str) -> usize
        ensures { result ≡ count_by is_dash (values_in id.now (words_given self.entry)) }
    {
        match self.matches.get_strs(id) {
            Some(paths) => dash_count(paths),
            None => 0,
        }
    }

    fn is_twice_standard(self, ids: &[&str]) -> bool
        ensures { result ≡ is_twice_standard (map (λ id. id.now) ids.now) (words_given self.entry) }
    {
        let mut dashes = 0;
        for id in ids {
            let more = self.dashes(id);
            if more > 1 - dashes {
                return true;
            }
            dashes += more;
        }
        false
    }

    fn optional_number(self, id: &str) -> Option<u64>
        ensures { result ≡ optional_number id.now (words_given self.entry) }
    {
        match self.value(id) {
            Some(text) => digits(text),
            None => None,
        }
    }

    fn number(self, id: &str, absent: u64) -> u64
        ensures { result ≡ number_or absent id.now (words_given self.entry) }
    {
        match self.optional_number(id) {
            Some(number) => number,
            None => absent,
        }
    }

    fn no_number(self, ids: &[&'static str]) -> Option<&'static str>
        ensures { is_some result
            ≡ has_no_number (map (λ id. id.now) ids.now) (words_given self.entry) }
    {
        for id in ids {
            if self.is_given(id) && self.optional_number(id).is_none() {
                return Some(*id);
            }
        }
        None
    }

    fn number_message(self, id: &str) -> Result<String, AllocError> {
        let text = self.text(id, "");
        let dashes = if id == "MAX" { "" } else { "--" };
        let fault = if !text.is_empty() && has_only_digits(text.as_bytes()) {
            "larger than 18446744073709551615"
        } else {
            "not a number"
        };
        format!(in self.alloc; "{dashes}{id} is {fault}: {text}")
    }

    fn unknown_name(self) -> Option<&'a str>
        ensures { is_some result ≡ has_unknown_name (words_given self.entry) }
    {
        let Some(name) = self.value("COMMAND") else {
            return None;
        };
        match Subcommand::named(name) {
            Some(_) => None,
            None => Some(name),
        }
    }

    /// Why the subcommand can't be called with these arguments.
    fn unsuited(self) -> Option<&'static str>
        ensures { is_some result ≡ is_unsuited self.entry.subcommand (words_given self.entry) }
    {
        let (max, declarations) = (self.is_given("MAX"), self.is_given("declarations"));
        let root = self.is_given("root");
        let (system, user) = (self.is_given("system"), self.is_given("user"));
        let (zone, anacrontab) = (self.is_given("zone"), self.is_given("anacrontab"));
        match self.subcommand {
            Subcommand::Chart if !max && !declarations => {
                Some("MAX is required without --declarations")
            }
            Subcommand::Gather if !root && !system && !user => {
                Some("one of --root, --system and --user is required")
            }
            Subcommand::Day if zone && anacrontab => {
                Some("--zone and --anacrontab are both given")
            }
            _ => None,
        }
    }

    fn format(self) -> Format
        ensures { result ≡ format_in (words_given self.entry) }
    {
        match self.value("format") {
            Some(name) => format_named(name).unwrap_or(Format::Text),
            None => Format::Text,
        }
    }

    /// What is wrong with `--format`.
    fn unfit_format(self) -> Option<&'static str>
        ensures { is_some result
            ≡ has_unfit_format self.entry.subcommand (words_given self.entry) }
    {
        let Some(name) = self.value("format") else {
            return None;
        };
        match self.subcommand {
            Subcommand::Diff if name != "text" && name != "markdown" => {
                Some("--format is text or markdown")
            }
            Subcommand::Diff => None,
            _ if format_named(name).is_none() => Some("--format is text, json, sarif or github"),
            _ => None,
        }
    }

    fn misfit(self) -> Option<&'static str>
        ensures { is_some result ≡ is_misfit (words_given self.entry) }
    {
        let (keeps, output) = (self.is_given("keep"), self.is_given("output"));
        let mails = self.is_given("mail");
        let (json, metrics) = (self.has_flag("json"), self.has_flag("metrics"));
        let keep = self.number("keep", 30);
        let is_twice = self.is_twice_standard(&INPUTS);
        let (script, log) = (self.has_flag("script"), self.has_flag("log"));
        let days = self.number("days", 1);
        let within = self.number("within", 120);
        let first = self.number("first", 1);
        let count = self.number("count", 10);
        if keeps && !output {
            Some("--keep is given without --output")
        } else if mails && !output {
            Some("--mail is given without --output")
        } else if json && metrics {
            Some("--json and --metrics are both given")
        } else if keep == 0 {
            Some("--keep is at least 1")
        } else if is_twice {
            Some("only one path can be - for standard input")
        } else if script && !log {
            Some("--script is given without --log")
        } else if days == 0 || days > 7 {
            Some("--days is from 1 to 7")
        } else if within == 0 || within > 1439 {
            Some("--within is from 1 to 1439")
        } else if first == 0 {
            Some("--first is at least 1")
        } else if count == 0 || count > 10_000 {
            Some("--count is from 1 to 10000")
        } else {
            None
        }
    }

    fn numbers(self) -> &'static [&'static str]
        ensures { map (λ id. id.now) result.now ≡ numbers_of self.entry.subcommand }
    {
        match self.subcommand {
            Subcommand::Next => NEXT_NUMBERS.as_slice(),
            _ => NUMBERS.as_slice(),
        }
    }

    fn message(self) -> Result<Option<String>, AllocError>
        ensures { IfOk result (λ message. is_some message
            ≡ is_wrong self.entry.subcommand (words_given self.entry)) }
    {
        if let Some(message) = self.unsuited() {
            return Ok(Some(String::from_str(self.alloc, message)?));
        }
        if let Some(id) = self.no_number(self.numbers()) {
            return Ok(Some(self.number_message(id)?));
        }
        if let Some(name) = self.unknown_name() {
            let message = format!(in self.alloc; "unrecognized subcommand '{name}'")?;
            return Ok(Some(message));
        }
        if let Some(message) = self.unfit_format() {
            return Ok(Some(String::from_str(self.alloc, message)?));
        }
        match self.misfit() {
            Some(message) => Ok(Some(String::from_str(self.alloc, message)?)),
            None => Ok(None),
        }
    }

    /// For `day` and `chart`, with this longest time where none is given.
    fn day(self, absent: u64) -> DayWords<'a>
        ensures { asked result ≡ day_in absent (words_given self.entry) }
    {
        DayWords {
            table: self.text("TABLE", ""),
            date: self.text("DATE", ""),
            max: self.number("MAX", absent),
            anacrontab: self.value("anacrontab"),
            from: self.number("from", 0),
            to: self.number("to", 1440),
        }
    }

    /// For `day`: by a clock with summer time where a rule is given.
    fn day_or_wall(self) -> Request<'a>
        ensures { asking result ≡ asked_in subcommand.Day (words_given self.entry) }
    {
        let day = self.day(1);
        match self.value("zone") {
            Some(rule) => Request::Wall(WallWords { day, rule }),
            None => Request::Day(day),
        }
    }

    fn chart(self) -> ChartWords<'a>
        ensures { Chart (asked_chart result)
            ≡ asked_in subcommand.Chart (words_given self.entry) }
    {
        ChartWords {
            day: self.day(1440),
            days: self.number("days", 1).min(7) as u8,
            declarations: self.value("declarations"),
        }
    }

    fn replay(self) -> ReplayWords<'a>
        ensures { Replay (asked_replay result)
            ≡ asked_in subcommand.Replay (words_given self.entry) }
    {
        ReplayWords {
            table: self.text("TABLE", ""),
            script: self.text("SCRIPT", ""),
            max: self.number("max", 1440),
            anacrontab: self.value("anacrontab"),
            declarations: self.value("declarations"),
            judge: self.has_flag("judge"),
            log: self.has_flag("log"),
            show_script: self.has_flag("script"),
        }
    }

    /// For `check` and `run`.
    fn check(self) -> CheckWords<'a>
        ensures { asked_check result ≡ check_in (words_given self.entry) }
    {
        CheckWords {
            table: self.text("TABLE", ""),
            declarations: self.text("DECLS", ""),
            certificate: self.text("CERT", ""),
            anacrontab: self.value("anacrontab"),
            format: self.format(),
        }
    }

    fn run(self) -> RunWords<'a>
        ensures { Run (asked_run result) ≡ asked_in subcommand.Run (words_given self.entry) }
    {
        RunWords {
            check: self.check(),
            stamps: self.text("STAMPS", ""),
            minutes: self.optional_number("minutes"),
            log: self.value("log"),
            output: self.value("output"),
            keep: self.optional_number("keep"),
            home: self.has_flag("home"),
            enforce: self.has_flag("enforce"),
            on_overrun: self.value("on-overrun"),
            on_failure: self.value("on-failure"),
            on_limit: self.value("on-limit"),
            on_success: self.value("on-success"),
            on_recovered: self.value("on-recovered"),
            mail: self.value("mail"),
            last_accepted: self.has_flag("last-accepted"),
            check_only: self.has_flag("check-only"),
        }
    }

    /// For `judge` and `room`, and the paths of `make` and `advise`.
    fn judge(self) -> JudgeWords<'a>
        ensures { asked_judge result ≡ judge_in (words_given self.entry) }
    {
        JudgeWords {
            table: self.text("TABLE", ""),
            declarations: self.text("DECLS", ""),
            anacrontab: self.value("anacrontab"),
            format: self.format(),
        }
    }

    fn advise(self) -> AdviseWords<'a>
        ensures { Advise (asked_advise result)
            ≡ asked_in subcommand.Advise (words_given self.entry) }
    {
        AdviseWords {
            judge: self.judge(),
            within: self.number("within", 120),
            first: self.optional_number("first"),
        }
    }

    fn gather(self) -> Result<GatherWords<'a>, AllocError>
        ensures { IfOk result (λ g. Gather (asked_gather g)
            ≡ asked_in subcommand.Gather (words_given self.entry)) }
    {
        let system = self.values("system")?;
        let user = self.values("user")?;
        Ok(GatherWords {
            root: self.value("root"),
            system,
            user,
        })
    }

    fn draft(self) -> DraftWords<'a>
        ensures { Draft (asked_draft result) ≡ asked_in subcommand.Draft (words_given self.entry) }
    {
        DraftWords {
            table: self.text("TABLE", ""),
            max: self.number("max", 60),
            anacrontab: self.value("anacrontab"),
            update: self.value("update"),
            maxes: self.value("max-from"),
        }
    }

    fn learn(self) -> Result<LearnWords<'a>, AllocError>
        ensures { IfOk result (λ l. Learn (asked_learn l)
            ≡ asked_in subcommand.Learn (words_given self.entry)) }
    {
        Ok(LearnWords {
            table: self.text("TABLE", ""),
            logs: self.values("LOG")?,
            anacrontab: self.value("anacrontab"),
            factor: self.text("factor", "1.5"),
        })
    }

    fn lint(self) -> Result<LintWords<'a>, AllocError>
        ensures { IfOk result (λ l. Lint (asked_lint l)
            ≡ asked_in subcommand.Lint (words_given self.entry)) }
    {
        let only = self.values("only")?;
        let except = self.values("except")?;
        Ok(LintWords {
            table: self.text("TABLE", ""),
            declarations: self.value("DECLS"),
            anacrontab: self.value("anacrontab"),
            zone: self.value("zone"),
            only,
            except,
            faults_only: self.has_flag("faults-only"),
            format: self.format(),
        })
    }

    /// For `judge --all` and `lint --all`.
    fn all(self) -> Result<AllWords<'a>, AllocError>
        ensures { IfOk result (λ a. asked_all a ≡ all_in (words_given self.entry)) }
    {
        let folders = self.values("FOLDER")?;
        let only = self.values("only")?;
        let except = self.values("except")?;
        Ok(AllWords {
            folders,
            only,
            except,
            faults_only: self.has_flag("faults-only"),
            format: self.format(),
        })
    }

    fn second(self, id: &str) -> Option<&'a str>
        ensures { option_map (λ text. text.now) result
            ≡ second_of id.now (words_given self.entry) }
    {
        match self.matches.get_strs(id) {
            Some(paths) => second(paths),
            None => None,
        }
    }

    fn diff(self) -> DiffWords<'a>
        ensures { Diff (asked_diff result) ≡ asked_in subcommand.Diff (words_given self.entry) }
    {
        let format = Format::Text;
        DiffWords {
            old: JudgeWords {
                table: self.text("OLD_TABLE", ""),
                declarations: self.text("OLD_DECLS", ""),
                anacrontab: self.value("anacrontab"),
                format,
            },
            new: JudgeWords {
                table: self.text("NEW_TABLE", ""),
                declarations: self.text("NEW_DECLS", ""),
                anacrontab: self.second("anacrontab"),
                format,
            },
            since: self.value("since"),
            markdown: self.text("format", "") == "markdown",
        }
    }

    fn next(self) -> NextWords<'a>
        ensures { Next (asked_next result) ≡ asked_in subcommand.Next (words_given self.entry) }
    {
        NextWords {
            table: self.text("TABLE", ""),
            anacrontab: self.value("anacrontab"),
            count: self.number("count", 10),
            from: self.value("from"),
            json: self.has_flag("json"),
        }
    }

    /// The help of the program, or of the subcommand that `help` is given.
    fn help(self) -> Result<String, AllocError> {
        if let Some(name) = self.value("COMMAND") {
            if let Some(subcommand) = Subcommand::named(name) {
                return subcommand.help(self.alloc);
            }
        }
        command(self.alloc)?.render_help()
    }

    fn request(self) -> Result<Request<'a>, UsageFault>
        ensures { Answers
            (Some (asked_in self.entry.subcommand (words_given self.entry))) result }
    {
        let stamps = self.text("STAMPS", "");
        match self.subcommand {
            Subcommand::Judge => Ok(Request::Judge(self.judge())),
            Subcommand::Check => Ok(Request::Check(self.check())),
            Subcommand::Make => Ok(Request::Make(MakeWords {
                judge: self.judge(),
                compact: self.has_flag("compact"),
            })),
            Subcommand::Advise => Ok(Request::Advise(self.advise())),
            Subcommand::Room => Ok(Request::Room(self.judge())),
            Subcommand::Run => Ok(Request::Run(self.run())),
            Subcommand::Stop => Ok(Request::Stop(StopWords {
                stamps,
                now: self.has_flag("now"),
            })),
            Subcommand::Reload => Ok(Request::Reload(ReloadWords {
                stamps,
                drain: self.has_flag("drain"),
            })),
            Subcommand::Apply => Ok(Request::Apply(ApplyWords {
                judge: self.judge(),
                certificate: self.text("CERT", ""),
                stamps,
            })),
            Subcommand::Status => Ok(Request::Status(StatusWords {
                stamps,
                json: self.has_flag("json"),
                metrics: self.has_flag("metrics"),
            })),
            Subcommand::Gather => Ok(Request::Gather(self.gather()?)),
            Subcommand::Draft => Ok(Request::Draft(self.draft())),
            Subcommand::Learn => Ok(Request::Learn(self.learn()?)),
            Subcommand::Lint => Ok(Request::Lint(self.lint()?)),
            Subcommand::Day => Ok(self.day_or_wall()),
            Subcommand::Chart => Ok(Request::Chart(self.chart())),
            Subcommand::Replay => Ok(Request::Replay(self.replay())),
            Subcommand::Explain => Ok(Request::Explain(self.value("NAME"))),
            Subcommand::JudgeAll => Ok(Request::JudgeAll(self.all()?)),
            Subcommand::LintAll => Ok(Request::LintAll(self.all()?)),
            Subcommand::Diff => Ok(Request::Diff(self.diff())),
            Subcommand::Next => Ok(Request::Next(self.next())),
            Subcommand::Help => Err(UsageFault::Help(self.help()?)),
        }
    }
}

#[tactic(auto, using(crate::proofs::CommandLineLemmas::refused, crate::proofs::CommandLineLemmas::answered))]
fn asked_by<'a>(
    alloc: Global,
    name: &str,
    matches: &ArgMatches<'a>,
) -> Result<Request<'a>, UsageFault>
    ensures { Answers (asked_by name.now (rows_of (found_of matches.now))) result }
{
    let Some(subcommand) = Subcommand::named(name) else {
        let text = String::from_str(alloc, "error: a subcommand is required\n")?;
        return Err(UsageFault::NoCall(text));
    };
    let given = Given {
        alloc,
        subcommand,
        matches,
    };
    match given.message()? {
        Some(message) => Err(UsageFault::NoCall(subcommand.fault(alloc, message.as_str())?)),
        None => given.request(),
    }
}

/// Returns what the words of a call ask, the first of which is the program's name.
pub fn parse_words<'a, S: AsStr>(alloc: Global, words: &'a [S]) -> Result<Request<'a>, UsageFault>
    ensures { Parses (map S.text words.entry.now) result }
{
    let matches = match command(alloc)?.try_get_matches_from(words) {
        Ok(matches) => matches,
        Err(error) => return Err(fault_of(alloc, &error)),
    };
    match matches.subcommand() {
        Some((name, given)) => asked_by(alloc, name, given),
        None => Err(UsageFault::NoCall(String::from_str(
            alloc,
            "error: a subcommand is required\n",
        )?)),
    }
}
