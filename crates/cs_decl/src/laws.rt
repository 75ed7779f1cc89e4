//! States which fault of declarations is returned, and what holds where none is.
ghost use Rattle.std.specs.Prelude.{◌≡◌, ◌↔◌, ◌++◌, ℕ, ◌<◌, map, List, Some, None, Ok, All, IsUtf8, true, false};
ghost use Rattle.std.specs.Prelude.{Contains};
ghost use Rattle.json.specs.Json.{Json, document};
ghost use Rattle.json.specs.Strict.{HasUniqueKeys};
ghost use Rattle.cs_decl.specs.Doubled.{doubled_member};
ghost use Rattle.std.specs.List.{count_by};
ghost use Rattle.cs_crontab.specs.Crontab.{CommandLine, Table};
ghost use Rattle.cs_anacrontab.specs.Anacrontab.{Table as JobTable};
ghost use Rattle.cs_decl.specs.declared.entries.Entries.{Entries};
ghost use Rattle.cs_decl.specs.declared.entries.LineName.{LineName};
ghost use Rattle.cs_decl.specs.Faults.{faults_of, first_fault};
ghost use Rattle.cs_plan.specs.Answers.{Fault};
ghost use Rattle.cs_decl.specs.Join.{is_named, joined};
ghost use Rattle.cs_decl.specs.Law.{IsFirst, stands};
ghost use Rattle.cs_decl.specs.Lines.{TellsOf, IsLeftOut, HasNoEntry, AreParted, IsDeclared, IsUntimed};
ghost use Rattle.cs_decl.specs.Lines.{is_told, names_of};
ghost use Rattle.cs_decl.specs.Meaning.{IsValid};
ghost use Rattle.cs_decl.specs.TwiceStarted.{StartsOnce};
ghost use Rattle.cs_decl.specs.Parts.{AreItsParts};
ghost use Rattle.cs_plan.specs.Plan.{Declared, places_of, command_of, job_at, crons};

/// Lemma. The fault that is returned has the smallest number of those that stand, and the first
/// place of that number; none is returned only where none stands.
pub fn first_of_faults()
    ensures first { (d : Entries) (f : Fault) → first_fault (faults_of d) ≡ Some f → IsFirst d f }
    ensures none { (d : Entries) (f : Fault) → first_fault (faults_of d) ≡ None → stands d f ≡ true
        → ⊥ }
{}

/// Lemma. If a plan is made, each entry that gives a command or a schedule gives that of its line,
/// left out or not.
pub fn commands_are_those_of_lines()
    ensures { (table : Table) (jobs : JobTable) (d : Entries) (plan : Declared)
        → joined table jobs d ≡ Ok plan
        → All (λ name. All (TellsOf name) table.lines) (names_of d) }
{}

/// Lemma. An entry that gives a command, and a schedule too where several lines have that command,
/// stays with them when lines change places: if two tables make plans with the same declarations,
/// and only one line of the second has what the entry gives, the entry names there the line with
/// the command and schedule that its line has in the first.
pub fn entries_stay_with_commands()
    ensures { (d : Entries) (one other : Table) (jobs more : JobTable) (p q : Declared)
        (name : LineName) (a b : CommandLine) → joined one jobs d ≡ Ok p
        → joined other more d ≡ Ok q → Contains (names_of d) name
        → Contains one.lines a → is_named name a ≡ true
        → Contains other.lines b → b.command ≡ a.command → b.when ≡ a.when
        → count_by (is_told name) other.lines ≡ 1 → is_named name b ≡ true }
{}

/// Lemma. If a plan is made, each entry names exactly one line, left out or not.
pub fn each_entry_names_one_line()
    ensures { (table : Table) (jobs : JobTable) (d : Entries) (plan : Declared)
        → joined table jobs d ≡ Ok plan
        → All (λ name. count_by (is_named name) table.lines ≡ 1) (names_of d) }
{}

/// Lemma. If a plan is made, no entry of `cron` names a line that one of `left_out` names.
pub fn left_out_lines_have_no_entry()
    ensures { (table : Table) (jobs : JobTable) (d : Entries) (plan : Declared)
        → joined table jobs d ≡ Ok plan
        → All (λ line. IsLeftOut d line → HasNoEntry d line) table.lines }
{}

/// Lemma. If a plan is made, each line is in it, or an entry of `left_out` names it and the plan
/// lists its number, in order of line. Each line of the plan has one job, which an entry that names
/// it declares, or else the default. Without a default no job has it. Each line of the plan starts
/// at most once in a minute.
pub fn each_line_has_its_job()
    ensures lines { (table : Table) (jobs : JobTable) (d : Entries) (plan : Declared)
        → joined table jobs d ≡ Ok plan
        → AreParted d table.lines plan.crontab.lines plan.left_out }
    ensures jobs { (table : Table) (jobs : JobTable) (d : Entries) (plan : Declared)
        → joined table jobs d ≡ Ok plan
        → (plan.anacrontab ≡ jobs) × (map (λ job. job.place) plan.jobs
        ≡ places_of plan.crontab.lines ++ places_of plan.anacrontab.lines) }
    ensures declared { (table : Table) (jobs : JobTable) (d : Entries) (plan : Declared) (j : ℕ)
        → joined table jobs d ≡ Ok plan → j < crons plan
        → IsDeclared d (command_of plan j) (job_at plan j) }
    ensures defaulted { (table : Table) (jobs : JobTable) (d : Entries) (plan : Declared)
        → joined table jobs d ≡ Ok plan → d.default ≡ None → plan.defaulted ≡ 0 }
    ensures once { (table : Table) (jobs : JobTable) (d : Entries) (plan : Declared)
        → joined table jobs d ≡ Ok plan
        → All (λ line. StartsOnce plan.zone line.when) plan.crontab.lines }
{}

/// Lemma. If a plan is made, it counts no guess exactly if no entry is one. It names a line whose
/// command several lines have and whose entry gives no schedule, if there is one.
pub fn guesses_and_untimed_lines_are_told()
    ensures guesses { (table : Table) (jobs : JobTable) (d : Entries) (plan : Declared)
        → joined table jobs d ≡ Ok plan → (plan.guessed ≡ 0) ↔ (All (λ e. e.guess ≡ false) d.cron
        × All (λ e. e.guess ≡ false) d.anacron) }
    ensures untimed { (table : Table) (jobs : JobTable) (d : Entries) (plan : Declared) (n : ℕ)
        → joined table jobs d ≡ Ok plan → plan.untimed ≡ Some n → (line : CommandLine)
        × Contains table.lines line × (line.number ≡ n) × IsUntimed d table.lines line }
    ensures timed { (table : Table) (jobs : JobTable) (d : Entries) (plan : Declared)
        → joined table jobs d ≡ Ok plan → plan.untimed ≡ None
        → All (λ line. IsUntimed d table.lines line → ⊥) table.lines }
{}

/// Lemma. The parts of a valid entry, if it has some, have different names, take 1 to 4,320 minutes
/// each, and together at most the entry's longest time.
pub fn parts_make_up_the_whole()
    ensures { (d : Entries) → IsValid d → All AreItsParts d.cron }
{}

/// Lemma. A member that stands twice is found exactly if an object of the text has one, as the JSON
/// library defines it.
pub fn doubled_members_are_told()
    ensures all { (text : List ℕ) (j : Json) → IsUtf8 text → document text ≡ Some j
        → doubled_member text ≡ None → HasUniqueKeys j }
    ensures only { (text : List ℕ) (j : Json) → IsUtf8 text → document text ≡ Some j
        → HasUniqueKeys j → doubled_member text ≡ None }
{}
