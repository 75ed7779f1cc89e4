//! What the words of `check`, `judge`, `make` and `run` say of the bytes of their files, and what
//! is judged of a certificate of version 1.
ghost use Rattle.std.specs.Prelude.{◌≡◌, ◌≢◌, ◌≤◌, ◌↔◌, ℕ, All, List, None, Ok, Option, Some};
ghost use Rattle.cs_args.specs.Asked.{AskedCheck, AskedJudge, AskedMake, AskedRun};
ghost use Rattle.cs_claims.specs.Content.{Content};
ghost use Rattle.cs_cert.specs.Denoted.{certificate_by};
ghost use Rattle.cs_check.specs.Case.{fault_of};
ghost use Rattle.cs_check.specs.Checked.{IsLengthFor};
ghost use Rattle.cs_classes.specs.Claim.{as_certificate};
ghost use Rattle.cs_classes.specs.Planned.{due_on};
ghost use Rattle.cs_classes.specs.StandsFor.{as_listed, claimed};
ghost use Rattle.cs_plan.specs.Plan.{Declared, IsWhole, as_plan};
ghost use Rattle.cs_io.specs.Files.{Failed};
ghost use Rattle.cs_files.specs.Response.{Ending};
ghost use Rattle.cs_theorem.specs.Accepted.{IsAccepted};
ghost use Rattle.cs_ruling.specs.Answer.{AnswersRun, IsOfNobody};
ghost use Rattle.cs_cli.specs.Judge.{AnswersJudge, AnswersMake};
ghost use Rattle.cs_ruling.specs.Check.{AnswersCheck, FindsClaimed};
ghost use Rattle.cs_ruling.specs.Safe.{IsChecked};
ghost use Rattle.cs_cli.specs.Theorem.{Given, Hold, IsCalmSchedule, IsUnownedSchedule};
ghost use Rattle.cs_cli.specs.Theorem.{IsJudgedSafe, IsJudgedUnknown, IsJudgedUnsafe};
ghost use Rattle.cs_cli.specs.Theorem.{IsOrdered, IsPrintedSchedule};
ghost use Rattle.cs_ruling.specs.declared.answer.Answer.TheVariants.{Runs};
ghost use Rattle.cs_ruling.specs.declared.answer.Order.{Order};
ghost use Rattle.cs_ruling.specs.declared.check.Claimed.{Claimed};

/// Lemma. Where `check` ends with status 0, its files denote two tables, declarations that join
/// with them to a plan, and a certificate that the rules accept. Every legal history of that plan
/// in which each run ends within its declared time is safe, and each minute is calm.
pub fn what_check_says()
    ensures { (files : List ℕ → Option (List ℕ)) (a : AskedCheck) (w : List ℕ)
        (before after : Failed) (ending : Ending) (given : Given) (certificate : List ℕ)
        → Hold files a.table a.anacrontab a.declarations given
        → files a.certificate ≡ Some certificate
        → IsChecked a files w before after ending → ending.status ≡ 0
        → IsCalmSchedule given certificate }
{}

/// Lemma. An order to run is of such a plan, with such a certificate, and `check` would end with
/// status 0 and warn of the same. Where `run` refuses a crontab since a command has no owner, the
/// plan is such a one too, and `check` would end with status 0.
pub fn what_an_order_says()
    ensures order { (files : List ℕ → Option (List ℕ)) (a : AskedRun) (w : List ℕ)
        (before after : Failed) (order : Order) (given : Given) (certificate : List ℕ)
        → Hold files a.check.table a.check.anacrontab a.check.declarations given
        → files a.check.certificate ≡ Some certificate
        → AnswersRun a files w before after (Runs order) → IsOrdered given certificate a order }
    ensures order_checked { (files : List ℕ → Option (List ℕ)) (a : AskedRun) (w : List ℕ)
        (before after : Failed) (order : Order) → AnswersRun a files w before after (Runs order)
        → (answer : Ending) × AnswersCheck a.check files w before after answer
        × (answer.status ≡ 0) × (answer.err ≡ order.warnings) }
    ensures unowned { (files : List ℕ → Option (List ℕ)) (a : AskedRun) (w : List ℕ)
        (before after : Failed) (x : Claimed) (ending : Ending) (given : Given)
        (certificate : List ℕ)
        → Hold files a.check.table a.check.anacrontab a.check.declarations given
        → files a.check.certificate ≡ Some certificate
        → FindsClaimed files a.check w before after (Ok x)
        → IsOfNobody x ending → IsUnownedSchedule given certificate ending }
    ensures unowned_checked { (files : List ℕ → Option (List ℕ)) (a : AskedRun) (w : List ℕ)
        (before after : Failed) (x : Claimed) (ending : Ending)
        → FindsClaimed files a.check w before after (Ok x) → IsOfNobody x ending
        → (answer : Ending) × AnswersCheck a.check files w before after answer
        × (answer.status ≡ 0) }
{}

/// Lemma. Where `judge` ends with status 0, the rules accept a certificate for the plan that its
/// files denote: every legal history in time is safe, and each minute is calm. Where it ends with
/// status 1, it prints what a history that isn't safe breaks first, and its script; with 2, a
/// reason, and perhaps the first rule that a certificate doesn't meet.
pub fn what_judge_says()
    ensures safe { (files : List ℕ → Option (List ℕ)) (a : AskedJudge) (w : List ℕ)
        (before after : Failed) (ending : Ending) (given : Given)
        → Hold files a.table a.anacrontab a.declarations given
        → AnswersJudge a files w before after ending → ending.status ≡ 0 → IsJudgedSafe given }
    ensures broken { (files : List ℕ → Option (List ℕ)) (a : AskedJudge) (w : List ℕ)
        (before after : Failed) (ending : Ending) (given : Given)
        → Hold files a.table a.anacrontab a.declarations given
        → AnswersJudge a files w before after ending → ending.status ≡ 1
        → IsJudgedUnsafe given ending.out }
    ensures unknown { (files : List ℕ → Option (List ℕ)) (a : AskedJudge) (w : List ℕ)
        (before after : Failed) (ending : Ending) (given : Given)
        → Hold files a.table a.anacrontab a.declarations given
        → AnswersJudge a files w before after ending → ending.status ≡ 2
        → IsJudgedUnknown given ending.out }
{}

/// Lemma. Where `make` ends with status 0, it prints a certificate that the rules accept for the
/// plan that its files denote, which is safe and calm; where it ends with status 1, the script of
/// a history that isn't safe.
pub fn what_make_says()
    ensures safe { (files : List ℕ → Option (List ℕ)) (a : AskedMake) (w : List ℕ)
        (before after : Failed) (ending : Ending) (given : Given)
        → Hold files a.judge.table a.judge.anacrontab a.judge.declarations given
        → AnswersMake a files w before after ending → ending.status ≡ 0
        → IsPrintedSchedule given ending.out }
    ensures broken { (files : List ℕ → Option (List ℕ)) (a : AskedMake) (w : List ℕ)
        (before after : Failed) (ending : Ending) (given : Given)
        → Hold files a.judge.table a.judge.anacrontab a.judge.declarations given
        → AnswersMake a files w before after ending → ending.status ≡ 1
        → IsJudgedUnsafe given ending.out }
{}

/// Lemma. A certificate that lists its stretches is judged by what it says. Where no job's `max` is
/// above 1,440, a stretch has two days; so one of version 1 is accepted exactly if the eight rules
/// hold of it over pairs of successive days.
pub fn what_version_1_says()
    ensures itself { (plan : Declared) (c : Content) → c.version ≢ 3
        → claimed plan c ≡ as_listed c }
    ensures pairs { (plan : Declared) (bytes : List ℕ) (c : Content) → IsWhole plan
        → All (λ job. job.max ≤ 1440) plan.jobs → certificate_by bytes ≡ Ok c → c.version ≡ 1
        → IsLengthFor plan c 2 }
    ensures accepted { (plan : Declared) (bytes : List ℕ) (c : Content) → IsWhole plan
        → All (λ job. job.max ≤ 1440) plan.jobs → certificate_by bytes ≡ Ok c → c.version ≡ 1
        → (fault_of plan c ≡ None)
        ↔ IsAccepted (as_plan plan) (due_on plan) (as_certificate (as_listed c)) 2 }
{}
