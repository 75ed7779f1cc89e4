use cs_check::Checked;
use cs_counterexample::Shown;
use cs_history::Script;
use cs_maker::Reason;
use cs_theorem::CheckFault;
use cs_verdict::Breach;

/// What is known of a plan.
#[derive(Drop)]
pub enum Judged {
    /// It is safe: the checker has accepted it with this certificate.
    Safe(Checked),
    /// It is unsafe: this script is a history in which each run ends in time, and first breaks
    /// this, while these run.
    Unsafe(Script, Shown, Breach),
    /// Neither, and why; and why the checker refuses the maker's certificate, if there was one.
    Unknown(Reason, Option<CheckFault>),
}
