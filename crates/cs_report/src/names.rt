ghost use Rattle.std.specs.Prelude.{◌≡◌, ◌==◌, ◌<◌, IfSome, position};
ghost use Rattle.cs_table.specs.Text.{decimal};
ghost use Rattle.cs_report.specs.Names.{job_on, job_named, place_of};

use crate::words::number;
use cs_plan::Plan;

fn command_on(plan: &Plan, number: u32) -> Option<usize>
    ensures place { result ≡ position (λ line. line.number == number) plan.now.crontab.lines }
    ensures few { IfSome result (λ place. place < 256) }
{
    plan.crontab()
        .lines()
        .iter()
        .position(|line| line.number() == number)
}

#[tactic(auto, using(crate::proofs::Lines::job_there, crate::proofs::Lines::no_job_there))]
pub(crate) fn job_on(plan: &Plan, digits: &[u8]) -> Option<u16>
    ensures { result ≡ job_on plan.now (decimal digits.now) }
{
    let number = number(digits);
    if number >= 4_294_967_296 {
        return None;
    }
    match command_on(plan, number as u32) {
        Some(place) => Some(place as u16),
        None => None,
    }
}

#[tactic(auto, unfolding(crate::specs::Names::place_of))]
pub(crate) fn place_of(plan: &Plan, identifier: &[u8]) -> Option<usize>
    ensures place { result ≡ place_of plan.now identifier.now }
    ensures few { IfSome result (λ place. place < 64) }
{
    plan.anacrontab()
        .lines()
        .iter()
        .position(|line| line.identifier() == identifier)
}

#[tactic(auto, unfolding(crate::specs::Names::job_named))]
pub(crate) fn job_named(plan: &Plan, identifier: &[u8]) -> Option<u16>
    ensures { result ≡ job_named plan.now identifier.now }
{
    let place = place_of(plan, identifier)?;
    Some((plan.crontab().lines().len() + place) as u16)
}
