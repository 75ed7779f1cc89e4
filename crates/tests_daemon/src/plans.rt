//! Plans that were checked, and where they start.
ghost use Rattle.std.specs.Prelude.{◌≤◌, IfSome};
ghost use Rattle.cs_history.specs.Plan.{first_start};

use arrayvec::ArrayVec;
use cs_anacrontab::read_anacrontab;
use cs_cert::read_certificate;
use cs_check::{CheckError, Checked, check};
use cs_civil::Minute;
use cs_crontab::read_crontab;
use cs_decl::{join, read_declarations};
use cs_history::Start;
use cs_plan::Plan;
use std::alloc::Global;
use std::process::Abort;

pub(crate) struct Texts {
    pub(crate) crontab: &'static str,
    pub(crate) anacrontab: &'static str,
    pub(crate) declarations: &'static str,
    pub(crate) certificate: &'static str,
}

/// No jobs.
pub(crate) const EMPTY: Texts = Texts {
    crontab: "",
    anacrontab: "",
    declarations: "{\"capacity\":1}",
    certificate: "{\"classes\":[{\"backlog\":[],\"due\":[]}],\"kinds\":{\"class\":0},\
        \"pairs\":[{\"of\":[0,0],\"tree\":{\"list\":[]}}],\"reach\":[],\"version\":1}",
};

/// A certificate for one job in each hour.
const EACH_HOUR: &str = "{\"classes\":[{\"backlog\":[],\"due\":[[0,[0,60,120,180,240,300,360,420,\
    480,540,600,660,720,780,840,900,960,1020,1080,1140,1200,1260,1320,1380]]]}],\
    \"kinds\":{\"class\":0},\"pairs\":[{\"of\":[0,0],\"tree\":{\"list\":[[0,0,0],[0,0,60],\
    [0,0,120],[0,0,180],[0,0,240],[0,0,300],[0,0,360],[0,0,420],[0,0,480],[0,0,540],\
    [0,0,600],[0,0,660],[0,0,720],[0,0,780],[0,0,840],[0,0,900],[0,0,960],[0,0,1020],\
    [0,0,1080],[0,0,1140],[0,0,1200],[0,0,1260],[0,0,1320],[0,0,1380]]}}],\
    \"reach\":[],\"version\":1}";

/// A job of an hour in each hour.
pub(crate) const HOURLY: Texts = Texts {
    crontab: "0 * * * * /bin/a\n",
    anacrontab: "",
    declarations: "{\"capacity\":1,\"cron\":[{\"line\":1,\"max\":60}]}",
    certificate: EACH_HOUR,
};

/// A job of five minutes in each hour.
pub(crate) const SHORT: Texts = Texts {
    crontab: "0 * * * * /bin/a\n",
    anacrontab: "",
    declarations: "{\"capacity\":1,\"cron\":[{\"line\":1,\"max\":5}]}",
    certificate: EACH_HOUR,
};

/// Two jobs at 01:00, and a certificate for them where none waits.
const AT_ONE: &str = "0 1 * * * /bin/a\n0 1 * * * /bin/b\n";

const AT_ONE_EACH: &str = "{\"classes\":[{\"backlog\":[],\"due\":[[0,[60]],[1,[60]]]}],\
    \"kinds\":{\"class\":0},\"pairs\":[{\"of\":[0,0],\
    \"tree\":{\"list\":[[0,0,60],[1,0,60]]}}],\"reach\":[],\"version\":1}";

/// Declarations of two jobs, one of which may run at a time.
const ONE_PLACE: &str =
    "{\"capacity\":1,\"cron\":[{\"line\":1,\"max\":10},{\"line\":2,\"max\":10}]}";

/// Two jobs of two groups at 01:00.
pub(crate) const TWO: Texts = Texts {
    crontab: AT_ONE,
    anacrontab: "",
    declarations: "{\"capacity\":2,\"groups\":[{\"name\":\"g\",\"exclusive\":true},\
        {\"name\":\"h\",\"exclusive\":true}],\"cron\":[{\"line\":1,\"max\":10,\"group\":\"g\"},\
        {\"line\":2,\"max\":10,\"group\":\"h\"}]}",
    certificate: AT_ONE_EACH,
};

/// The same two jobs, which have one place.
pub(crate) const TIGHT: Texts = Texts {
    crontab: AT_ONE,
    anacrontab: "",
    declarations: ONE_PLACE,
    certificate: AT_ONE_EACH,
};

/// A job at 01:00 and one at 01:20, for one worker.
pub(crate) const IN_TURN: Texts = Texts {
    crontab: "0 1 * * * /bin/a\n20 1 * * * /bin/b\n",
    anacrontab: "",
    declarations: ONE_PLACE,
    certificate: "{\"classes\":[{\"backlog\":[],\"due\":[[0,[60]],[1,[80]]]}],\
        \"kinds\":{\"class\":0},\"pairs\":[{\"of\":[0,0],\
        \"tree\":{\"list\":[[0,0,60],[1,0,80]]}}],\"reach\":[],\"version\":1}",
};

/// Two jobs at 01:00 that wait for one lock.
pub(crate) const WAITING: Texts = Texts {
    crontab: AT_ONE,
    anacrontab: "",
    declarations: "{\"capacity\":2,\"groups\":[{\"name\":\"g\",\"exclusive\":true}],\
        \"cron\":[{\"line\":1,\"max\":20,\"group\":\"g\",\"mode\":\"wait\"},\
        {\"line\":2,\"max\":30,\"group\":\"g\",\"mode\":\"wait\"}]}",
    certificate: "{\"classes\":[{\"backlog\":[[0,[[61,49]]]],\"due\":[[0,[60]],[1,[60]]]}],\
        \"kinds\":{\"class\":0},\"pairs\":[{\"of\":[0,0],\
        \"tree\":{\"list\":[[0,0,60],[1,0,60]]}}],\"reach\":[[0,50],[1,50]],\"version\":1}",
};

/// A daily anacron job with a delay of a minute.
pub(crate) const CATCHING_UP: Texts = Texts {
    crontab: "",
    anacrontab: "1 1 cron.daily /bin/b\n",
    declarations: "{\"capacity\":1,\"anacron\":[{\"id\":\"cron.daily\",\"max\":10}]}",
    certificate: "{\"classes\":[{\"backlog\":[],\"due\":[]}],\"kinds\":{\"class\":0},\
        \"pairs\":[{\"of\":[0,0],\"tree\":{\"list\":[[0,0,0],[0,1,0]]}}],\
        \"reach\":[],\"version\":1}",
};

pub(crate) fn plan(rt: &impl Abort, alloc: Global, texts: &Texts) -> Plan {
    let crontab = read_crontab(alloc, texts.crontab.as_bytes()).expect(rt, "a crontab");
    let anacrontab = read_anacrontab(alloc, texts.anacrontab.as_bytes());
    let anacrontab = anacrontab.expect(rt, "an anacrontab");
    let declarations = read_declarations(alloc, texts.declarations.as_bytes());
    let declarations = declarations.expect(rt, "declarations");
    join(alloc, crontab, anacrontab, declarations).expect(rt, "a plan")
}

pub(crate) fn answer(rt: &impl Abort, alloc: Global, texts: &Texts) -> Result<Checked, CheckError> {
    let plan = plan(rt, alloc, texts);
    let certificate = read_certificate(alloc, texts.certificate.as_bytes());
    let answer = check(alloc, &plan, certificate.expect(rt, "a certificate"));
    drop(plan);
    answer
}

pub(crate) fn checked(rt: &impl Abort, alloc: Global, texts: &Texts) -> Checked {
    answer(rt, alloc, texts).ok().expect(rt, "accepted")
}

/// So many minutes after 2024-01-01 00:00.
pub(crate) fn minute(count: u64) -> Option<Minute> {
    Minute::new(count.saturating_add(28_401_120))
}

/// A start at 2024-01-01 00:59 without stamps.
pub(crate) fn start(up: bool) -> Option<Start>
    ensures { IfSome result (λ start. first_start ≤ start.now) }
{
    Some(Start::new(Minute::new(28_401_179)?, up, ArrayVec::new()))
}
