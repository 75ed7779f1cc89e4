ghost use Rattle.std.specs.Prelude.{◌≡◌};
ghost use Rattle.cs_overlap.specs.Roles.{role_at, share_group, roles_clash};

use cs_history::Mode;
use cs_windows::Window;

#[derive(Clone, Copy)]
pub(crate) struct Role {
    pub(crate) is_cron: bool,
    pub(crate) mode: Mode,
    pub(crate) weight: u8,
    pub(crate) group: Option<u8>,
    pub(crate) is_exclusive: bool,
}

pub(crate) fn share_group(one: Role, other: Role) -> bool
    ensures { result ≡ share_group one other }
{
    match (one.group, other.group) {
        (Some(group), Some(second)) => group == second,
        (Some(_), None) => false,
        (None, _) => false,
    }
}

/// Whether their windows may not overlap: they are of one exclusive group, one of them is a cron
/// job, and not both take the lock.
pub(crate) fn clash(one: Role, other: Role) -> bool
    ensures { result ≡ roles_clash one other }
{
    (one.is_exclusive && share_group(one, other))
        && ((one.is_cron || other.is_cron) && !(one.mode.takes_lock() && other.mode.takes_lock()))
}

pub(crate) fn role_of(roles: &[Role], window: &Window) -> Role
    ensures { result ≡ role_at roles.now window.now.job }
{
    match roles.get(usize::from(window.job)) {
        Some(role) => *role,
        None => Role {
            is_cron: false,
            mode: Mode::Plain,
            weight: 1,
            group: None,
            is_exclusive: false,
        },
    }
}
