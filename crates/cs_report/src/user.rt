ghost use Rattle.std.specs.Prelude.{◌≡◌, ◌==◌, ◌<◌, length, position, IfSome};
ghost use Rattle.std.specs.List.{find, list_all, list_any};
ghost use Rattle.std.specs.Option.{option_map};
ghost use Rattle.cs_report.specs.User.{begins_command, is_alike, is_assignment, is_behind_user};
ghost use Rattle.cs_report.specs.User.{is_name, is_name_byte, is_no_user, is_one_of};
ghost use Rattle.cs_report.specs.User.{is_package_user, is_sign};
ghost use Rattle.cs_report.specs.User.{second_word, system_users, usual_words};

use cs_crontab::Line;
use cs_table::text::{skip_blanks, word};

/// Users that systems and their packages have, with spaces between them; not those whose names are
/// often commands, as `backup`, `lp`, `mail`, `man` and `sync`.
const SYSTEM_USERS: &[u8] =
    b"Debian-exim amavis apache awstats bin bind cacti clamav daemon debian-spamd dovecot exim \
      games git gitlab gnats icinga irc list logcheck logwatch mailman munin mysql nagios news \
      nginx nobody ntp ntpsec ossec postfix postgres proxy puppet redis roundcube smmsp smokeping \
      sys uucp vmail www www-data zabbix";

/// Words with which commands usually begin, with spaces between them.
const USUAL_WORDS: &[u8] =
    b"bash cat cd chronic clamscan command cp cronic curl dash docker du echo env exec export \
      find flock fstrim git gzip if ionice ln logger logrotate ls mail make mkdir mount mv nice \
      node nohup npm perl php podman printf python python3 rm rsync ruby run-one run-parts \
      runuser scp setsid sh sleep source su sudo systemd-run tar test time timeout touch umask \
      umount unison until wget while zip zsh";

fn first_space(list: &[u8]) -> Option<usize>
    ensures first { result ≡ position (λ b. b == 32) list.now }
    ensures within { IfSome result (λ at. at < length list.now) }
{
    list.iter().position(|byte| *byte == b' ')
}

#[tactic(auto, using(crate::proofs::Known::is_last, crate::proofs::Known::is_here, crate::proofs::Known::is_behind))]
fn is_one_of(list: &[u8], word: &[u8]) -> bool
    ensures { result ≡ is_one_of list.now word.now }
{
    let mut rest = list;
    while let Some(at) = first_space(rest) {
        if &rest[..at] == word {
            return true;
        }
        rest = &rest[at + 1..];
    }
    rest == word
}

#[tactic(auto, unfolding(crate::specs::User::system_users))]
fn is_system_user(word: &[u8]) -> bool
    ensures { result ≡ is_one_of system_users word.now }
{
    is_one_of(SYSTEM_USERS, word)
}

#[tactic(auto, unfolding(crate::specs::User::usual_words))]
fn is_usual_word(word: &[u8]) -> bool
    ensures { result ≡ is_one_of usual_words word.now }
{
    is_one_of(USUAL_WORDS, word)
}

/// Whether the word, where a table has the user of a command, is probably the command's own:
/// commands usually begin with it, and no user of a system has it as its name (this profile).
pub fn is_no_user(word: &[u8]) -> bool
    ensures { result ≡ is_no_user word.now }
{
    is_usual_word(word) && !is_system_user(word) && word != b"mail".as_slice()
}

fn is_name_byte(byte: u8) -> bool
    ensures { result ≡ is_name_byte byte }
{
    byte.is_ascii_lowercase()
        || (b'0' <= byte && byte <= b'9')
        || matches!(byte, b'-' | b'.' | b'_')
}

fn are_name_bytes(text: &[u8]) -> bool
    ensures { result ≡ list_all is_name_byte text.now }
{
    text.iter().all(|byte| is_name_byte(*byte))
}

fn is_name(word: &[u8]) -> bool
    ensures { result ≡ is_name word.now }
{
    match word {
        [first, others @ ..] => first.is_ascii_lowercase() && are_name_bytes(others),
        [] => false,
    }
}

fn is_package_user(word: &[u8]) -> bool
    ensures { result ≡ is_package_user word.now }
{
    match word {
        [first, others @ ..] => *first == b'_' && is_name(others),
        [] => false,
    }
}

fn is_sign(word: &[u8]) -> bool
    ensures { result ≡ is_sign word.now }
{
    match word {
        [first, ..] => matches!(*first, b'$' | b'(' | b'/' | b'[' | b'{' | b'~'),
        [] => false,
    }
}

fn is_assignment(word: &[u8]) -> bool
    ensures { result ≡ is_assignment word.now }
{
    match word {
        [first, others @ ..] => b'A' <= *first && *first <= b'Z' && others.contains(&b'='),
        [] => false,
    }
}

#[tactic(auto, unfolding(crate::specs::User::begins_command))]
fn begins_command(word: &[u8]) -> bool
    ensures { result ≡ begins_command word.now }
{
    is_sign(word) || is_assignment(word) || is_usual_word(word)
}

fn second_word(text: &[u8]) -> &[u8]
    ensures { result.now ≡ second_word text.now }
{
    let (_, behind) = word(text);
    let (second, _) = word(skip_blanks(behind));
    second
}

fn is_alike(line: &Line, other: &Line) -> bool
    ensures { result ≡ is_alike line.now other.now }
{
    let (first, _) = word(line.command());
    let (same, _) = word(other.command());
    other.number() != line.number() && same == first && begins_command(second_word(other.command()))
}

fn has_alike(lines: &[Line], line: &Line) -> bool
    ensures { result ≡ list_any (is_alike line.now) lines.now }
{
    lines.iter().any(|other| is_alike(line, other))
}

#[tactic(auto, unfolding(crate::specs::User::is_behind_user))]
fn is_behind_user(lines: &[Line], line: &Line) -> bool
    ensures { result ≡ is_behind_user lines.now line.now }
{
    let (first, _) = word(line.command());
    if first == b"root".as_slice() {
        return true;
    }
    begins_command(second_word(line.command()))
        && (is_system_user(first)
            || is_package_user(first)
            || (is_name(first) && !is_usual_word(first) && has_alike(lines, line)))
}

/// The first of the lines whose command seems to follow a user, as in a table with a user column
/// (this profile).
pub fn first_behind_user(lines: &[Line]) -> Option<&Line>
    ensures { option_map (λ line. line.now) result ≡ find (is_behind_user lines.now) lines.now }
{
    lines.iter().find(|line| is_behind_user(lines, line))
}
