//! The form of a script's line: its words, whatever date and name.
ghost use Rattle.std.specs.Prelude.{◌≡◌, option_map};
ghost use Rattle.cs_report.specs.Reading.{begin_form, catch_form, end_form, form_behind, form_of};
ghost use Rattle.cs_report.specs.Reading.{got_form, job_run, line_run, minute_form, stamp_form};
ghost use Rattle.cs_report.specs.Reading.{start_at, start_form, up_form};
ghost use Rattle.cs_report.specs.Seen.{form_seen};

use crate::words::{first_word, is_moment, is_number, is_word};

#[derive(Drop)]
pub(crate) enum Form<'a> {
    /// `start DT up` or `start DT down`.
    Start(&'a [u8], bool),
    /// `stamp ID YYYY-MM-DD`.
    Stamp(&'a [u8], &'a [u8]),
    /// `minute DT`.
    Minute(&'a [u8]),
    /// `up DT`.
    Up(&'a [u8]),
    /// `down`.
    Down,
    /// `begin line N`.
    Begin(&'a [u8]),
    /// `got line N DT`.
    Got(&'a [u8], &'a [u8]),
    /// `catch ID`.
    Catch(&'a [u8]),
    /// `end line N DT`.
    EndLine(&'a [u8], &'a [u8]),
    /// `end job ID DT`.
    EndJob(&'a [u8], &'a [u8]),
}

fn start_at(moment: &[u8], up: bool) -> Option<Form<'_>>
    ensures { option_map form_seen result ≡ start_at moment.now up }
{
    if !is_moment(moment) {
        return None;
    }
    Some(Form::Start(moment, up))
}

#[tactic(auto, unfolding(crate::specs::Reading::start_form))]
fn start_form(text: &[u8]) -> Option<Form<'_>>
    ensures { option_map form_seen result ≡ start_form text.now }
{
    if text.ends_with(b" up") {
        return start_at(&text[..text.len() - 3], true);
    }
    if text.ends_with(b" down") {
        return start_at(&text[..text.len() - 5], false);
    }
    None
}

#[tactic(auto, unfolding(crate::specs::Reading::stamp_form))]
fn stamp_form(text: &[u8]) -> Option<Form<'_>>
    ensures { option_map form_seen result ≡ stamp_form text.now }
{
    let (identifier, date) = first_word(text)?;
    if !is_word(date) {
        return None;
    }
    Some(Form::Stamp(identifier, date))
}

fn minute_form(text: &[u8]) -> Option<Form<'_>>
    ensures { option_map form_seen result ≡ minute_form text.now }
{
    if !is_moment(text) {
        return None;
    }
    Some(Form::Minute(text))
}

fn up_form(text: &[u8]) -> Option<Form<'_>>
    ensures { option_map form_seen result ≡ up_form text.now }
{
    if !is_moment(text) {
        return None;
    }
    Some(Form::Up(text))
}

#[tactic(auto, unfolding(crate::specs::Reading::begin_form))]
fn begin_form(text: &[u8]) -> Option<Form<'_>>
    ensures { option_map form_seen result ≡ begin_form text.now }
{
    let (kind, number) = first_word(text)?;
    if kind != b"line".as_slice() || !is_number(number) {
        return None;
    }
    Some(Form::Begin(number))
}

#[tactic(auto, unfolding(crate::specs::Reading::line_run))]
fn line_run(text: &[u8]) -> Option<(&[u8], &[u8])>
    ensures { option_map (λ run. (run.0.now, run.1.now)) result ≡ line_run text.now }
{
    let (number, moment) = first_word(text)?;
    if !is_number(number) || !is_moment(moment) {
        return None;
    }
    Some((number, moment))
}

#[tactic(auto, unfolding(crate::specs::Reading::job_run))]
fn job_run(text: &[u8]) -> Option<(&[u8], &[u8])>
    ensures { option_map (λ run. (run.0.now, run.1.now)) result ≡ job_run text.now }
{
    let (identifier, moment) = first_word(text)?;
    if !is_moment(moment) {
        return None;
    }
    Some((identifier, moment))
}

#[tactic(auto, unfolding(crate::specs::Reading::got_form))]
fn got_form(text: &[u8]) -> Option<Form<'_>>
    ensures { option_map form_seen result ≡ got_form text.now }
{
    let (kind, rest) = first_word(text)?;
    if kind != b"line".as_slice() {
        return None;
    }
    let (number, moment) = line_run(rest)?;
    Some(Form::Got(number, moment))
}

fn catch_form(text: &[u8]) -> Option<Form<'_>>
    ensures { option_map form_seen result ≡ catch_form text.now }
{
    if !is_word(text) {
        return None;
    }
    Some(Form::Catch(text))
}

#[tactic(auto, unfolding(crate::specs::Reading::end_form))]
fn end_form(text: &[u8]) -> Option<Form<'_>>
    ensures { option_map form_seen result ≡ end_form text.now }
{
    let (kind, rest) = first_word(text)?;
    if kind == b"line".as_slice() {
        let (number, moment) = line_run(rest)?;
        return Some(Form::EndLine(number, moment));
    }
    if kind == b"job".as_slice() {
        let (identifier, moment) = job_run(rest)?;
        return Some(Form::EndJob(identifier, moment));
    }
    None
}

#[tactic(auto, unfolding(crate::specs::Reading::form_behind))]
fn form_behind<'a>(verb: &[u8], text: &'a [u8]) -> Option<Form<'a>>
    ensures { option_map form_seen result ≡ form_behind verb.now text.now }
{
    if verb == b"start".as_slice() {
        return start_form(text);
    }
    if verb == b"stamp".as_slice() {
        return stamp_form(text);
    }
    if verb == b"minute".as_slice() {
        return minute_form(text);
    }
    if verb == b"up".as_slice() {
        return up_form(text);
    }
    if verb == b"begin".as_slice() {
        return begin_form(text);
    }
    if verb == b"got".as_slice() {
        return got_form(text);
    }
    if verb == b"catch".as_slice() {
        return catch_form(text);
    }
    if verb == b"end".as_slice() {
        return end_form(text);
    }
    None
}

#[tactic(auto, unfolding(crate::specs::Reading::form_of))]
pub(crate) fn form_of(line: &[u8]) -> Option<Form<'_>>
    ensures { option_map form_seen result ≡ form_of line.now }
{
    if line == b"down".as_slice() {
        return Some(Form::Down);
    }
    let (verb, text) = first_word(line)?;
    form_behind(verb, text)
}
