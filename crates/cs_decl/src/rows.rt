//! Answers the table of faults, row after row.
ghost use Rattle.std.specs.Prelude.{◌≡◌, ◌++◌, ◌&&◌, IfOk, Some, position, is_none, is_some};
ghost use Rattle.cs_decl.specs.Faults.{is_within, is_bad_offset, is_bad_max, is_bad_weight};
ghost use Rattle.cs_decl.specs.Faults.{is_bad_default, needs_group, are_bad_hours};
ghost use Rattle.cs_decl.specs.Faults.{is_bad_pass, first_fault, twice_declared, bad_numbers};
ghost use Rattle.cs_decl.specs.Faults.{are_all_hours, bad_groups, bad_parts, bad_times, bad_zone};
ghost use Rattle.cs_decl.specs.Faults.{faults_of};

use crate::clock::clock_of;
use crate::entries::{AnacronEntry, CronEntry, DefaultEntry, Entries};
use crate::names::{unlisted_anacron, unlisted_cron};
use crate::parts::first_with_bad_parts;
use crate::twice::{first_twice, twice_line};
use cs_civil::MINUTES_OF_DAY;
use cs_plan::{
    DeclFault, Found, MAX_CAPACITY, MAX_GROUPS, MAX_MINUTES, MAX_OFFSET, MAX_WEIGHT, Place,
};
use std::alloc::{AllocError, Global};

fn is_within(low: u16, high: u16, number: i128) -> bool
    ensures { result ≡ is_within low high number }
{
    i128::from(low) <= number && number <= i128::from(high)
}

fn has_bad_offset(entries: &Entries) -> bool
    ensures { result ≡ is_bad_offset entries.now.offset }
{
    entries.offset.unsigned_abs() > u128::from(MAX_OFFSET)
}

pub(crate) fn is_bad_max(max: i128) -> bool
    ensures { result ≡ is_bad_max max }
{
    !is_within(1, MAX_MINUTES, max)
}

fn is_bad_weight(weight: i128) -> bool
    ensures { result ≡ is_bad_weight weight }
{
    !is_within(1, u16::from(MAX_WEIGHT), weight)
}

fn needs_group(entry: &CronEntry) -> bool
    ensures { result ≡ needs_group entry.now }
{
    entry.mode.takes_lock() && entry.group.is_none()
}

fn are_bad_hours(hours: (i128, i128)) -> bool
    ensures { result ≡ are_bad_hours hours }
{
    !(0 <= hours.0 && hours.0 < hours.1 && hours.1 <= i128::from(MINUTES_OF_DAY))
}

fn is_bad_pass(pass: Option<i128>) -> bool
    ensures { result ≡ is_bad_pass pass }
{
    match pass {
        Some(minute) => !(0 <= minute && minute < i128::from(MINUTES_OF_DAY)),
        None => false,
    }
}

// ---- rows

#[tactic(auto, unfolding(crate::specs::Faults::twice_declared))]
fn twice_declared(alloc: Global, entries: &Entries) -> Result<Option<Found>, AllocError>
    ensures { IfOk result (λ f. f ≡ first_fault (twice_declared entries.now)) }
{
    if let Some(i) = first_twice(alloc, entries.groups.as_slice())? {
        return Ok(Some((DeclFault::TwiceDeclared, Some(Place::Group(i)))));
    }
    if let Some(i) = twice_line(alloc, entries.cron.as_slice())? {
        return Ok(Some((DeclFault::TwiceDeclared, Some(Place::Cron(i)))));
    }
    if let Some(i) = first_twice(alloc, entries.anacron.as_slice())? {
        return Ok(Some((DeclFault::TwiceDeclared, Some(Place::Anacron(i)))));
    }
    Ok(None)
}

fn bad_cron_max(cron: &[CronEntry]) -> Option<usize>
    ensures { result ≡ position (λ e. is_bad_max e.max) cron.now }
{
    cron.iter().position(|entry| is_bad_max(entry.max))
}

fn bad_anacron_max(anacron: &[AnacronEntry]) -> Option<usize>
    ensures { result ≡ position (λ e. is_bad_max e.max) anacron.now }
{
    anacron.iter().position(|entry| is_bad_max(entry.max))
}

fn bad_cron_weight(cron: &[CronEntry]) -> Option<usize>
    ensures { result ≡ position (λ e. is_bad_weight e.weight) cron.now }
{
    cron.iter().position(|entry| is_bad_weight(entry.weight))
}

fn bad_anacron_weight(anacron: &[AnacronEntry]) -> Option<usize>
    ensures { result ≡ position (λ e. is_bad_weight e.weight) anacron.now }
{
    anacron.iter().position(|entry| is_bad_weight(entry.weight))
}

fn has_bad_default_max(default: &Option<DefaultEntry>) -> bool
    ensures { result ≡ is_bad_default (λ e. is_bad_max e.max) default.now }
{
    match default {
        Some(entry) => is_bad_max(entry.max),
        None => false,
    }
}

fn has_bad_default_weight(default: &Option<DefaultEntry>) -> bool
    ensures { result ≡ is_bad_default (λ e. is_bad_weight e.weight) default.now }
{
    match default {
        Some(entry) => is_bad_weight(entry.weight),
        None => false,
    }
}

#[tactic(auto, unfolding(crate::specs::Faults::bad_numbers))]
fn bad_numbers(entries: &Entries) -> Option<Found>
    ensures { result ≡ first_fault (bad_numbers entries.now) }
{
    if let Some(i) = bad_cron_max(entries.cron.as_slice()) {
        return Some((DeclFault::BadMax, Some(Place::Cron(i))));
    }
    if let Some(i) = bad_anacron_max(entries.anacron.as_slice()) {
        return Some((DeclFault::BadMax, Some(Place::Anacron(i))));
    }
    if has_bad_default_max(&entries.default) {
        return Some((DeclFault::BadMax, None));
    }
    if let Some(i) = bad_cron_weight(entries.cron.as_slice()) {
        return Some((DeclFault::BadWeight, Some(Place::Cron(i))));
    }
    if let Some(i) = bad_anacron_weight(entries.anacron.as_slice()) {
        return Some((DeclFault::BadWeight, Some(Place::Anacron(i))));
    }
    if has_bad_default_weight(&entries.default) {
        return Some((DeclFault::BadWeight, None));
    }
    if !is_within(1, u16::from(MAX_CAPACITY), entries.capacity) {
        return Some((DeclFault::BadCapacity, None));
    }
    None
}

fn first_needing_group(cron: &[CronEntry]) -> Option<usize>
    ensures { result ≡ position needs_group cron.now }
{
    cron.iter().position(|entry| needs_group(entry))
}

fn first_with_mode(anacron: &[AnacronEntry]) -> Option<usize>
    ensures { result ≡ position (λ e. e.has_mode) anacron.now }
{
    anacron.iter().position(|entry| entry.has_mode)
}

#[tactic(auto, unfolding(crate::specs::Faults::bad_groups))]
fn bad_groups(alloc: Global, entries: &Entries) -> Result<Option<Found>, AllocError>
    ensures { IfOk result (λ f. f ≡ first_fault (bad_groups entries.now)) }
{
    if let Some(i) = first_needing_group(entries.cron.as_slice()) {
        return Ok(Some((DeclFault::ModeNeedsGroup, Some(Place::Cron(i)))));
    }
    if let Some(i) = unlisted_cron(alloc, entries)? {
        return Ok(Some((DeclFault::UnknownGroup, Some(Place::Cron(i)))));
    }
    if let Some(i) = unlisted_anacron(alloc, entries)? {
        return Ok(Some((DeclFault::UnknownGroup, Some(Place::Anacron(i)))));
    }
    if entries.groups.len() > MAX_GROUPS {
        return Ok(Some((DeclFault::TooManyGroups, Some(Place::Group(MAX_GROUPS)))));
    }
    Ok(None)
}

#[tactic(auto, unfolding(crate::specs::Faults::bad_times))]
fn bad_times(entries: &Entries) -> Option<Found>
    ensures { result ≡ first_fault (bad_times entries.now) }
{
    if are_bad_hours(entries.hours) {
        return Some((DeclFault::BadHours, None));
    }
    if let Some(i) = first_with_mode(entries.anacron.as_slice()) {
        return Some((DeclFault::ModeOnAnacron, Some(Place::Anacron(i))));
    }
    if is_bad_pass(entries.pass) {
        return Some((DeclFault::BadPassMinute, None));
    }
    None
}

fn bad_parts(alloc: Global, entries: &Entries) -> Result<Option<Found>, AllocError>
    ensures { IfOk result (λ f. f ≡ first_fault (bad_parts entries.now)) }
{
    match first_with_bad_parts(alloc, entries.cron.as_slice())? {
        Some(i) => Ok(Some((DeclFault::BadParts, Some(Place::Cron(i))))),
        None => Ok(None),
    }
}

fn are_all_hours(hours: (i128, i128)) -> bool
    ensures { result ≡ are_all_hours hours }
{
    hours.0 == 0 && hours.1 == i128::from(MINUTES_OF_DAY)
}

#[tactic(auto, unfolding(crate::specs::Faults::bad_zone))]
fn bad_zone(entries: &Entries) -> Option<Found>
    ensures { result ≡ first_fault (bad_zone entries.now) }
{
    if entries.zone.is_none() {
        return None;
    }
    if clock_of(entries).is_none() {
        return Some((DeclFault::BadZone, None));
    }
    if !are_all_hours(entries.hours) {
        return Some((DeclFault::HoursInZone, None));
    }
    if entries.pass.is_some() {
        return Some((DeclFault::PassInZone, None));
    }
    None
}

#[tactic(auto, using(crate::proofs::Order::in_front, crate::proofs::Order::behind))]
fn bad_times_or_later(alloc: Global, entries: &Entries) -> Result<Option<Found>, AllocError>
    ensures { IfOk result
        (λ f. f ≡ first_fault (bad_times entries.now
        ++ (bad_parts entries.now ++ bad_zone entries.now))) }
{
    if let Some(found) = bad_times(entries) {
        return Ok(Some(found));
    }
    if let Some(found) = bad_parts(alloc, entries)? {
        return Ok(Some(found));
    }
    Ok(bad_zone(entries))
}

#[tactic(auto, using(crate::proofs::Order::first_twice_declared, crate::proofs::Order::first_bad_number, crate::proofs::Order::first_bad_group, crate::proofs::Order::past_groups))]
pub(crate) fn fault_of(alloc: Global, entries: &Entries) -> Result<Option<Found>, AllocError>
    ensures { IfOk result (λ f. f ≡ first_fault (faults_of entries.now)) }
{
    if has_bad_offset(entries) {
        return Ok(Some((DeclFault::BadShape, None)));
    }
    if let Some(found) = twice_declared(alloc, entries)? {
        return Ok(Some(found));
    }
    if let Some(found) = bad_numbers(entries) {
        return Ok(Some(found));
    }
    if let Some(found) = bad_groups(alloc, entries)? {
        return Ok(Some(found));
    }
    bad_times_or_later(alloc, entries)
}
