ghost use Rattle.std.specs.Prelude.{◌≡◌, ◌≤◌, IfOk, Ok, codes, length};
ghost use Rattle.serde_json.specs.Data.{member, no_members, object};
ghost use Rattle.serde_json.specs.View.{view};
ghost use Rattle.serde_json.specs.Written.{compact_text};
ghost use Rattle.cs_json.specs.Gives as json;
ghost use Rattle.cs_claims.specs.Answers.{Gives};
ghost use Rattle.cs_claims.specs.Certificate.{content};
ghost use Rattle.cs_claims.specs.Content.{content_of};
ghost use Rattle.cs_cert.specs.Denoted.{carried_said, certificate_by, content_in, content_said, is_other_version, json_in, listed_said, stretches_name};
ghost use Rattle.cs_cert.specs.Written.{certificate_data, listed_data, number_data, third_version_data};

use crate::carry_form::{read_carry_classes, write_carry_classes};
use crate::form::{Form, member};
use cs_civil::Sequence;
use cs_claims::{CertError, CertFault, Certificate, MAX_CERTIFICATE, Parts};
use cs_json::{Misread, only_members, parse, value_at};
use serde_json::{Value, json};
use std::alloc::{AllocError, Global};

fn parsed(alloc: Global, bytes: &[u8]) -> Result<Value, CertError>
    ensures { Gives view result (json_in bytes.now) }
{
    match parse(alloc, bytes) {
        Ok(value) => Ok(value),
        Err(Misread::Memory) => Err(CertError::from(AllocError)),
        Err(Misread::Fault(_)) => Err(CertError::Fault(CertFault::NotJson)),
    }
}

fn is_other_version(value: &Value) -> bool
    ensures { result ≡ is_other_version (view value.now) }
{
    match value.get("version").and_then(Value::as_number) {
        Some(number) => match number.as_i128() {
            Some(number) => number != 1 && number != 2 && number != 3,
            None => false,
        },
        None => false,
    }
}

fn stretches_name(version: u8) -> &'static str
    ensures { result.now ≡ stretches_name version }
{
    if version == 2 { "stretches" } else { "pairs" }
}

#[tactic(auto, unfolding(crate::specs::Denoted::listed_said))]
fn read_listed(alloc: Global, value: &Value, version: u8) -> Result<Parts, Misread>
    ensures { json.Gives content_of result (listed_said version (view value.now)) }
{
    let name = stretches_name(version);
    only_members(value, &["classes", "kinds", "reach", "version", name])?;
    let classes = member(alloc, value, "classes")?;
    let kinds = member(alloc, value, "kinds")?;
    let stretches = member(alloc, value, name)?;
    let reach = member(alloc, value, "reach")?;
    Ok(Parts {
        version,
        classes,
        kinds,
        stretches,
        reach,
    })
}

#[tactic(auto, unfolding(crate::specs::Denoted::carried_said))]
fn read_carried(alloc: Global, value: &Value) -> Result<Parts, Misread>
    ensures { json.Gives content_of result (carried_said (view value.now)) }
{
    only_members(value, &["classes", "kinds", "reach", "version"])?;
    let classes = read_carry_classes(alloc, value_at(value, "classes")?)?;
    let kinds = member(alloc, value, "kinds")?;
    let reach = member(alloc, value, "reach")?;
    Ok(Parts {
        version: 3,
        classes,
        kinds,
        stretches: Sequence::new(alloc),
        reach,
    })
}

#[tactic(auto, unfolding(crate::specs::Denoted::content_said))]
fn read_parts(alloc: Global, value: &Value) -> Result<Parts, Misread>
    ensures { json.Gives content_of result (content_said (view value.now)) }
{
    let version = member(alloc, value, "version")?;
    if version == 3 {
        read_carried(alloc, value)
    } else {
        read_listed(alloc, value, version)
    }
}

fn parts_in(alloc: Global, value: &Value) -> Result<Parts, CertError>
    ensures { Gives content_of result (content_in (view value.now)) }
{
    if is_other_version(value) {
        return Err(CertError::Fault(CertFault::BadVersion));
    }
    match read_parts(alloc, value) {
        Ok(parts) => Ok(parts),
        Err(Misread::Memory) => Err(CertError::from(AllocError)),
        Err(Misread::Fault(_)) => Err(CertError::Fault(CertFault::BadShape)),
    }
}

/// Reads a certificate. The error is the fault with the smallest number in the whole text, or
/// `OutOfMemory` if memory runs out.
#[tactic(auto, unfolding(crate::specs::Denoted::certificate_by))]
pub fn read_certificate(alloc: Global, bytes: &[u8]) -> Result<Certificate, CertError>
    ensures { Gives content result (certificate_by bytes.now) }
{
    if bytes.len() > MAX_CERTIFICATE {
        return Err(CertError::Fault(CertFault::TooLong));
    }
    let value = parsed(alloc, bytes)?;
    let parts = parts_in(alloc, &value)?;
    match Certificate::of_parts(parts) {
        Ok(certificate) => Ok(certificate),
        Err(fault) => Err(CertError::Fault(fault)),
    }
}

fn third_value(
    alloc: Global,
    classes: Value,
    kinds: Value,
    reach: Value,
    version: u8,
) -> Result<Value, AllocError>
    ensures { IfOk result (λ v. view v ≡ object (member (codes "classes") (view classes)
        (member (codes "kinds") (view kinds)
        (member (codes "reach") (view reach)
        (member (codes "version") (number_data version) no_members))))) }
{
    json!(in alloc; {"classes": classes, "kinds": kinds, "reach": reach, "version": version})
}

fn carried_value(alloc: Global, parts: &Parts) -> Result<Value, AllocError>
    ensures { IfOk result (λ v. view v ≡ third_version_data (content_of parts.now)) }
{
    let classes = write_carry_classes(alloc, parts.classes.as_slice())?;
    let kinds = parts.kinds.write(alloc)?;
    let reach = parts.reach.write(alloc)?;
    third_value(alloc, classes, kinds, reach, parts.version)
}

fn first_value(
    alloc: Global,
    classes: Value,
    kinds: Value,
    stretches: Value,
    reach: Value,
    version: u8,
) -> Result<Value, AllocError>
    ensures { IfOk result (λ v. view v ≡ object (member (codes "classes") (view classes)
        (member (codes "kinds") (view kinds)
        (member (codes "pairs") (view stretches)
        (member (codes "reach") (view reach)
        (member (codes "version") (number_data version) no_members)))))) }
{
    json!(in alloc; {"classes": classes, "kinds": kinds, "pairs": stretches, "reach": reach, "version": version})
}

fn second_value(
    alloc: Global,
    classes: Value,
    kinds: Value,
    stretches: Value,
    reach: Value,
    version: u8,
) -> Result<Value, AllocError>
    ensures { IfOk result (λ v. view v ≡ object (member (codes "classes") (view classes)
        (member (codes "kinds") (view kinds)
        (member (codes "reach") (view reach)
        (member (codes "stretches") (view stretches)
        (member (codes "version") (number_data version) no_members)))))) }
{
    json!(in alloc; {"classes": classes, "kinds": kinds, "reach": reach, "stretches": stretches, "version": version})
}

fn listed_value(alloc: Global, parts: &Parts) -> Result<Value, AllocError>
    ensures { IfOk result (λ v. view v ≡ listed_data (content_of parts.now)) }
{
    let classes = parts.classes.write(alloc)?;
    let kinds = parts.kinds.write(alloc)?;
    let stretches = parts.stretches.write(alloc)?;
    let reach = parts.reach.write(alloc)?;
    if parts.version == 2 {
        second_value(alloc, classes, kinds, stretches, reach, parts.version)
    } else {
        first_value(alloc, classes, kinds, stretches, reach, parts.version)
    }
}

fn to_value(alloc: Global, certificate: &Certificate) -> Result<Value, AllocError>
    ensures { IfOk result (λ v. view v ≡ certificate_data (content certificate.now)) }
{
    let parts = certificate.as_parts();
    if parts.version == 3 {
        carried_value(alloc, parts)
    } else {
        listed_value(alloc, parts)
    }
}

/// Writes a certificate: compact JSON, members in alphabetical order, lists as they are. The only
/// error is out of memory.
///
/// A text of at most 16,777,216 bytes is read back as the same certificate.
pub fn write_certificate(alloc: Global, certificate: &Certificate) -> Result<Vec<u8>, AllocError>
    ensures text { IfOk result (λ b.
        b.items ≡ compact_text (certificate_data (content certificate.now))) }
    ensures reads_back { IfOk result (λ b. length b.items ≤ 16_777_216
        → certificate_by b.items ≡ Ok (content certificate.now)) }
{
    to_value(alloc, certificate)?.to_vec(alloc)
}
