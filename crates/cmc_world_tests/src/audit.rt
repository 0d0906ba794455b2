//! An audit of a history that looks at its entries alone: what is promised of each Secret that issuing writes, and how
//! revisions rise. It shares no definition with the proofs.
use cmc_history::History;
use cmc_match::{pair_in, part_under};
use cmc_meta::{Bytes, Condition, ConditionKind, Tri};
use cmc_objects::{
    Call, Certificate, CertificateRequest, Entry, Object, Reply, Role, Secret, Shared, Who,
};
use std::test::Fail;

/// How many Secrets issuing wrote. Each has one public key in its key and its certificate, and that certificate stood
/// before on a request that was approved, and that nobody ever denied.
pub(crate) fn audit(history: &History) -> Result<u64, Fail> {
    let entries = history.as_slice();
    let mut written = 0_u64;
    let mut before = 0_usize;
    for entry in entries {
        if let Some(secret) = issued_secret(entries, entry) {
            if pair_in(secret).is_none() {
                return Err(Fail::from("no pair"));
            }
            if !is_backed(entries, before, secret) {
                return Err(Fail::from("no request"));
            }
            written = written.saturating_add(1);
        }
        before = before.saturating_add(1);
    }
    Ok(written)
}

/// The Secret that a pass of issuing writes by this entry, where the store accepts it.
fn issued_secret<'a>(entries: &[Entry], entry: &'a Entry) -> Option<&'a Shared<Secret>> {
    match entry {
        Entry::Call {
            who: Who::Pass(pass),
            call,
            reply: Reply::Ok { .. },
        } => {
            if is_of_issuing(entries, *pass) {
                return written_secret(call);
            }
            None
        }
        _ => None,
    }
}

fn is_of_issuing(entries: &[Entry], number: u64) -> bool {
    entries.iter().any(|entry| begins_issuing(entry, number))
}

fn begins_issuing(entry: &Entry, number: u64) -> bool {
    match entry {
        Entry::Begin {
            pass,
            role: Role::Issuing,
            ..
        } => *pass == number,
        _ => false,
    }
}

fn written_secret(call: &Call) -> Option<&Shared<Secret>> {
    match call {
        Call::Create {
            object: Object::Secret(secret),
            ..
        } => Some(secret),
        Call::Update {
            object: Object::Secret(secret),
            ..
        } => Some(secret),
        _ => None,
    }
}

/// Some request that is approved among the first `before` entries, and that is denied nowhere, has the certificate of the
/// Secret there.
fn is_backed(entries: &[Entry], before: usize, secret: &Secret) -> bool {
    match part_under(&secret.parts, "tls.crt") {
        Some(certificate) => entries
            .iter()
            .take(before)
            .any(|entry| backs(entries, entry, certificate)),
        None => false,
    }
}

fn backs(entries: &[Entry], entry: &Entry, certificate: &Bytes) -> bool {
    match judged_request(entry) {
        Some(request) => {
            is_true(request, ConditionKind::Approved)
                && request.status.certificate.same(certificate)
                && !is_denied(entries, request)
        }
        None => false,
    }
}

/// The request whose status the entry writes, where the store accepts it.
fn judged_request(entry: &Entry) -> Option<&Shared<CertificateRequest>> {
    match entry {
        Entry::Call {
            call: Call::UpdateStatus {
                object: Object::Request(request),
                ..
            },
            reply: Reply::Ok { .. },
            ..
        } => Some(request),
        _ => None,
    }
}

fn is_denied(entries: &[Entry], request: &CertificateRequest) -> bool {
    entries.iter().any(|entry| denies(entry, request))
}

fn denies(entry: &Entry, request: &CertificateRequest) -> bool {
    match judged_request(entry) {
        Some(other) => {
            other.meta.name.as_str() == request.meta.name.as_str()
                && is_true(other, ConditionKind::Denied)
        }
        None => false,
    }
}

fn is_true(request: &CertificateRequest, kind: ConditionKind) -> bool {
    stands_true(request.status.conditions.get(kind))
}

pub(crate) fn stands_true(condition: Option<&Condition>) -> bool {
    match condition {
        Some(condition) => matches!(condition.status, Tri::True),
        None => false,
    }
}

/// How often the revision of a Certificate rises, where there is one Certificate.
///
/// # Errors
///
/// Where it falls, or rises by more than one.
pub(crate) fn raises(history: &History) -> Result<u64, Fail> {
    let mut raises = 0_u64;
    for entry in history.as_slice() {
        if let Some(certificate) = judged_certificate(entry) {
            let revision = certificate.status.revision.unwrap_or(0);
            if revision == raises.saturating_add(1) {
                raises = revision;
            }
            if revision != raises {
                return Err(Fail::from("no raise by one"));
            }
        }
    }
    Ok(raises)
}

/// The Certificate whose status the entry writes, where the store accepts it.
fn judged_certificate(entry: &Entry) -> Option<&Shared<Certificate>> {
    match entry {
        Entry::Call {
            call: Call::UpdateStatus {
                object: Object::Cert(certificate),
                ..
            },
            reply: Reply::Ok { .. },
            ..
        } => Some(certificate),
        _ => None,
    }
}
