//! What exists, and what Certificates wait for.
ghost use Rattle.std.specs.List.{list_any};
ghost use Rattle.std.specs.Prelude.{◌≡◌, ◌&&◌, ◌==◌, IfOk, IfSome, count_by};
ghost use Rattle.cmc_meta.specs.ConditionLists.{condition_rank, tri_eq};
ghost use Rattle.cmc_meta.specs.declared.conditions.ConditionKind.TheVariants.{Ready};
ghost use Rattle.cmc_meta.specs.declared.conditions.Tri.TheVariants.{True};
ghost use Rattle.cmc_model.specs.Summaries.{says_ready, is_certificate, is_secret, is_ready, is_waiting};
ghost use Rattle.cmc_objects.specs.declared.role.Role.TheVariants.{Issuing};
ghost use Rattle.cmc_caches.specs.Posted.{caches_of};
ghost use Rattle.cmc_kernel.specs.Kept.{on};
ghost use Rattle.cmc_waits.specs.Waits.{IsAllThatExists, is_stopped, waits_among, summary_among, summary_at};

use crate::waits::{all_that_exists, is_stopped, wait_at};
use cmc_caches::Caches;
use cmc_kernel::Kernel;
use cmc_meta::{Condition, ConditionKind, Key, Tri};
use cmc_objects::Object;
use cmc_summary::{Summary, Waiting, Waits};
use std::alloc::{AllocError, Global};
use std::collections::BTreeMap;

type Objects = BTreeMap<Key, Object>;

fn is_ready_condition(condition: &Condition) -> bool
    ensures { result ≡ ((condition_rank condition.now.kind == condition_rank Ready) && tri_eq condition.now.status True) }
{
    matches!(condition.kind, ConditionKind::Ready) && matches!(condition.status, Tri::True)
}

fn are_ready(conditions: &[Condition]) -> bool
    ensures { result ≡ says_ready conditions.now }
{
    conditions
        .iter()
        .any(|condition| is_ready_condition(condition))
}

fn counts_as_certificate(object: &Object) -> bool
    ensures { result ≡ is_certificate object.now }
{
    matches!(object, Object::Cert(_))
}

fn counts_as_secret(object: &Object) -> bool
    ensures { result ≡ is_secret object.now }
{
    matches!(object, Object::Secret(_))
}

fn counts_as_ready(object: &Object) -> bool
    ensures { result ≡ is_ready object.now }
{
    match object {
        Object::Cert(certificate) => are_ready(certificate.status.conditions.as_slice()),
        _ => false,
    }
}

fn counts_as_waiting(object: &Object) -> bool
    ensures { result ≡ is_waiting object.now }
{
    match object {
        Object::Cert(certificate) => !are_ready(certificate.status.conditions.as_slice()),
        _ => false,
    }
}

fn certificates(objects: &Objects) -> u64
    ensures { result ≡ count_by (λ e. is_certificate e.1) objects.now.entries }
{
    objects
        .iter()
        .filter(|(_, object)| counts_as_certificate(object))
        .count() as u64
}

fn ready(objects: &Objects) -> u64
    ensures { result ≡ count_by (λ e. is_ready e.1) objects.now.entries }
{
    objects
        .iter()
        .filter(|(_, object)| counts_as_ready(object))
        .count() as u64
}

fn secrets(objects: &Objects) -> u64
    ensures { result ≡ count_by (λ e. is_secret e.1) objects.now.entries }
{
    objects
        .iter()
        .filter(|(_, object)| counts_as_secret(object))
        .count() as u64
}

/// Whether some Certificate is not Ready.
fn has_waiting(objects: &Objects) -> bool
    ensures { result ≡ list_any (λ e. is_waiting e.1) objects.now.entries }
{
    objects.iter().any(|(_, object)| counts_as_waiting(object))
}

/// The Certificates that are not Ready, with what they wait for, where `all`, if it is given, is all that exists.
fn waiting_by(
    alloc: Global,
    kernel: &Kernel,
    stopped: bool,
    all: &Option<Caches>,
    objects: &Objects,
) -> Result<Waits, AllocError>
    requires stopped { stopped ≡ on is_stopped kernel.now }
    requires all { IfSome all.now (λ given. on IsAllThatExists kernel.now (caches_of given Issuing)) }
    ensures { IfOk result (λ w. w ≡ on waits_among kernel.now objects.now.entries) }
{
    let mut waiting = Waits::new(alloc);
    for (key, object) in objects.iter() {
        if counts_as_waiting(object) {
            if let Some(wait) = wait_at(alloc, kernel, stopped, all, key)? {
                let certificate = key.copy()?;
                waiting.push(Waiting { certificate, wait })?;
            }
        }
    }
    Ok(waiting)
}

/// All that exists, where waits depend on it: while some role does not run, or some informer is held, none does.
fn all_to_see(alloc: Global, kernel: &Kernel, stopped: bool) -> Result<Option<Caches>, AllocError>
    ensures { IfOk result (λ all. IfSome all (λ given. on IsAllThatExists kernel.now (caches_of given Issuing))) }
{
    if stopped {
        return Ok(None);
    }
    Ok(Some(all_that_exists(alloc, kernel)?))
}

/// The Certificates that are not Ready, with what they wait for. What exists is gone over only where there is one.
fn waiting(
    alloc: Global,
    kernel: &Kernel,
    stopped: bool,
    objects: &Objects,
) -> Result<Waits, AllocError>
    requires stopped { stopped ≡ on is_stopped kernel.now }
    ensures { IfOk result (λ w. w ≡ on waits_among kernel.now objects.now.entries) }
{
    if !has_waiting(objects) {
        return Ok(Waits::new(alloc));
    }
    let all = all_to_see(alloc, kernel, stopped)?;
    waiting_by(alloc, kernel, stopped, &all, objects)
}

/// The summary of these objects.
fn summarize(
    alloc: Global,
    kernel: &Kernel,
    stopped: bool,
    objects: &Objects,
) -> Result<Summary, AllocError>
    requires stopped { stopped ≡ on is_stopped kernel.now }
    ensures { IfOk result (λ s. s ≡ on summary_among kernel.now objects.now.entries) }
{
    Ok(Summary {
        certificates: certificates(objects),
        ready: ready(objects),
        secrets: secrets(objects),
        waiting: waiting(alloc, kernel, stopped, objects)?,
    })
}

/// The summary of what exists: how many Certificates exist, how many of them are Ready, how many Secrets exist, and
/// what each Certificate waits for that is not Ready, in order of key. Where some role does not run, or some informer
/// is held, that is what each waits for. Else it is the first of these that is so: its last issuance failed and the
/// moment lies in the back-off; it is being issued and there is no next key; its one next request is neither approved
/// nor denied; that is issued, and the Secret of the Certificate's name for it holds a next key itself; that is
/// approved, and its issuer has not answered or was not ready. Where a run is at rest one of these is so of each
/// (`each_wait_is_named`); before that a Certificate of which none is so has no item.
pub fn summary(alloc: Global, kernel: &Kernel) -> Result<Summary, AllocError>
    ensures { IfOk result (λ s. s ≡ on summary_at kernel.now) }
{
    let stopped = is_stopped(kernel);
    summarize(alloc, kernel, stopped, kernel.objects())
}
