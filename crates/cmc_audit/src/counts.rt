//! What exists, counted as a summary counts it.
ghost use Rattle.std.specs.Prelude.{◌≡◌, ◌&&◌, ◌==◌, ◌↔◌, IsTrue, count_by};
ghost use Rattle.cmc_meta.specs.ConditionLists.{condition_rank, tri_eq};
ghost use Rattle.cmc_meta.specs.declared.conditions.ConditionKind.TheVariants.{Ready};
ghost use Rattle.cmc_meta.specs.declared.conditions.Tri.TheVariants.{True};
ghost use Rattle.cmc_model.specs.Summaries.{says_ready, is_certificate, is_secret, is_ready};
ghost use Rattle.cmc_audit.specs.Verdicts as words;

use cmc_meta::{Condition, ConditionKind, Key, Tri};
use cmc_objects::Object;
use cmc_store::Store;
use std::collections::BTreeMap;

type Objects = BTreeMap<Key, Object>;

fn is_ready_condition(condition: &Condition) -> bool
    ensures { result ≡ ((condition_rank condition.now.kind == condition_rank Ready) && tri_eq condition.now.status True) }
{
    matches!(condition.kind, ConditionKind::Ready) && matches!(condition.status, Tri::True)
}

fn are_ready(conditions: &[Condition]) -> bool
    ensures { result ≡ says_ready conditions.now }
{
    conditions
        .iter()
        .any(|condition| is_ready_condition(condition))
}

fn counts_as_certificate(object: &Object) -> bool
    ensures { result ≡ is_certificate object.now }
{
    matches!(object, Object::Cert(_))
}

fn counts_as_secret(object: &Object) -> bool
    ensures { result ≡ is_secret object.now }
{
    matches!(object, Object::Secret(_))
}

fn counts_as_ready(object: &Object) -> bool
    ensures { result ≡ is_ready object.now }
{
    match object {
        Object::Cert(certificate) => are_ready(certificate.status.conditions.as_slice()),
        _ => false,
    }
}

fn certificates(objects: &Objects) -> u64
    ensures { result ≡ count_by (λ e. is_certificate e.1) objects.now.entries }
{
    objects
        .iter()
        .filter(|(_, object)| counts_as_certificate(object))
        .count() as u64
}

fn ready(objects: &Objects) -> u64
    ensures { result ≡ count_by (λ e. is_ready e.1) objects.now.entries }
{
    objects
        .iter()
        .filter(|(_, object)| counts_as_ready(object))
        .count() as u64
}

fn secrets(objects: &Objects) -> u64
    ensures { result ≡ count_by (λ e. is_secret e.1) objects.now.entries }
{
    objects
        .iter()
        .filter(|(_, object)| counts_as_secret(object))
        .count() as u64
}

/// How many Certificates exist, how many of them are Ready, and how many Secrets exist.
fn counted(store: &Store) -> [u64; 3]
    ensures { result ≡ words.counted store.now.state.objects }
{
    let objects = store.objects();
    [certificates(objects), ready(objects), secrets(objects)]
}

/// Whether the counts are those of what exists.
pub(crate) fn is_counted(store: &Store, counts: [u64; 3]) -> bool
    ensures { IsTrue result ↔ (counts ≡ words.counted store.now.state.objects) }
{
    let counted = counted(store);
    counts[0] == counted[0] && counts[1] == counted[1] && counts[2] == counted[2]
}
