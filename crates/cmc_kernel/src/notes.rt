//! What a call leaves in the log, in how roles stand and in what they remember.
ghost use Rattle.std.specs.Prelude.{◌≡◌, ◌&&◌, ◌<◌, Some, option_map, true};
ghost use Rattle.cmc_meta.specs.declared.key.Key.{Key as KeyValue};
ghost use Rattle.cmc_meta.specs.Keys.{key_eq};
ghost use Rattle.cmc_objects.specs.declared.role.Role.{Role as RoleValue};
ghost use Rattle.cmc_model.specs.Histories.{role_eq};
ghost use Rattle.cmc_model.specs.Writes.{last_under};
ghost use Rattle.cmc_rules.specs.declared.progress.Obstacle.TheVariants as obstacles;
ghost use Rattle.cmc_rules.specs.declared.progress.Stage.TheVariants as stages;
ghost use Rattle.cmc_rules.specs.declared.progress.OpenPass.{OpenPass as OpenPassValue};
ghost use Rattle.cmc_rules.specs.Passes as spec;
ghost use Rattle.cmc_held.specs.Open.{pass_at};
ghost use Rattle.cmc_held.specs.Remembered.{has_past_row, past_at};
ghost use Rattle.cmc_held.specs.RoleStates.{role_state_of};
ghost use Rattle.cmc_kernel.specs.Changes.{writing};
ghost use Rattle.cmc_kernel.specs.Notes.{CanCount, own_write_counted, logged, noted};

use cmc_caches::Caches;
use cmc_held::{Passes, RoleMemories, RoleState, RoleStates, with_written, written_of};
use cmc_match::is_temporary;
use cmc_meta::{Key, Kind};
use cmc_model::Write;
use cmc_objects::{Call, Certificate, Object, Reply, Role, Shared};
use cmc_rules::{Obstacle, OpenPass, Stage};

fn is_stand_in(object: &Object) -> bool
    ensures { result ≡ spec.is_temporary_secret object.now }
{
    match object {
        Object::Secret(secret) => is_temporary(secret),
        _ => false,
    }
}

/// Whether the call writes a Secret that is marked as temporary.
pub(crate) fn writes_stand_in(call: &Call) -> bool
    ensures { result ≡ spec.writes_temporary call.now }
{
    match call {
        Call::Create {
            object,
            generate: _,
        } => is_stand_in(object),
        Call::Update { object, .. } => is_stand_in(object),
        _ => false,
    }
}

fn is_as_seen(certificate: &Option<Shared<Certificate>>, object: &Object) -> bool
    ensures { result ≡ spec.is_as_seen certificate.now object.now }
{
    match certificate {
        Some(certificate) => object.meta().version == certificate.meta.version,
        None => false,
    }
}

fn stage_written(stand_in: bool, stage: &Stage) -> Stage
    ensures { result ≡ spec.stage_written stand_in stage.now }
{
    match stage {
        Stage::Read => { if stand_in { Stage::Wrote } else { Stage::Saved } }
        _ => Stage::Wrote,
    }
}

fn stage_read(as_seen: bool, entry: u64, kind: Kind, version: u64) -> Stage
    ensures { result ≡ spec.stage_read as_seen entry kind version }
{
    if as_seen {
        return Stage::Read;
    }
    newer(entry, kind, version)
}

fn stage_by(
    current: &OpenPass,
    stand_in: bool,
    entry: u64,
    caches: &Caches,
    named: &Key,
    reply: &Reply,
) -> Stage
    ensures { result ≡ spec.stage_by current.now.seen.certificate stand_in current.now.stage entry named.now.kind (last_under named.now caches.now.writes) reply.now }
{
    let kind = named.kind;
    match reply {
        Reply::Ok { .. } => stage_written(stand_in, &current.stage),
        Reply::Unchanged { .. } => stage_written(stand_in, &current.stage),
        Reply::Found { object } => stage_read(
            is_as_seen(&current.seen.certificate, object),
            entry,
            kind,
            object.meta().version,
        ),
        Reply::Conflict { have, .. } => newer(entry, kind, *have),
        // Only here is the last write asked for.
        Reply::NotFound { .. } => newer(entry, kind, caches.last_under(named)),
        Reply::AlreadyExists { have } => newer(entry, kind, *have),
        Reply::Invalid { .. } => Stage::Barred,
        Reply::Unavailable { .. } => Stage::Refused {
            entry,
            obstacle: Obstacle::Failure,
        },
    }
}

/// How far the open pass of this number has come whose call under this key was answered so in the entry of this number.
/// The accepted writes are those from before the call.
pub(crate) fn stage_of(
    passes: &Passes,
    pass: u64,
    stand_in: bool,
    entry: u64,
    caches: &Caches,
    named: &Key,
    reply: &Reply,
) -> Stage
    ensures { (p : OpenPassValue) → pass_at passes.now pass ≡ Some p → result ≡ spec.stage_by p.seen.certificate stand_in p.stage entry named.now.kind (last_under named.now caches.now.writes) reply.now }
{
    match passes.get(pass) {
        Some(open) => stage_by(open, stand_in, entry, caches, named, reply),
        None => Stage::Barred,
    }
}

/// Refused in this entry, because of another object of the kind than the pass saw.
fn newer(entry: u64, kind: Kind, version: u64) -> Stage
    ensures { result ≡ stages.Refused entry (obstacles.Newer kind version) }
{
    Stage::Refused {
        entry,
        obstacle: Obstacle::Newer { kind, version },
    }
}

/// Adds what a call wrote to the accepted writes, where it wrote a key. It takes no memory.
pub(crate) fn log_write(caches: &mut Caches, key: Option<Key>, object: Option<Object>)
    requires { 0 < caches.old.spare }
    ensures writes { caches.new.writes ≡ logged key object caches.old.writes }
    ensures told { caches.new.told ≡ caches.old.told }
{
    if let Some(key) = key {
        caches.push(Write { key, object });
    }
}

/// The kind of the key that a call wrote, if it wrote one.
pub(crate) fn kind_written(key: &Option<Key>) -> Option<Kind>
    ensures { result ≡ option_map (λ (k : KeyValue). k.kind) key.now }
{
    match key {
        Some(key) => Some(key.kind),
        None => None,
    }
}

/// Counts a write of a pass of the role on the key, and remembers it as this version, where the pass
/// wrote an object of some kind. It takes no memory.
pub(crate) fn note_write(
    role_states: &mut RoleStates,
    memories: &mut RoleMemories,
    role: Role,
    key: &Key,
    written: Option<Kind>,
    version: u64,
)
    requires ready { has_past_row memories.old role key.now ≡ true }
    requires room { CanCount (role_state_of role_states.old role) }
    ensures counted { (r : RoleValue) → role_state_of role_states.new r ≡ own_write_counted written (role_eq role r) (role_state_of role_states.old role) (role_state_of role_states.old r) }
    ensures noted { (r : RoleValue) → (k : KeyValue) → past_at memories.new r k ≡ noted written version (role_eq role r && key_eq key.now k) (past_at memories.old r k) }
{
    if let Some(kind) = written {
        let standing = role_states.get(role);
        role_states.set(role, one_more(standing, kind));
        memories.wrote(role, key, kind, version);
    }
}

fn one_more(standing: RoleState, kind: Kind) -> RoleState
    requires { CanCount standing }
    ensures { result ≡ writing kind standing }
{
    with_written(standing, kind, written_of(standing, kind) + 1)
}
