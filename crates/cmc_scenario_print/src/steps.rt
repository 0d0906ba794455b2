// The steps of a script as JSON.
ghost use Rattle.std.specs.Prelude.{◌≡◌, codes, IfOk, OnOk};
ghost use Rattle.cmc_objects.specs.declared.entry.Step.TheVariants as kinds;
ghost use Rattle.cmc_print.specs.Puts.{put_list};
ghost use Rattle.cmc_print.specs.Trees.{data_of, members_of};
ghost use Rattle.cmc_scenario_print.specs.StepTrees.{certificate_members, informer_members, put_word, revision_members, script_tree, step_members, step_tree};
ghost use Rattle.serde_json.specs.Data.{no_members};

use crate::rows::reply_row;
use cmc_meta::{Key, Kind};
use cmc_objects::{Object, Role, SignRow, Step};
use cmc_print::{
    Members, Tree, Trees, applied_tree, key_word, kind_word, name_word, put_count,
    put_count_option, put_text, role_word,
};
use std::alloc::{AllocError, Global};

fn worded(alloc: Global, word: &str) -> Result<Members, AllocError>
    ensures { IfOk result (λ m. members_of m ≡ put_word word.now no_members) }
{
    let mut members = Members::new(alloc);
    put_text(&mut members, alloc, "do", word)?;
    Ok(members)
}

#[tactic(auto, unfolding(crate::specs::StepTrees::step_members))]
fn apply(alloc: Global, object: &Object, version: Option<u64>) -> Result<Members, AllocError>
    ensures { IfOk result (λ m. members_of m ≡ step_members (kinds.Apply object.now version)) }
{
    let mut members = worded(alloc, "apply")?;
    let tree = applied_tree(alloc, object, version)?;
    members.put(alloc, "object", tree)?;
    Ok(members)
}

#[tactic(auto, unfolding(crate::specs::StepTrees::step_members))]
fn delete(alloc: Global, key: &Key, version: Option<u64>) -> Result<Members, AllocError>
    ensures { IfOk result (λ m. members_of m ≡ step_members (kinds.Delete key.now version)) }
{
    let mut members = worded(alloc, "delete")?;
    let text = key_word(alloc, key)?;
    put_text(&mut members, alloc, "key", text.as_str())?;
    put_count_option(&mut members, alloc, "version", version)?;
    Ok(members)
}

fn of_certificate(alloc: Global, word: &str, certificate: &Key) -> Result<Members, AllocError>
    ensures { IfOk result (λ m. members_of m ≡ certificate_members word.now certificate.now) }
{
    let mut members = Members::new(alloc);
    let text = name_word(alloc, certificate)?;
    put_text(&mut members, alloc, "certificate", text.as_str())?;
    put_text(&mut members, alloc, "do", word)?;
    Ok(members)
}

fn of_revision(
    alloc: Global,
    word: &str,
    certificate: &Key,
    revision: u64,
) -> Result<Members, AllocError>
    ensures { IfOk result (λ m. members_of m ≡ revision_members word.now certificate.now revision) }
{
    let mut members = of_certificate(alloc, word, certificate)?;
    put_count(&mut members, alloc, "revision", revision)?;
    Ok(members)
}

#[tactic(auto, unfolding(crate::specs::StepTrees::step_members))]
fn answer(
    alloc: Global,
    certificate: &Key,
    revision: u64,
    row: &SignRow,
) -> Result<Members, AllocError>
    ensures { IfOk result (λ m. members_of m ≡ step_members (kinds.Answer certificate.now revision row.now)) }
{
    let mut members = of_revision(alloc, "answer", certificate, revision)?;
    let tree = reply_row(alloc, row)?;
    members.put(alloc, "row", tree)?;
    Ok(members)
}

#[tactic(auto, unfolding(crate::specs::StepTrees::step_members))]
fn tick(alloc: Global, seconds: u64) -> Result<Members, AllocError>
    ensures { IfOk result (λ m. members_of m ≡ step_members (kinds.Tick seconds)) }
{
    let mut members = worded(alloc, "tick")?;
    put_count(&mut members, alloc, "seconds", seconds)?;
    Ok(members)
}

#[tactic(auto, unfolding(crate::specs::StepTrees::step_members))]
fn stop(alloc: Global, role: Role) -> Result<Members, AllocError>
    ensures { IfOk result (λ m. members_of m ≡ step_members (kinds.Stop role)) }
{
    let mut members = worded(alloc, "stop")?;
    put_text(&mut members, alloc, "role", role_word(role))?;
    Ok(members)
}

#[tactic(auto, unfolding(crate::specs::StepTrees::step_members))]
fn start(alloc: Global, role: Role, behind: u64) -> Result<Members, AllocError>
    ensures { IfOk result (λ m. members_of m ≡ step_members (kinds.Start role behind)) }
{
    let mut members = Members::new(alloc);
    put_count(&mut members, alloc, "behind", behind)?;
    put_text(&mut members, alloc, "do", "start")?;
    put_text(&mut members, alloc, "role", role_word(role))?;
    Ok(members)
}

fn of_informer(alloc: Global, word: &str, role: Role, kind: Kind) -> Result<Members, AllocError>
    ensures { IfOk result (λ m. members_of m ≡ informer_members word.now role kind) }
{
    let mut members = worded(alloc, word)?;
    put_text(&mut members, alloc, "kind", kind_word(kind))?;
    put_text(&mut members, alloc, "role", role_word(role))?;
    Ok(members)
}

#[tactic(auto, unfolding(crate::specs::StepTrees::step_members))]
fn until(alloc: Global, role: Role, kind: Kind, writes: u64) -> Result<Members, AllocError>
    ensures { IfOk result (λ m. members_of m ≡ step_members (kinds.Until role kind writes)) }
{
    let mut members = of_informer(alloc, "until", role, kind)?;
    put_count(&mut members, alloc, "writes", writes)?;
    Ok(members)
}

#[tactic(auto, unfolding(crate::specs::StepTrees::step_members))]
fn members_of_step(alloc: Global, step: &Step) -> Result<Members, AllocError>
    ensures { IfOk result (λ m. members_of m ≡ step_members step.now) }
{
    match step {
        Step::Apply { object, version } => apply(alloc, object, *version),
        Step::Delete { key, version } => delete(alloc, key, *version),
        Step::Approve {
            certificate,
            revision,
        } => of_revision(alloc, "approve", certificate, *revision),
        Step::Deny {
            certificate,
            revision,
        } => of_revision(alloc, "deny", certificate, *revision),
        Step::Answer {
            certificate,
            revision,
            row,
        } => answer(alloc, certificate, *revision, row),
        Step::Renew { certificate } => of_certificate(alloc, "renew", certificate),
        Step::Tick { seconds } => tick(alloc, *seconds),
        Step::Stop { role } => stop(alloc, *role),
        Step::Start { role, behind } => start(alloc, *role, *behind),
        Step::Hold { role, kind } => of_informer(alloc, "hold", *role, *kind),
        Step::Release { role, kind } => of_informer(alloc, "release", *role, *kind),
        Step::Until { role, kind, writes } => until(alloc, *role, *kind, *writes),
        Step::Settle => worded(alloc, "settle"),
    }
}

fn step_of(alloc: Global, step: &Step) -> Result<Tree, AllocError>
    ensures { IfOk result (λ t. data_of t ≡ step_tree step.now) }
{
    Ok(Tree::object(members_of_step(alloc, step)?))
}

fn list(alloc: Global, script: &[Step]) -> Result<Tree, AllocError>
    ensures { IfOk result (λ t. data_of t ≡ script_tree script.now) }
{
    let mut trees = Trees::new(alloc);
    for step in script {
        trees.push(step_of(alloc, step)?)?;
    }
    Ok(Tree::list(trees))
}

/// Puts the steps of a script, unless there are none.
pub fn put_script(members: &mut Members, alloc: Global, script: &[Step]) -> Result<(), AllocError>
    ensures { OnOk result (members_of members.new ≡ put_list script_tree (codes "script") script.now (members_of members.old)) }
{
    if script.is_empty() {
        return Ok(());
    }
    let tree = list(alloc, script)?;
    members.put(alloc, "script", tree)
}
