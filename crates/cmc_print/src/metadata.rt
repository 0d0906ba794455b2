// Metadata and conditions as JSON.
ghost use Rattle.std.specs.Prelude.{◌≡◌, codes, IfOk, OnOk, OnErr};
ghost use Rattle.cmc_print.specs.Printed.{owner_tree, owners_tree, meta_members, meta_tree, version_tree, named_meta_tree, condition_tree, conditions_tree};
ghost use Rattle.cmc_print.specs.Puts.{put_list, put_option};
ghost use Rattle.cmc_print.specs.Trees.{data_of, members_of};

use crate::puts::{put_if_true, put_pairs, put_text};
use crate::tree::{Members, Tree, Trees};
use crate::words::{condition_word, kind_word, moment_word, tri_word, uid_word};
use cmc_meta::{Condition, ObjectMeta, OwnerRef};
use std::alloc::{AllocError, Global};

#[tactic(auto, unfolding(crate::specs::Printed::owner_tree))]
fn owner(alloc: Global, owner: &OwnerRef) -> Result<Tree, AllocError>
    ensures { IfOk result (λ t. data_of t ≡ owner_tree owner.now) }
{
    let mut members = Members::new(alloc);
    put_text(&mut members, alloc, "kind", kind_word(owner.kind))?;
    put_text(&mut members, alloc, "name", owner.name.as_str())?;
    let uid = uid_word(alloc, owner.uid)?;
    put_text(&mut members, alloc, "uid", uid.as_str())?;
    put_if_true(&mut members, alloc, "controller", owner.controller)?;
    Ok(Tree::object(members))
}

fn owner_list(alloc: Global, owners: &[OwnerRef]) -> Result<Tree, AllocError>
    ensures { IfOk result (λ t. data_of t ≡ owners_tree owners.now) }
{
    let mut trees = Trees::new(alloc);
    for reference in owners {
        trees.push(owner(alloc, reference)?)?;
    }
    Ok(Tree::list(trees))
}

fn put_owners(members: &mut Members, alloc: Global, owners: &[OwnerRef]) -> Result<(), AllocError>
    ensures ok { OnOk result (members_of members.new ≡ put_list owners_tree (codes "ownerReferences") owners.now (members_of members.old)) }
    ensures err { OnErr result (members_of members.new ≡ members_of members.old) }
{
    if owners.is_empty() {
        return Ok(());
    }
    let tree = owner_list(alloc, owners)?;
    members.put(alloc, "ownerReferences", tree)
}

#[tactic(auto, unfolding(crate::specs::Printed::meta_members))]
fn members_of_meta(alloc: Global, meta: &ObjectMeta) -> Result<Members, AllocError>
    ensures { IfOk result (λ m. members_of m ≡ meta_members meta.now) }
{
    let mut members = Members::new(alloc);
    put_text(&mut members, alloc, "name", meta.name.as_str())?;
    put_text(&mut members, alloc, "namespace", meta.namespace.as_str())?;
    put_pairs(&mut members, alloc, "labels", meta.labels.as_map())?;
    put_pairs(
        &mut members,
        alloc,
        "annotations",
        meta.annotations.as_map(),
    )?;
    put_owners(&mut members, alloc, meta.owners.as_slice())?;
    Ok(members)
}

/// The member `metadata` of an object.
#[tactic(auto, unfolding(crate::specs::Printed::meta_tree))]
pub fn metadata_tree(alloc: Global, meta: &ObjectMeta) -> Result<Tree, AllocError>
    ensures { IfOk result (λ t. data_of t ≡ meta_tree meta.now) }
{
    Ok(Tree::object(members_of_meta(alloc, meta)?))
}

fn put_version(members: &mut Members, alloc: Global, version: Option<u64>) -> Result<(), AllocError>
    ensures { OnOk result (members_of members.new ≡ put_option version_tree (codes "resourceVersion") version (members_of members.old)) }
{
    match version {
        None => Ok(()),
        Some(version) => {
            let text = version.to_string(alloc)?;
            put_text(members, alloc, "resourceVersion", text.as_str())
        }
    }
}

/// The same, with the resource version that a user names.
#[tactic(auto, unfolding(crate::specs::Printed::named_meta_tree))]
pub fn named_metadata_tree(
    alloc: Global,
    meta: &ObjectMeta,
    version: Option<u64>,
) -> Result<Tree, AllocError>
    ensures { IfOk result (λ t. data_of t ≡ named_meta_tree meta.now version) }
{
    let mut members = members_of_meta(alloc, meta)?;
    put_version(&mut members, alloc, version)?;
    Ok(Tree::object(members))
}

#[tactic(auto, unfolding(crate::specs::Printed::condition_tree))]
fn condition(alloc: Global, condition: &Condition) -> Result<Tree, AllocError>
    ensures { IfOk result (λ t. data_of t ≡ condition_tree condition.now) }
{
    let mut members = Members::new(alloc);
    put_text(&mut members, alloc, "type", condition_word(condition.kind))?;
    put_text(&mut members, alloc, "status", tri_word(condition.status))?;
    put_text(&mut members, alloc, "reason", condition.reason.as_str())?;
    put_text(&mut members, alloc, "message", condition.message.as_str())?;
    let since = moment_word(alloc, condition.since)?;
    put_text(&mut members, alloc, "lastTransitionTime", since.as_str())?;
    Ok(Tree::object(members))
}

fn condition_list(alloc: Global, conditions: &[Condition]) -> Result<Tree, AllocError>
    ensures { IfOk result (λ t. data_of t ≡ conditions_tree conditions.now) }
{
    let mut trees = Trees::new(alloc);
    for item in conditions {
        trees.push(condition(alloc, item)?)?;
    }
    Ok(Tree::list(trees))
}

/// Puts the conditions of a status, unless there are none.
pub fn put_conditions(
    members: &mut Members,
    alloc: Global,
    conditions: &[Condition],
) -> Result<(), AllocError>
    ensures ok { OnOk result (members_of members.new ≡ put_list conditions_tree (codes "conditions") conditions.now (members_of members.old)) }
    ensures err { OnErr result (members_of members.new ≡ members_of members.old) }
{
    if conditions.is_empty() {
        return Ok(());
    }
    let tree = condition_list(alloc, conditions)?;
    members.put(alloc, "conditions", tree)
}
