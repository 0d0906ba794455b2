// Objects as JSON.
ghost use Rattle.std.specs.Prelude.{◌≡◌, false, map, IfOk, OnOk};
ghost use Rattle.serde_json.specs.View.{view};
ghost use Rattle.serde_json.specs.Written.{has_float};
ghost use Rattle.cmc_print.specs.Printed.{head_members, put_cert, put_cert_request, put_secret_parts, put_body, object_tree, applied_head, applied_tree as applied};
ghost use Rattle.cmc_print.specs.Trees.{data_of, members_of};

use crate::metadata::{metadata_tree, named_metadata_tree};
use crate::puts::{put_members, put_parts, put_text};
use crate::spec_trees::{cert_spec_tree, request_spec_tree};
use crate::statuses::{cert_status_members, request_members};
use crate::tree::{Members, Tree};
use crate::words::{api_word, kind_word};
use cmc_objects::{Certificate, CertificateRequest, Object, Secret};
use serde_json::Value;
use std::alloc::{AllocError, Global};

#[tactic(auto, unfolding(crate::specs::Printed::head_members))]
fn head_of(alloc: Global, object: &Object) -> Result<Members, AllocError>
    ensures { IfOk result (λ m. members_of m ≡ head_members object.now) }
{
    let mut members = Members::new(alloc);
    put_text(&mut members, alloc, "apiVersion", api_word(object.kind()))?;
    put_text(&mut members, alloc, "kind", kind_word(object.kind()))?;
    let meta = metadata_tree(alloc, object.meta())?;
    members.put(alloc, "metadata", meta)?;
    Ok(members)
}

fn add_certificate(
    members: &mut Members,
    alloc: Global,
    certificate: &Certificate,
) -> Result<(), AllocError>
    ensures { OnOk result (members_of members.new ≡ put_cert certificate.now (members_of members.old)) }
{
    let spec = cert_spec_tree(alloc, &certificate.spec)?;
    members.put(alloc, "spec", spec)?;
    let status = cert_status_members(alloc, &certificate.status)?;
    put_members(members, alloc, "status", status)
}

fn add_request(
    members: &mut Members,
    alloc: Global,
    request: &CertificateRequest,
) -> Result<(), AllocError>
    ensures { OnOk result (members_of members.new ≡ put_cert_request request.now (members_of members.old)) }
{
    let spec = request_spec_tree(alloc, &request.spec)?;
    members.put(alloc, "spec", spec)?;
    let status = request_members(alloc, &request.status)?;
    put_members(members, alloc, "status", status)
}

fn add_secret(members: &mut Members, alloc: Global, secret: &Secret) -> Result<(), AllocError>
    ensures { OnOk result (members_of members.new ≡ put_secret_parts secret.now (members_of members.old)) }
{
    put_text(members, alloc, "type", secret.kind_text.as_str())?;
    put_parts(members, alloc, "data", secret.parts.as_map())
}

fn add_own(members: &mut Members, alloc: Global, object: &Object) -> Result<(), AllocError>
    ensures { OnOk result (members_of members.new ≡ put_body object.now (members_of members.old)) }
{
    match object {
        Object::Cert(certificate) => add_certificate(members, alloc, certificate),
        Object::Request(request) => add_request(members, alloc, request),
        Object::Secret(secret) => add_secret(members, alloc, secret),
    }
}

/// The object as a JSON tree.
///
/// Absent fields and empty lists and maps are left out, and so are the fields that the store owns:
/// uid, resource version, generation and the moment of creation. Bytes are written as standard
/// base64, durations as Go's time.Duration prints them, moments as RFC 3339 writes them.
#[tactic(auto, unfolding(crate::specs::Printed::object_tree))]
pub fn tree_of(alloc: Global, object: &Object) -> Result<Tree, AllocError>
    ensures { IfOk result (λ t. data_of t ≡ object_tree object.now) }
{
    let mut members = head_of(alloc, object)?;
    add_own(&mut members, alloc, object)?;
    Ok(Tree::object(members))
}

#[tactic(auto, unfolding(crate::specs::Printed::applied_head))]
fn applied_head_of(
    alloc: Global,
    object: &Object,
    version: Option<u64>,
) -> Result<Members, AllocError>
    ensures { IfOk result (λ m. members_of m ≡ applied_head object.now version) }
{
    let mut members = Members::new(alloc);
    put_text(&mut members, alloc, "apiVersion", api_word(object.kind()))?;
    put_text(&mut members, alloc, "kind", kind_word(object.kind()))?;
    let meta = named_metadata_tree(alloc, object.meta(), version)?;
    members.put(alloc, "metadata", meta)?;
    Ok(members)
}

/// The object as a user applies it: `tree_of`, with the resource version that the user names as
/// `metadata.resourceVersion`, in decimal.
#[tactic(auto, unfolding(crate::specs::Printed::applied_tree))]
pub fn applied_tree(
    alloc: Global,
    object: &Object,
    version: Option<u64>,
) -> Result<Tree, AllocError>
    ensures { IfOk result (λ t. data_of t ≡ applied object.now version) }
{
    let mut members = applied_head_of(alloc, object, version)?;
    add_own(&mut members, alloc, object)?;
    Ok(Tree::object(members))
}

/// The object as a JSON value: `tree_of`.
pub fn value_of(alloc: Global, object: &Object) -> Result<Value, AllocError>
    ensures value { IfOk result (λ v. view v ≡ object_tree object.now) }
    ensures none { IfOk result (λ v. has_float (view v) ≡ false) }
{
    Ok(tree_of(alloc, object)?.into_value())
}
