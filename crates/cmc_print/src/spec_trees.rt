// The specs of Certificates and CertificateRequests as JSON.
ghost use Rattle.std.specs.Prelude.{◌≡◌, codes, IfOk, OnOk, OnErr};
ghost use Rattle.serde_json.specs.Data.{string};
ghost use Rattle.cmc_print.specs.Printed.{issuer_tree, key_members, put_references, put_names, put_terms, spec_tree, request_tree};
ghost use Rattle.cmc_print.specs.Puts.{put_option};
ghost use Rattle.cmc_print.specs.Words.{algorithm_name, encoding_name, rotation_name};
ghost use Rattle.cmc_print.specs.Trees.{data_of, members_of};

use crate::puts::{
    put_bytes, put_duration, put_if_true, put_members, put_small_count_option, put_some_text,
    put_text, put_texts,
};
use crate::tree::{Members, Tree};
use crate::words::{algorithm_word, encoding_word, rotation_word};
use cmc_meta::Text;
use cmc_objects::{Algorithm, CertSpec, Encoding, IssuerRef, KeySpec, RequestSpec, Rotation};
use std::alloc::{AllocError, Global};

fn put_owned_text(
    members: &mut Members,
    alloc: Global,
    name: &str,
    text: &Option<Text>,
) -> Result<(), AllocError>
    ensures ok { OnOk result (members_of members.new ≡ put_option string name.now text.now (members_of members.old)) }
    ensures err { OnErr result (members_of members.new ≡ members_of members.old) }
{
    match text {
        None => Ok(()),
        Some(text) => put_text(members, alloc, name, text.as_str()),
    }
}

#[tactic(auto, unfolding(crate::specs::Printed::issuer_tree))]
fn issuer(alloc: Global, issuer: &IssuerRef) -> Result<Tree, AllocError>
    ensures { IfOk result (λ t. data_of t ≡ issuer_tree issuer.now) }
{
    let mut members = Members::new(alloc);
    put_text(&mut members, alloc, "name", issuer.name.as_str())?;
    put_owned_text(&mut members, alloc, "kind", &issuer.kind)?;
    put_owned_text(&mut members, alloc, "group", &issuer.group)?;
    Ok(Tree::object(members))
}

fn put_algorithm(
    members: &mut Members,
    alloc: Global,
    algorithm: Option<Algorithm>,
) -> Result<(), AllocError>
    ensures ok { OnOk result (members_of members.new ≡ put_option (λ a. string (algorithm_name a)) (codes "algorithm") algorithm (members_of members.old)) }
    ensures err { OnErr result (members_of members.new ≡ members_of members.old) }
{
    match algorithm {
        None => Ok(()),
        Some(algorithm) => put_text(members, alloc, "algorithm", algorithm_word(algorithm)),
    }
}

fn put_encoding(
    members: &mut Members,
    alloc: Global,
    encoding: Option<Encoding>,
) -> Result<(), AllocError>
    ensures ok { OnOk result (members_of members.new ≡ put_option (λ e. string (encoding_name e)) (codes "encoding") encoding (members_of members.old)) }
    ensures err { OnErr result (members_of members.new ≡ members_of members.old) }
{
    match encoding {
        None => Ok(()),
        Some(encoding) => put_text(members, alloc, "encoding", encoding_word(encoding)),
    }
}

fn put_rotation(
    members: &mut Members,
    alloc: Global,
    rotation: Option<Rotation>,
) -> Result<(), AllocError>
    ensures ok { OnOk result (members_of members.new ≡ put_option (λ r. string (rotation_name r)) (codes "rotationPolicy") rotation (members_of members.old)) }
    ensures err { OnErr result (members_of members.new ≡ members_of members.old) }
{
    match rotation {
        None => Ok(()),
        Some(rotation) => put_text(members, alloc, "rotationPolicy", rotation_word(rotation)),
    }
}

#[tactic(auto, unfolding(crate::specs::Printed::key_members))]
fn key(alloc: Global, key: &KeySpec) -> Result<Members, AllocError>
    ensures { IfOk result (λ m. members_of m ≡ key_members key.now) }
{
    let mut members = Members::new(alloc);
    put_algorithm(&mut members, alloc, key.algorithm)?;
    put_small_count_option(&mut members, alloc, "size", key.size)?;
    put_encoding(&mut members, alloc, key.encoding)?;
    put_rotation(&mut members, alloc, key.rotation)?;
    Ok(members)
}

#[tactic(auto, unfolding(crate::specs::Printed::put_references))]
fn add_references(members: &mut Members, alloc: Global, spec: &CertSpec) -> Result<(), AllocError>
    ensures { OnOk result (members_of members.new ≡ put_references spec.now (members_of members.old)) }
{
    put_text(members, alloc, "secretName", spec.secret_name.as_str())?;
    let issuer = issuer(alloc, &spec.issuer)?;
    members.put(alloc, "issuerRef", issuer)?;
    let key = key(alloc, &spec.key)?;
    put_members(members, alloc, "privateKey", key)
}

#[tactic(auto, unfolding(crate::specs::Printed::put_names))]
fn add_names(members: &mut Members, alloc: Global, spec: &CertSpec) -> Result<(), AllocError>
    ensures { OnOk result (members_of members.new ≡ put_names spec.now (members_of members.old)) }
{
    put_some_text(members, alloc, "commonName", spec.common_name.as_str())?;
    put_texts(members, alloc, "dnsNames", spec.dns_names.as_slice())?;
    put_texts(members, alloc, "emailAddresses", spec.emails.as_slice())?;
    put_texts(members, alloc, "ipAddresses", spec.ip_addresses.as_slice())?;
    put_texts(members, alloc, "uris", spec.uris.as_slice())
}

#[tactic(auto, unfolding(crate::specs::Printed::put_terms))]
fn add_terms(members: &mut Members, alloc: Global, spec: &CertSpec) -> Result<(), AllocError>
    ensures { OnOk result (members_of members.new ≡ put_terms spec.now (members_of members.old)) }
{
    put_duration(members, alloc, "duration", spec.duration)?;
    put_duration(members, alloc, "renewBefore", spec.renew_before)?;
    put_small_count_option(members, alloc, "renewBeforePercentage", spec.renew_percent)?;
    put_small_count_option(members, alloc, "revisionHistoryLimit", spec.history_limit)
}

/// The member `spec` of a Certificate.
#[tactic(auto, unfolding(crate::specs::Printed::spec_tree))]
pub fn cert_spec_tree(alloc: Global, spec: &CertSpec) -> Result<Tree, AllocError>
    ensures { IfOk result (λ t. data_of t ≡ spec_tree spec.now) }
{
    let mut members = Members::new(alloc);
    add_references(&mut members, alloc, spec)?;
    add_names(&mut members, alloc, spec)?;
    add_terms(&mut members, alloc, spec)?;
    put_if_true(&mut members, alloc, "isCA", spec.is_ca)?;
    put_texts(&mut members, alloc, "usages", spec.usages.as_slice())?;
    Ok(Tree::object(members))
}

/// The member `spec` of a CertificateRequest.
#[tactic(auto, unfolding(crate::specs::Printed::request_tree))]
pub fn request_spec_tree(alloc: Global, spec: &RequestSpec) -> Result<Tree, AllocError>
    ensures { IfOk result (λ t. data_of t ≡ request_tree spec.now) }
{
    let mut members = Members::new(alloc);
    put_bytes(&mut members, alloc, "request", spec.request.as_slice())?;
    let issuer = issuer(alloc, &spec.issuer)?;
    members.put(alloc, "issuerRef", issuer)?;
    put_duration(&mut members, alloc, "duration", spec.duration)?;
    put_if_true(&mut members, alloc, "isCA", spec.is_ca)?;
    put_texts(&mut members, alloc, "usages", spec.usages.as_slice())?;
    Ok(Tree::object(members))
}
