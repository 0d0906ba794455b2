// The metadata of an object, read from JSON.
ghost use Rattle.std.specs.Prelude.{◌≡◌, [], None, codes, false, map};
ghost use Rattle.serde_json.specs.View.{view};
ghost use Rattle.cmc_cursor.specs.Members.{Gives};
ghost use Rattle.cmc_cursor.specs.Readers.{decimal_at, flag_at, name_at, pairs_at};
ghost use Rattle.cmc_cursor.specs.Seen.{shown};
ghost use Rattle.cmc_codec.specs.Given.{given_or};
ghost use Rattle.cmc_codec.specs.MetadataForm.{sought_member, sought_or, sought_needed, owners_at, labelled_in, placed_in, head_of, head_at};

use crate::owners_in::owners;
use cmc_cursor::{
    BadField, Fields, at, decimal, drop_rest, fields, flag, name, pairs, path_to, seek,
};
use cmc_meta::{Name, ObjectMeta, Owners, Pairs};
use serde_json::Value;
use std::alloc::Global;

/// The first members of metadata in byte order.
#[derive(Drop)]
pub struct Labelled {
    pub annotations: Pairs,
    pub labels: Pairs,
    pub name: Name,
}

/// The members after them.
#[derive(Drop)]
pub struct Placed {
    pub namespace: Name,
    pub owners: Owners,
    pub version: Option<u64>,
}

/// The metadata of an object, and the resource version that they name.
#[derive(Drop)]
pub struct Head {
    pub meta: ObjectMeta,
    pub version: Option<u64>,
}

fn found_pairs<'a, 'b>(
    alloc: Global,
    rest: Fields<'a, 'b>,
    name: &str,
) -> Result<(Pairs, Fields<'a, 'b>), BadField>
    ensures { Gives (λ p. (p.0, map shown p.1.now)) result (sought_or [] pairs_at name.now (map shown rest.now)) }
{
    match seek(alloc, rest, name)? {
        (None, rest) => Ok((Pairs::new(alloc), rest)),
        (Some(value), rest) => Ok((at(alloc, name, pairs(alloc, value))?, rest)),
    }
}

/// A flag among members that are dropped, false where it is left out.
pub fn found_flag<'a, 'b>(
    alloc: Global,
    rest: Fields<'a, 'b>,
    name: &str,
) -> Result<(bool, Fields<'a, 'b>), BadField>
    ensures { Gives (λ p. (p.0, map shown p.1.now)) result (sought_or false flag_at name.now (map shown rest.now)) }
{
    match seek(alloc, rest, name)? {
        (None, rest) => Ok((false, rest)),
        (Some(value), rest) => Ok((at(alloc, name, flag(alloc, value))?, rest)),
    }
}

/// A name among members that are dropped, which has to be there.
pub fn found_name<'a, 'b>(
    alloc: Global,
    rest: Fields<'a, 'b>,
    member: &str,
) -> Result<(Name, Fields<'a, 'b>), BadField>
    ensures { Gives (λ p. (p.0, map shown p.1.now)) result (sought_needed name_at member.now (map shown rest.now)) }
{
    match seek(alloc, rest, member)? {
        (None, _) => Err(BadField::Path(path_to(alloc, member)?)),
        (Some(value), rest) => Ok((at(alloc, member, name(alloc, value))?, rest)),
    }
}

fn default_namespace(alloc: Global) -> Result<Name, BadField>
    ensures { Gives (λ t. t) result (given_or (codes "default") name_at (codes "namespace") None) }
{
    match Name::read(alloc, "default") {
        Ok(name) => Ok(name),
        Err(_) => Err(BadField::NoMemory),
    }
}

fn found_namespace<'a, 'b>(
    alloc: Global,
    rest: Fields<'a, 'b>,
) -> Result<(Name, Fields<'a, 'b>), BadField>
    ensures { Gives (λ p. (p.0, map shown p.1.now)) result (sought_or (codes "default") name_at (codes "namespace") (map shown rest.now)) }
{
    match seek(alloc, rest, "namespace")? {
        (None, rest) => Ok((default_namespace(alloc)?, rest)),
        (Some(value), rest) => Ok((at(alloc, "namespace", name(alloc, value))?, rest)),
    }
}

fn found_owners<'a, 'b>(
    alloc: Global,
    rest: Fields<'a, 'b>,
) -> Result<(Owners, Fields<'a, 'b>), BadField>
    ensures { Gives (λ p. (p.0, map shown p.1.now)) result (sought_or [] owners_at (codes "ownerReferences") (map shown rest.now)) }
{
    match seek(alloc, rest, "ownerReferences")? {
        (None, rest) => Ok((Owners::new(alloc), rest)),
        (Some(value), rest) => Ok((at(alloc, "ownerReferences", owners(alloc, value))?, rest)),
    }
}

fn found_version<'a, 'b>(
    alloc: Global,
    rest: Fields<'a, 'b>,
) -> Result<(Option<u64>, Fields<'a, 'b>), BadField>
    ensures { Gives (λ p. (p.0, map shown p.1.now)) result (sought_member decimal_at (codes "resourceVersion") (map shown rest.now)) }
{
    match seek(alloc, rest, "resourceVersion")? {
        (None, rest) => Ok((None, rest)),
        (Some(value), rest) => {
            let version = at(alloc, "resourceVersion", decimal(alloc, value))?;
            Ok((Some(version), rest))
        }
    }
}

#[tactic(auto, unfolding(crate::specs::MetadataForm::labelled_in))]
fn read_labelled<'a, 'b>(
    alloc: Global,
    rest: Fields<'a, 'b>,
) -> Result<(Labelled, Fields<'a, 'b>), BadField>
    ensures { Gives (λ p. (p.0, map shown p.1.now)) result (labelled_in (map shown rest.now)) }
{
    let (annotations, rest) = found_pairs(alloc, rest, "annotations")?;
    let (labels, rest) = found_pairs(alloc, rest, "labels")?;
    let (name, rest) = found_name(alloc, rest, "name")?;
    let labelled = Labelled {
        annotations,
        labels,
        name,
    };
    Ok((labelled, rest))
}

#[tactic(auto, unfolding(crate::specs::MetadataForm::placed_in))]
fn read_placed<'a, 'b>(
    alloc: Global,
    rest: Fields<'a, 'b>,
) -> Result<(Placed, Fields<'a, 'b>), BadField>
    ensures { Gives (λ p. (p.0, map shown p.1.now)) result (placed_in (map shown rest.now)) }
{
    let (namespace, rest) = found_namespace(alloc, rest)?;
    let (owners, rest) = found_owners(alloc, rest)?;
    let (version, rest) = found_version(alloc, rest)?;
    let placed = Placed {
        namespace,
        owners,
        version,
    };
    Ok((placed, rest))
}

fn new_head(labelled: Labelled, placed: Placed) -> Head
    ensures { result ≡ head_of labelled placed }
{
    let Labelled {
        annotations,
        labels,
        name,
    } = labelled;
    let Placed {
        namespace,
        owners,
        version,
    } = placed;
    Head {
        meta: ObjectMeta {
            namespace,
            name,
            uid: 0,
            version: 0,
            generation: 0,
            created: 0,
            labels,
            annotations,
            owners,
        },
        version,
    }
}

/// The metadata of an object (Kubernetes API conventions, `ObjectMeta`): `name`, and where they
/// stand `namespace`, `labels`, `annotations`, `ownerReferences` and `resourceVersion`. Other
/// members are dropped.
#[tactic(auto, unfolding(crate::specs::MetadataForm::head_at))]
pub fn metadata(alloc: Global, value: &Value) -> Result<Head, BadField>
    ensures { Gives (λ t. t) result (head_at (view value.now)) }
{
    let members = fields(alloc, value)?;
    let (labelled, rest) = read_labelled(alloc, &members)?;
    let (placed, rest) = read_placed(alloc, rest)?;
    drop_rest(alloc, rest)?;
    Ok(new_head(labelled, placed))
}
