// What printing and reading make of each other.
ghost use Rattle.std.specs.Prelude.{◌<◌, ◌^◌};
ghost use Rattle.base64.specs.GeneralPurpose.{IsBytes};
ghost use Rattle.cmc_codec.specs.Laws.{EachValue, FitsSeconds, HasBytes, HasDurations, HasOrder, HaveUids, IsMetadata, IsOrdered, IsReadAgain, GivesBack};

use cmc_meta::{ObjectMeta, OwnerRef, Pairs};
use cmc_objects::{Object, Parts};

fn are_bytes(bytes: &[u8])
    ensures { IsBytes bytes.now }
{
    let _bytes = bytes;
}

fn parts_are_bytes(parts: &Parts)
    ensures { EachValue IsBytes parts.now }
{
    for (_, bytes) in parts.as_map().iter() {
        are_bytes(bytes.as_slice());
    }
}

fn has_bytes(object: &Object)
    ensures { HasBytes object.now }
{
    match object {
        Object::Cert(_) => {}
        Object::Request(request) => are_bytes(request.spec.request.as_slice()),
        Object::Secret(secret) => parts_are_bytes(&secret.parts),
    }
}

#[tactic(auto, using(crate::proofs::Entries::in_order))]
fn pairs_in_order(pairs: &Pairs)
    ensures { IsOrdered pairs.now }
{
    let _len = pairs.as_map().len();
}

#[tactic(auto, using(crate::proofs::Entries::in_order))]
fn parts_in_order(parts: &Parts)
    ensures { IsOrdered parts.now }
{
    let _len = parts.as_map().len();
}

fn has_order(object: &Object)
    ensures { HasOrder object.now }
{
    if let Object::Secret(secret) = object {
        parts_in_order(&secret.parts);
    }
}

fn has_uid(owner: &OwnerRef)
    ensures { owner.now.uid < 2 ^ 64 }
{
    let _uid = owner.uid;
}

fn have_uids(owners: &[OwnerRef])
    ensures { HaveUids owners.now }
{
    if let [first, rest @ ..] = owners {
        has_uid(first);
        have_uids(rest);
    }
}

fn fits_seconds(duration: Option<u64>)
    ensures { FitsSeconds duration }
{
    match duration {
        None => {}
        Some(seconds) => {
            let _seconds = seconds;
        }
    }
}

fn has_durations(object: &Object)
    ensures { HasDurations object.now }
{
    match object {
        Object::Cert(certificate) => {
            fits_seconds(certificate.spec.duration);
            fits_seconds(certificate.spec.renew_before);
        }
        Object::Request(request) => fits_seconds(request.spec.duration),
        Object::Secret(_) => {}
    }
}

fn is_metadata(meta: &ObjectMeta)
    ensures { IsMetadata meta.now }
{
    pairs_in_order(&meta.labels);
    pairs_in_order(&meta.annotations);
    have_uids(meta.owners.as_slice());
}

/// A law: what is printed of an object that was read is read again, as the same object. The call
/// changes nothing.
#[tactic(auto, using(crate::proofs::ObjectsAgain::object_again))]
pub fn printed_is_read(object: &Object)
    ensures { IsReadAgain object.now }
{
    has_bytes(object);
}

/// A law: what is read of the print of an object, if it is read, is the object without its status
/// and without what the store owns (uid, version, generation, creation). The call changes nothing.
#[tactic(auto, using(crate::proofs::OnlyObjects::gives_back))]
pub fn print_gives_back(object: &Object)
    ensures { GivesBack object.now }
{
    is_metadata(object.meta());
    has_bytes(object);
    has_order(object);
    has_durations(object);
}
