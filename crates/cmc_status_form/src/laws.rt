// What printing objects with their status and reading them make of each other.
ghost use Rattle.std.specs.Prelude.{◌<◌, ◌^◌, IfSome};
ghost use Rattle.base64.specs.GeneralPurpose.{IsBytes};
ghost use Rattle.cmc_codec.specs.Laws.{EachValue, HasBytes};
ghost use Rattle.cmc_status_form.specs.Laws.{HasFormRead, HasStatusWidths, IsWholeAgain};

use cmc_objects::{Object, Parts};

fn are_bytes(bytes: &[u8])
    ensures { IsBytes bytes.now }
{
    let _bytes = bytes;
}

fn parts_are_bytes(parts: &Parts)
    ensures { EachValue IsBytes parts.now }
{
    for (_, bytes) in parts.as_map().iter() {
        are_bytes(bytes.as_slice());
    }
}

fn has_bytes(object: &Object)
    ensures { HasBytes object.now }
{
    match object {
        Object::Cert(_) => {}
        Object::Request(request) => are_bytes(request.spec.request.as_slice()),
        Object::Secret(secret) => parts_are_bytes(&secret.parts),
    }
}

fn has_width(revision: Option<u64>)
    ensures { IfSome revision (λ n. n < 2 ^ 64) }
{
    match revision {
        None => {}
        Some(revision) => {
            let _revision = revision;
        }
    }
}

fn has_status_widths(object: &Object)
    ensures { HasStatusWidths object.now }
{
    match object {
        Object::Cert(certificate) => has_width(certificate.status.revision),
        Object::Request(request) => {
            are_bytes(request.status.ca.as_slice());
            are_bytes(request.status.certificate.as_slice());
        }
        Object::Secret(_) => {}
    }
}

/// A law: what is printed of an object of the form, with its status, is read as that object without what the store owns (uid,
/// version, generation, creation). The call changes nothing.
#[tactic(auto, using(crate::proofs::WholeAgain::whole_again))]
pub fn whole_is_read(object: &Object)
    ensures { IsWholeAgain object.now }
{
    let _kind = object.kind();
}

/// A law: an object that is read with its status is of the form, and has nothing that the store owns. The call changes
/// nothing.
pub fn read_has_form(object: &Object)
    ensures { HasFormRead object.now }
{
    has_bytes(object);
    has_status_widths(object);
}
