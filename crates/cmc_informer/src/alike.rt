//! Objects that every index finds in the same way: where one takes the place of the other, no index changes.
ghost use Rattle.std.specs.Prelude.{◌≡◌, List, ℕ, Some, true};
ghost use Rattle.cmc_informer.specs.Caches.{is_targeting};
ghost use Rattle.cmc_informer.specs.Indexed.{AreFoundAlike};

use cmc_objects::Object;

fn same_secret(before: &Object, after: &Object) -> bool
    ensures { result ≡ true → (namespace name : List ℕ) → is_targeting namespace name (Some after.now) ≡ is_targeting namespace name (Some before.now) }
{
    match before {
        Object::Cert(before) => match after {
            Object::Cert(after) => {
                before.spec.secret_name.same(&after.spec.secret_name)
                    && before.meta.namespace.same(&after.meta.namespace)
            }
            _ => false,
        },
        _ => !matches!(after, Object::Cert(_)),
    }
}

fn found_alike(before: &Object, after: &Object) -> bool
    ensures { result ≡ true → AreFoundAlike (Some before.now) (Some after.now) }
{
    before.meta().uid == after.meta().uid
        && before.meta().owners.same(&after.meta().owners)
        && same_secret(before, after)
}

/// Whether both are objects, and each index finds them in the same way.
pub(crate) fn are_alike(before: &Option<Object>, after: &Option<Object>) -> bool
    ensures { result ≡ true → AreFoundAlike before.now after.now }
{
    match (before, after) {
        (Some(before), Some(after)) => found_alike(before, after),
        _ => false,
    }
}
