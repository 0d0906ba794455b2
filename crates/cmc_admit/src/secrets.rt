//! The rule on Secrets.
ghost use Rattle.std.specs.Option.{option_copied};
ghost use Rattle.std.specs.Prelude.{◌≡◌, not};
ghost use Rattle.cmc_model.specs.Admission as rules;

use cmc_objects::{Object, Secret, part_under};

fn lacks(secret: &Secret, key: &str) -> bool
    ensures { result ≡ rules.lacks key.now secret.now }
{
    part_under(&secret.parts, key).is_none()
}

fn changes_type(old: Option<&Object>, new: &Secret) -> bool
    ensures { result ≡ rules.changes_type (option_copied old.entry) new.now }
{
    match old {
        Some(Object::Secret(old)) => !(old.kind_text == new.kind_text),
        _ => false,
    }
}

fn is_tls_incomplete(secret: &Secret) -> bool
    ensures { result ≡ rules.is_tls_incomplete secret.now }
{
    secret.kind_text.as_str() == "kubernetes.io/tls"
        && (lacks(secret, "tls.key") || lacks(secret, "tls.crt"))
}

/// It is a status update, changes the type, or leaves a Secret for TLS without its key or its certificate.
pub fn is_secret_refused(old: Option<&Object>, new: &Secret, status: bool) -> bool
    ensures { result ≡ rules.is_secret_refused (option_copied old.entry) new.now status }
{
    status || changes_type(old, new) || is_tls_incomplete(new)
}
