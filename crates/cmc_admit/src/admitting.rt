//! The rules of each call, in order.
ghost use Rattle.std.specs.Option.{option_copied};
ghost use Rattle.std.specs.Prelude.{◌≡◌};
ghost use Rattle.cmc_model.specs.Admission.{certificate_rules, verdict_rules, least_failing, refusing_rule, conditions_of};
ghost use Rattle.cmc_admit.specs.Outcomes.{outcome};

use crate::secrets::is_secret_refused;
use crate::{certificates, requests};
use cmc_meta::Conditions;
use cmc_objects::{Certificate, Object};

/// A call that a rule refuses.
#[derive(Clone, Copy)]
pub struct Invalid {
    /// The number of the least rule that fails.
    pub rule: u32,
}

fn admit_certificate(c: &Certificate, taken: bool) -> Result<(), Invalid>
    ensures { result ≡ outcome (least_failing (certificate_rules c.now taken)) }
{
    if certificates::has_no_name(&c.spec) {
        return Err(Invalid { rule: 1 });
    }
    if certificates::is_common_name_long(&c.spec) {
        return Err(Invalid { rule: 2 });
    }
    if certificates::is_duration_outside(&c.spec) {
        return Err(Invalid { rule: 3 });
    }
    if certificates::is_renewal_short(&c.spec) {
        return Err(Invalid { rule: 4 });
    }
    if certificates::is_renewal_long(&c.spec) {
        return Err(Invalid { rule: 5 });
    }
    if certificates::is_key_size_wrong(&c.spec) {
        return Err(Invalid { rule: 6 });
    }
    if taken {
        return Err(Invalid { rule: 7 });
    }
    if certificates::keeps_no_request(&c.spec) {
        return Err(Invalid { rule: 12 });
    }
    if certificates::is_outside_limits(c) {
        return Err(Invalid { rule: 13 });
    }
    if certificates::has_both_renewals(&c.spec) {
        return Err(Invalid { rule: 15 });
    }
    if certificates::is_percent_wrong(&c.spec) {
        return Err(Invalid { rule: 16 });
    }
    Ok(())
}

fn admit_verdict(old: Option<&Object>, new: &Conditions) -> Result<(), Invalid>
    ensures { result ≡ outcome (least_failing (verdict_rules (conditions_of (option_copied old.entry)) new.now)) }
{
    if requests::is_verdict_unsettled(new) {
        return Err(Invalid { rule: 9 });
    }
    if requests::has_both_verdicts(new) {
        return Err(Invalid { rule: 10 });
    }
    if requests::loses_verdict(old, new) {
        return Err(Invalid { rule: 11 });
    }
    Ok(())
}

/// Whether the rules admit a create of `new` (where `old` is none), an update of `old` to it, or, where `status` is
/// set, an update of the status of `old` to that of `new`. `taken` says whether another Certificate of the namespace
/// has the Secret that `new` names. `Invalid` comes exactly where a rule fails, with the least that does.
#[tactic(auto, unfolding(cmc_model::specs::Admission::refusing_rule))]
pub fn admit(old: Option<&Object>, new: &Object, status: bool, taken: bool) -> Result<(), Invalid>
    ensures { result ≡ outcome (refusing_rule (option_copied old.entry) new.now status taken) }
{
    match new {
        Object::Cert(_) if status => Ok(()),
        Object::Cert(c) => admit_certificate(c, taken),
        Object::Request(r) if status => admit_verdict(old, &r.status.conditions),
        Object::Request(_) if requests::changes_spec(old, new) => Err(Invalid { rule: 8 }),
        Object::Request(_) => Ok(()),
        Object::Secret(s) if is_secret_refused(old, s, status) => Err(Invalid { rule: 14 }),
        Object::Secret(_) => Ok(()),
    }
}
