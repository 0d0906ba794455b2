//! What is known of one issuance.
ghost use Rattle.std.specs.Prelude.{◌≡◌, ◌+◌, ◌<◌, ◌≤◌, ℕ, ℤ, pos, List, true, false, int_lt, ◌+ℤ◌, ◌-ℤ◌};
ghost use Rattle.cmc_objects.specs.declared.certificate.Certificate.{Certificate};
ghost use Rattle.cmc_objects.specs.declared.secret.Secret.{Secret as SecretObject};
ghost use Rattle.cmc_policies.specs.Renewal.{lead, renewal};
ghost use Rattle.cmc_policies.specs.declared.renewal.Renew.{Renew};
ghost use Rattle.cmc_pass.specs.declared.pass.Act.TheVariants.{Issue, Nothing};
ghost use Rattle.cmc_pass.specs.declared.pass.IssuePlan.{IssuePlan};
ghost use Rattle.cmc_pass.specs.declared.pass.Views.{Views};
ghost use Rattle.cmc_rules.specs.Issuance.{failed_status, failure, issued_status, issuing};
ghost use Rattle.cmc_rules.specs.Trigger.{trigger};
ghost use Rattle.cmc_run_laws.specs.Issuances.{IsAsWritten, IsNotDue, certificate_restated, with_certificate, with_secret};

/// A law: a certificate of lifetime `life` that began `before` seconds ago is due for renewal exactly where `before` and
/// the lead of its renewal together reach its lifetime.
pub fn due_at_once()
    ensures later { (now : ℤ) (before life : ℕ) (renew : Renew) → lead life renew + before < life
        → int_lt now (renewal (now -ℤ pos before) ((now -ℤ pos before) +ℤ pos life) renew) ≡ true }
    ensures at_once { (now : ℤ) (before life : ℕ) (renew : Renew) → life ≤ lead life renew + before
        → int_lt now (renewal (now -ℤ pos before) ((now -ℤ pos before) +ℤ pos life) renew) ≡ false }
{}

/// A law: the lead of a renewal is below a lifetime of 100 seconds or more, whatever the Certificate says of it. So a
/// certificate that lasts so long and begins now is not due.
pub fn lead_is_below_the_lifetime()
    ensures { (life : ℕ) (renew : Renew) → 100 ≤ life → lead life renew < life }
{}

/// A law: one failure a moment. After issuing has failed, the trigger has nothing to do at that moment.
pub fn nothing_is_due_after_a_failure()
    ensures { (now : ℤ) (seen : Views) (c : Certificate) (reason : List ℕ) (version : ℕ) → issuing (with_certificate c seen) now ≡ failure now reason c
        → trigger (with_certificate (certificate_restated version (failed_status now reason c.status) c) seen) now ≡ Nothing }
{}

/// A law: one issuance is enough. After issuing has written the Secret and the status of its plan, the trigger has nothing
/// to do at that moment, unless the certificate is due for renewal as it is issued.
pub fn nothing_is_due_after_an_issuance()
    ensures { (now : ℤ) (seen : Views) (c : Certificate) (plan : IssuePlan) (k : SecretObject) (version : ℕ) → issuing (with_certificate c seen) now ≡ Issue plan
        → IsAsWritten plan.secret k → IsNotDue now c k
        → trigger (with_secret k (with_certificate (certificate_restated version (issued_status now c.status) c) seen)) now ≡ Nothing }
{}
