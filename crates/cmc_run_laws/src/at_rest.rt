//! What is known of a Certificate once nothing is left to do.
ghost use Rattle.std.specs.Prelude.{◌≡◌, List, Some, false, true};
ghost use Rattle.cmc_meta.specs.declared.key.Key.{Key};
ghost use Rattle.cmc_meta.specs.declared.conditions.ConditionKind.TheVariants.{Ready};
ghost use Rattle.cmc_objects.specs.declared.certificate.Certificate.{Certificate};
ghost use Rattle.cmc_objects.specs.declared.entry.Entry.{Entry};
ghost use Rattle.cmc_objects.specs.declared.role.Role.TheVariants.{Issuing};
ghost use Rattle.cmc_objects.specs.Requests.{is_stated};
ghost use Rattle.cmc_model.specs.Histories.{Setting, moment, objects};
ghost use Rattle.cmc_rules.specs.Rest.{IsAtRest};
ghost use Rattle.cmc_rules.specs.Runs.{IsRun};
ghost use Rattle.cmc_rules.specs.Views.{certificate_at, present_views};
ghost use Rattle.cmc_waits.specs.Waits.{is_stopped};
ghost use Rattle.cmc_run_laws.specs.Settled.{CanBeIssued, IsReadyOrUnderWay};

/// A law: at rest each Certificate is settled. Where all is at rest in the history of a run, every role runs and no
/// informer is held, each Certificate that exists is Ready, or is in the back-off after a failed issuance, or is being
/// issued and waits for something that has a name.
pub fn each_certificate_is_settled_at_rest()
    ensures { (s : Setting) (h : List Entry) → IsRun s h → IsAtRest s h → is_stopped s h ≡ false
        → (key : Key) (c : Certificate) → certificate_at (objects s h) key ≡ Some c → IsReadyOrUnderWay (moment s h) (present_views s h Issuing key) c }
{}

/// A law: what can be issued is Ready at rest. Where besides the Certificate is in no back-off, a next key can be had,
/// the name of its Secret is free, the approver judges requests to its issuer, and the issuer's last answer is not that
/// it is pending, the Certificate is Ready.
pub fn what_can_be_issued_is_ready_at_rest()
    ensures { (s : Setting) (h : List Entry) → IsRun s h → IsAtRest s h → is_stopped s h ≡ false
        → (key : Key) (c : Certificate) → certificate_at (objects s h) key ≡ Some c → CanBeIssued s h (present_views s h Issuing key) c → is_stated Ready c.status.conditions ≡ true }
{}
