//! How much is left to write for a load.
ghost use Rattle.std.specs.Prelude.{◌≡◌, ◌∷◌, ◌<◌, ◌^◌, ℕ, List, Some, true};
ghost use Rattle.cmc_objects.specs.declared.call.Call.{Call};
ghost use Rattle.cmc_objects.specs.declared.call.Reply.{Reply};
ghost use Rattle.cmc_objects.specs.declared.entry.Entry.{Entry};
ghost use Rattle.cmc_objects.specs.declared.entry.Entry.TheVariants.{Call as Called};
ghost use Rattle.cmc_objects.specs.declared.entry.Who.TheVariants.{Pass};
ghost use Rattle.cmc_model.specs.Histories.{Setting};
ghost use Rattle.cmc_model.specs.Replies.{is_accepted};
ghost use Rattle.cmc_rules.specs.Passes.{open_pass};
ghost use Rattle.cmc_rules.specs.Runs.{IsRun};
ghost use Rattle.cmc_rules.specs.declared.progress.OpenPass.{OpenPass};
ghost use Rattle.cmc_world.specs.Histories.{IsPlain};
ghost use Rattle.cmc_safety.specs.Formed.{IsFormed};
ghost use Rattle.cmc_run_laws.specs.Calm.{is_calm};
ghost use Rattle.cmc_load_laws.specs.Loads.{HasAllRoles, HasFreeCertificates, IsLoad};
ghost use Rattle.cmc_load_laws.specs.LoadRuns.{CurrentWritesLower, IsLowering, IsPlainLowering, LowersMeasure};

use cmc_run_laws::{
    due_at_once, lead_is_below_the_lifetime, made_key_fits, own_request_is_wanted,
    plain_passes_run_alone,
};

/// A law: in a run whose script applies Certificates and deletes none, each accepted write of a pass that sees what there is
/// to see lowers the measure of one Certificate, leaves that of each other, and so lowers the measure of all. It is stated
/// of trigger, approver and readiness; of key manager and request manager while there is one next key, or one next request,
/// at most; of the issuer's controller where the issuer has issued; of issuing where it writes the Secret, but no stand-in;
/// and of the revision manager where what goes is of an earlier revision.
pub fn current_writes_lower_the_measure()
    ensures { (s : Setting) (h : List Entry) → IsFormed s → HasFreeCertificates s → IsRun s h → CurrentWritesLower s h }
{
    made_key_fits();
    own_request_is_wanted();
}

/// A law: in the plain order passes see what there is to see, so that the accepted writes of these roles lower the measure,
/// where no step of the script holds an informer or waits for a count of writes.
pub fn plain_writes_lower_the_measure()
    ensures { (s : Setting) (h : List Entry) (n : ℕ) (call : Call) (reply : Reply) (p : OpenPass) → IsFormed s → HasFreeCertificates s → is_calm s.script ≡ true → s.events < 2 ^ 64 → IsPlain s h
        → IsRun s (Called (Pass n) call reply ∷ h) → is_accepted reply ≡ true → open_pass s h n ≡ Some p → IsLowering p.role p.seen p.stage call
        → LowersMeasure s h (Called (Pass n) call reply) }
{
    made_key_fits();
    own_request_is_wanted();
    plain_passes_run_alone();
}

/// A law: in a plain run of a load each accepted write of a role lowers the measure, but for one: the status by which issuing
/// ends an issuance with success. There is one next key at most, one request of a revision, and none of a later revision than
/// its Certificate has, unless it is for an issuance under way; the issuer always answers with a certificate, no temporary one
/// is written, and no issuance fails.
pub fn load_writes_lower_the_measure()
    ensures { (s : Setting) (h : List Entry) (n : ℕ) (call : Call) (reply : Reply) (p : OpenPass) → IsFormed s → IsLoad s → s.events < 2 ^ 64 → IsPlain s h → IsRun s (Called (Pass n) call reply ∷ h)
        → is_accepted reply ≡ true → open_pass s h n ≡ Some p → IsPlainLowering p.role p.seen p.stage call → LowersMeasure s h (Called (Pass n) call reply) }
{
    made_key_fits();
    own_request_is_wanted();
    plain_passes_run_alone();
}

/// A law: in a plain run of a load whose roles all run, each accepted write of a role lowers the measure. Time goes by only
/// while no issuance under way has a request that is issued. So the certificate that an issuance leaves was signed at that
/// moment, and is not due for renewal.
pub fn each_load_write_lowers_the_measure()
    ensures { (s : Setting) (h : List Entry) (n : ℕ) (call : Call) (reply : Reply) → IsFormed s → IsLoad s → HasAllRoles s → s.events < 2 ^ 64 → IsPlain s h → IsRun s (Called (Pass n) call reply ∷ h)
        → is_accepted reply ≡ true → LowersMeasure s h (Called (Pass n) call reply) }
{
    made_key_fits();
    own_request_is_wanted();
    plain_passes_run_alone();
    due_at_once();
    lead_is_below_the_lifetime();
}
