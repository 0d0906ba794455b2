//! Whom the writes of a load are for.
ghost use Rattle.std.specs.Prelude.{List};
ghost use Rattle.cmc_objects.specs.declared.entry.Entry.{Entry};
ghost use Rattle.cmc_model.specs.Histories.{Setting, objects};
ghost use Rattle.cmc_rules.specs.Runs.{IsRun};
ghost use Rattle.cmc_load_laws.specs.Belonging.{IsParted};
ghost use Rattle.cmc_load_laws.specs.Loads.{HasFreeCertificates};
ghost use Rattle.cmc_load_laws.specs.LoadRuns.{KeepsCertificates, WriteForOneCertificate};

/// A law: in a run whose script applies Certificates and deletes none, each accepted write of a role is for one Certificate,
/// which exists before and after it, whatever the interleaving. It finds and leaves nothing but what is of that Certificate:
/// the Certificate itself, the Secret that it names, or what it owns. What there is to see of each other Certificate stays as
/// it was, whoever looks; and so where the measure of this one falls, that of all falls. Each Certificate that was ever
/// written exists, with what it owned and the Secret that it named; and no object belongs to two.
pub fn each_write_is_for_one_certificate()
    ensures one { (s : Setting) (h : List Entry) → HasFreeCertificates s → IsRun s h → WriteForOneCertificate s h }
    ensures kept { (s : Setting) (h : List Entry) → HasFreeCertificates s → IsRun s h → KeepsCertificates s h }
    ensures parted { (s : Setting) (h : List Entry) → HasFreeCertificates s → IsRun s h → IsParted (objects s h) }
{}
