//! Laws of legal histories.
ghost use Rattle.std.specs.Prelude.{List};
ghost use Rattle.cmc_meta.specs.declared.key.Key.{Key};
ghost use Rattle.cmc_objects.specs.declared.entry.Entry.{Entry};
ghost use Rattle.cmc_objects.specs.declared.object.Object.{Object};
ghost use Rattle.cmc_model.specs.Histories.{Setting, objects};
ghost use Rattle.cmc_model.specs.Verdicts.{AreFinal};
ghost use Rattle.cmc_model.specs.Versions.{HasVersion};
ghost use Rattle.cmc_rules.specs.Admitted.{HaveOwnSecrets, MeetsRules};
ghost use Rattle.cmc_rules.specs.Legality.{IsLegal};

/// A law: in a legal history no version of a CertificateRequest is both approved and denied, and the condition
/// Approved, or Denied, that is True in one version stands unchanged in all later ones of its uid.
pub fn verdicts_stay()
    ensures { (s : Setting) (h : List Entry) → IsLegal s h → AreFinal s h }
{}

/// A law: in a legal history every version of every object, whoever wrote it, meets the admission rules that look at
/// the object alone: a Certificate all that are said of its name and its specification, and a Secret of the type for
/// TLS has its key and its certificate.
pub fn versions_meet_rules()
    ensures { (s : Setting) (h : List Entry) → IsLegal s h → (key : Key) (o : Object) → HasVersion s h key o → MeetsRules o }
{}

/// A law: after a legal history no two Certificates that exist name one Secret of a namespace.
pub fn certificates_have_own_secrets()
    ensures { (s : Setting) (h : List Entry) → IsLegal s h → HaveOwnSecrets (objects s h) }
{}
