//! Laws of all histories.
ghost use Rattle.std.specs.Prelude.{List};
ghost use Rattle.cmc_objects.specs.declared.entry.Entry.{Entry};
ghost use Rattle.cmc_model.specs.Histories.{Setting};
ghost use Rattle.cmc_model.specs.Verdicts.{IsAnswered, AreFinal};

/// A law: where the store answers each call of a history, no version of a CertificateRequest is both approved and
/// denied, and the condition Approved, or Denied, that is True in one version stands unchanged in all later ones of its
/// uid (cert-manager.io/v1 `CertificateRequest`: an approval or a denial is final).
pub fn verdicts_stay()
    ensures { (s : Setting) (h : List Entry) → IsAnswered s h → AreFinal s h }
{}
