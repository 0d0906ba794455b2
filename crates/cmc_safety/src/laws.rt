//! The laws that every run is safe, that no rule refuses a call of a pass, that an issuance that nothing disturbs is complete, and that
//! what stands is in order.
ghost use Rattle.std.specs.Prelude.{List};
ghost use Rattle.cmc_objects.specs.declared.entry.Entry.{Entry};
ghost use Rattle.cmc_objects.specs.declared.role.Role.{Role};
ghost use Rattle.cmc_model.specs.Histories.{Setting};
ghost use Rattle.cmc_rules.specs.Legality.{IsLegal};
ghost use Rattle.cmc_rules.specs.Causes.{IsCaused};
ghost use Rattle.cmc_rules.specs.UserSteps.{Follows};
ghost use Rattle.cmc_rules.specs.Safety.{IsSafe};
ghost use Rattle.cmc_rules.specs.Sound.{IsSound};
ghost use Rattle.cmc_safety.specs.MayAct.{IsNeverInvalid};
ghost use Rattle.cmc_safety.specs.Completion.{CompletesIssuing};
ghost use Rattle.cmc_safety.specs.Formed.{IsFormed};
ghost use Rattle.cmc_safety.specs.Invariants.{KeepsInvariants};

/// A law: where the table of each role is sound and the setting is one of a scenario, every history that is legal, caused and follows
/// its script is safe. (Of the setting it needs that all moments lie in the years whose times a certificate can say and read again.)
/// Each Secret that issuing writes is a good issue, each revision that rises a good raise, each approval by the approver
/// was judged yes, each question to an issuer is about an approved request that is denied in no version of the whole
/// history, no user changes a revision, and each accepted write of a pass changes only what its role may change.
pub fn runs_are_safe()
    ensures { ((role : Role) → IsSound role) → (s : Setting) (h : List Entry) → IsFormed s → IsLegal s h → IsCaused s h → Follows s h → IsSafe s h }
{}

/// A law: where the table of each role is sound, no call of a pass is answered that a rule of admission refuses it, in any history that
/// is legal and caused.
pub fn no_call_is_invalid()
    ensures { ((role : Role) → IsSound role) → (s : Setting) (h : List Entry) → IsLegal s h → IsCaused s h → IsNeverInvalid h }
{}

/// A law: where the table of each role is sound, in every history that is legal and caused each pass of issuing that has its End, whose
/// act on what it saw is a plan, and that nothing disturbed, has done all of the plan: its Secret call was answered Ok or Unchanged, the
/// status call of an issuance Ok, and it ended with Wrote. Nothing disturbs it where it saw the Certificate and the target Secret as they
/// stood at its Begin, no call of its own failed, and no other accepted write was of one of the two.
pub fn undisturbed_issuing_completes()
    ensures { ((role : Role) → IsSound role) → (s : Setting) (h : List Entry) → IsLegal s h → IsCaused s h → CompletesIssuing s h }
{}

/// A law: where the table of each role is sound and the setting is one of a scenario, after every history that is legal, caused and
/// follows its script, all that was stored is in order: each version of an object has the form in which objects are read, no revision
/// is above the number of accepted writes, each moment that a version says (when it was made, the last transition of each condition,
/// the last failure, the two times of the certificate and that of its renewal) lies in the years 1950 to 9999, the moment is one whose
/// time can be written, and from its live read to its status the revision of an issuance is the one that its pass saw.
pub fn what_stands_is_in_order()
    ensures { ((role : Role) → IsSound role) → (s : Setting) (h : List Entry) → IsFormed s → IsLegal s h → IsCaused s h → Follows s h → KeepsInvariants s h }
{}
