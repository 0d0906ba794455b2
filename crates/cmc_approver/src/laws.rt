//! What is proved of the controller's table.
ghost use Rattle.cmc_objects.specs.declared.role.Role.TheVariants.{Approver};
ghost use Rattle.cmc_rules.specs.Approver.{approver, judged_after};
ghost use Rattle.cmc_rules.specs.Sound.{IsSoundTable};

/// A law: the controller calls nothing without a judgement; its call is for the request that it sees, at its version,
/// changes nothing of it but the conditions Approved and Denied, approves only after a yes, and no admission rule
/// refuses it; it asks for judgements alone, of the request that it sees, and a call follows each right answer. The
/// controller looks at nothing that it is not told of, does nothing where there is no request, and where it has nothing
/// to do it has nothing to do on the same views by the same rules.
pub fn is_sound()
    ensures { IsSoundTable Approver (λ seen now desk. approver seen desk) judged_after }
{}
