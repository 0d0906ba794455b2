//! What is proved of the controller's table.
ghost use Rattle.cmc_objects.specs.declared.role.Role.TheVariants.{Issuer};
ghost use Rattle.cmc_rules.specs.Issuer.{issuer, answered_after};
ghost use Rattle.cmc_rules.specs.Sound.{IsSoundTable};

/// A law: each call is for the request that the controller sees, at its version, changes nothing of it but the condition
/// Ready, the certificates and the moment of failure, and no admission rule refuses it; it asks issuers alone, about the
/// request that it sees, which is approved, and a call follows each right answer. The controller looks at nothing that
/// it is not told of, does nothing where there is no request, and where it has nothing to do it has nothing to do on the
/// same views up to a minute after the moment of Ready, whatever was asked and is set out.
pub fn is_sound()
    ensures { IsSoundTable Issuer issuer answered_after }
{}
