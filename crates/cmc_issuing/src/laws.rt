//! What is proved of the controller's table.
ghost use Rattle.std.specs.Prelude.{None};
ghost use Rattle.cmc_objects.specs.declared.role.Role.TheVariants.{Issuing};
ghost use Rattle.cmc_rules.specs.Issuance.{issuing};
ghost use Rattle.cmc_rules.specs.Sound.{IsSoundTable};

/// A law: each call is for the Certificate or the Secret that the controller sees, at its version, or makes that Secret;
/// it changes of the Certificate's status only what an issuance ends with, and no admission rule refuses it. A Secret is
/// written only for the request of the next revision, which asks for what the Certificate asks for, with the key that
/// the status names: with the certificate that an issuer signed for that request, or with one that stands in and is
/// marked, readable at the moments of a run. The controller asks nothing. It looks at nothing that it is not told of,
/// does nothing where there is no Certificate, and where it has nothing to do it has nothing to do later on the same
/// views.
pub fn is_sound()
    ensures { IsSoundTable Issuing (λ seen now desk. issuing seen now) (λ seen now order value. None) }
{}
