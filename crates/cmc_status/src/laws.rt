//! What is proved of the two tables.
ghost use Rattle.cmc_objects.specs.declared.role.Role.TheVariants.{Readiness, Revision};
ghost use Rattle.cmc_rules.specs.Sound.{IsSound};

/// A law: the call of the readiness controller names the Certificate that it sees at its version, changes nothing of it
/// but the condition Ready, the times of its certificate and the resource version, and no admission rule refuses it;
/// the controller looks at nothing that it is not told of, does nothing where there is no Certificate, and where it has
/// nothing to do it has nothing to do until the certificate that exists expires.
pub fn is_readiness_sound()
    ensures { IsSound Readiness }
{}

/// A law: the call of the revision controller takes away a request that it sees, at its version, and changes nothing
/// else; the controller looks at nothing that it is not told of, does nothing where there is no Certificate, and where
/// it has nothing to do it has nothing to do on the same views.
pub fn is_revision_sound()
    ensures { IsSound Revision }
{}
