//! What is proved of the controller's table.
ghost use Rattle.cmc_objects.specs.declared.role.Role.TheVariants.{Trigger};
ghost use Rattle.cmc_rules.specs.Sound.{IsSound};

/// A law: the controller's call names the Certificate that it sees at its version, changes nothing of it but the
/// condition Issuing and the resource version, and no admission rule refuses it; it looks at nothing that it is
/// not told of, does nothing where there is no Certificate, and where it has nothing to do it has nothing to do up
/// to the end of a back-off.
pub fn is_sound()
    ensures { IsSound Trigger }
{}
