//! What is proved of the controller's table.
ghost use Rattle.cmc_objects.specs.declared.role.Role.TheVariants.{RequestManager};
ghost use Rattle.cmc_rules.specs.RequestManager.{request_manager, request_after};
ghost use Rattle.cmc_rules.specs.Sound.{IsSoundTable};

/// A law: each call makes a request, with the issuer and the duration of the Certificate that the controller sees, or
/// takes one away that it sees, at its version, and changes nothing else; no admission rule refuses it; it asks for
/// signatures alone, and a call follows each right answer. The controller looks at nothing that it is not told of, does
/// nothing where there is no Certificate, and where it has nothing to do it has nothing to do on the same views.
pub fn is_sound()
    ensures { IsSoundTable RequestManager (λ seen now desk. request_manager seen) request_after }
{}
