//! What is proved of the controller's table.
ghost use Rattle.cmc_objects.specs.declared.role.Role.TheVariants.{KeyManager};
ghost use Rattle.cmc_rules.specs.KeyManager.{key_manager, key_after};
ghost use Rattle.cmc_rules.specs.Sound.{IsSoundTable};

/// A law: each call is for what the controller sees, at its version, and makes or takes away a Secret with the label of
/// a next key, or changes of the Certificate `nextPrivateKeySecretName` and nothing else; no admission rule refuses it;
/// it asks for keys alone, of a size that there is, and a call follows each right answer. The controller looks at
/// nothing that it is not told of, does nothing where there is no Certificate, and where it has nothing to do it has
/// nothing to do on the same views, however many questions were asked.
pub fn is_sound()
    ensures { IsSoundTable KeyManager (λ seen now desk. key_manager seen desk) key_after }
{}
