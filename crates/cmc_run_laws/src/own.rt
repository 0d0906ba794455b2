//! What key manager and request manager make is what they were made for.
ghost use Rattle.std.specs.Prelude.{◌≡◌, ◌≤◌, ℕ, ℤ, List, length, Some, true};
ghost use Rattle.cmc_objects.specs.declared.call.Call.TheVariants.{Create};
ghost use Rattle.cmc_objects.specs.declared.certificate.Certificate.{Certificate};
ghost use Rattle.cmc_objects.specs.declared.object.Object.TheVariants.{Request};
ghost use Rattle.cmc_objects.specs.declared.orders.KeyOrder.{KeyOrder};
ghost use Rattle.cmc_objects.specs.declared.orders.Order.{Order};
ghost use Rattle.cmc_objects.specs.declared.orders.Order.TheVariants.{Key};
ghost use Rattle.cmc_objects.specs.declared.request.CertificateRequest.{CertificateRequest};
ghost use Rattle.cmc_objects.specs.declared.role.Role.TheVariants.{KeyManager, RequestManager};
ghost use Rattle.cmc_objects.specs.declared.secret.Secret.{Secret as SecretObject};
ghost use Rattle.cmc_match.specs.Facts.{fits, key_in};
ghost use Rattle.cmc_pass.specs.Values.{IsValue};
ghost use Rattle.cmc_pass.specs.declared.pass.Act.TheVariants.{Ask};
ghost use Rattle.cmc_pass.specs.declared.pass.Desk.{Desk};
ghost use Rattle.cmc_pass.specs.declared.pass.Views.{Views};
ghost use Rattle.cmc_pass.specs.declared.value.Value.{Value};
ghost use Rattle.cmc_pass.specs.declared.value.Value.TheVariants.{Made};
ghost use Rattle.cmc_rules.specs.Acts.{act, call_after};
ghost use Rattle.cmc_rules.specs.NextKeys.{named_key};
ghost use Rattle.cmc_rules.specs.NextRequests.{is_wanted};

/// A law: a key that is made fits. Whatever key answers the question of the key manager, it is of the algorithm and the
/// size that the Certificate asks for.
pub fn made_key_fits()
    ensures { (seen : Views) (now : ℤ) (desk : Desk) (c : Certificate) (order : KeyOrder) (file : List ℕ) → seen.certificate ≡ Some c
        → act KeyManager seen now desk ≡ Ask (Key order) → IsValue (Key order) (Made file) → fits c.spec.key file ≡ true }
{}

/// A law: the request that the request manager makes is wanted. Its certification request is read again, with the names of
/// the Certificate and the key of the Secret that the status names, and the request asks for all that the Certificate asks
/// for, as long as it has at most the 16,777,216 octets that are read.
pub fn own_request_is_wanted()
    ensures { (seen : Views) (now : ℤ) (order : Order) (value : Value) (c : Certificate) (k : SecretObject) (file : List ℕ) (made : CertificateRequest) → seen.certificate ≡ Some c
        → named_key c.status.next_key seen.next ≡ Some k → key_in k ≡ Some file
        → call_after RequestManager seen now order value ≡ Some (Create (Request made) true) → length made.spec.request ≤ 16777216 → is_wanted c file made ≡ true }
{}
