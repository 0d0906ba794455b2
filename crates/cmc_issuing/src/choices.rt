//! What the controller chooses to do, and the act of it.
ghost use Rattle.std.specs.Prelude.{◌≡◌, ◌↔◌, ℤ, IfOk, IsTrue, Option, Some};
ghost use Rattle.cmc_objects.specs.declared.certificate.Certificate.{Certificate as CertificateValue};
ghost use Rattle.cmc_objects.specs.declared.secret.Secret.{Secret as SecretValue};
ghost use Rattle.cmc_pass.specs.declared.pass.Act.TheVariants.{Nothing};
ghost use Rattle.cmc_issuing.specs.Choices.{issuing_act_of};
ghost use Rattle.cmc_rules.specs.NextRequests.{HasNextRevision};

use crate::plans::{issue_plan, temporary_plan};
use crate::statuses::failure;
use cmc_meta::Bytes;
use cmc_objects::{Certificate, CertificateRequest, Secret, Shared};
use cmc_pass::Act;
use std::alloc::{AllocError, Global};

/// What the controller chooses to do for a Certificate: what its act is built from. A certificate that stands in is made
/// here already, since its size decides whether it is used.
#[derive(Drop)]
pub enum Choice<'a> {
    Nothing,
    /// The issuance ends with a failure.
    Fail {
        reason: &'a str,
    },
    /// It ends with the certificate of the request, for the key of the file.
    Issue {
        file: &'a Bytes,
        request: &'a CertificateRequest,
    },
    /// A certificate for that key stands in.
    Temporary {
        file: &'a Bytes,
        stand_in: Bytes,
    },
}

/// Whether nothing is chosen, at whatever moment and for whatever Certificate and Secret.
#[tactic(auto, unfolding(cmc_rules::specs::Issuance::failure))]
pub fn is_nothing(choice: &Choice<'_>) -> bool
    ensures { (moment : ℤ) (certificate : CertificateValue) (target : Option SecretValue) → IsTrue result ↔ (issuing_act_of moment certificate target choice.now ≡ Nothing) }
{
    matches!(choice, Choice::Nothing)
}

/// The act of the choice for this Certificate, whose Secret stands so.
pub fn build(
    alloc: Global,
    moment: i64,
    certificate: &Certificate,
    target: &Option<Shared<Secret>>,
    choice: &Choice<'_>,
) -> Result<Act, AllocError>
    requires { HasNextRevision (Some certificate.now) }
    ensures { IfOk result (λ a. a ≡ issuing_act_of moment certificate.now target.now choice.now) }
{
    match choice {
        Choice::Nothing => Ok(Act::Nothing),
        Choice::Fail { reason } => failure(alloc, moment, reason, certificate),
        Choice::Issue { file, request } => {
            let plan = issue_plan(alloc, moment, certificate, file, request, target)?;
            Ok(Act::Issue(Shared::new(alloc, plan)?))
        }
        Choice::Temporary { file, stand_in } => {
            let plan = temporary_plan(alloc, certificate, file, stand_in, target)?;
            Ok(Act::Temporary(Shared::new(alloc, plan)?))
        }
    }
}
