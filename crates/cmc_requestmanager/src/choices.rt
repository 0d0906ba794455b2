//! What the controller chooses to do, and the act of it.
ghost use Rattle.std.specs.Prelude.{◌≡◌, ◌↔◌, IfOk, IsTrue};
ghost use Rattle.cmc_pass.specs.declared.pass.Act.TheVariants.{Nothing};
ghost use Rattle.cmc_requestmanager.specs.Choices.{request_act_of};

use crate::calls::delete_call;
use crate::questions::ask_signature;
use cmc_meta::Bytes;
use cmc_objects::{Certificate, CertificateRequest};
use cmc_pass::Act;
use cmc_x509::Spki;
use std::alloc::{AllocError, Global};

/// What the controller chooses to do: all that its act is built from, by reference, so that a choice takes no memory.
#[derive(Clone, Copy)]
pub enum Choice<'a> {
    Nothing,
    /// The request is deleted.
    Delete {
        request: &'a CertificateRequest,
    },
    /// A signature by the key of this file, whose public key it is, is asked for.
    Ask {
        certificate: &'a Certificate,
        file: &'a Bytes,
        key: Spki<'a>,
    },
}

/// Whether nothing is chosen.
#[tactic(auto, unfolding(cmc_rules::specs::RevisionManager::delete_call, cmc_rules::specs::RequestManager::ask_signature))]
pub fn is_nothing(choice: Choice<'_>) -> bool
    ensures { IsTrue result ↔ (request_act_of choice.entry ≡ Nothing) }
{
    matches!(choice, Choice::Nothing)
}

/// The act of the choice.
pub fn build(alloc: Global, choice: Choice<'_>) -> Result<Act, AllocError>
    ensures { IfOk result (λ a. a ≡ request_act_of choice.entry) }
{
    match choice {
        Choice::Nothing => Ok(Act::Nothing),
        Choice::Delete { request } => delete_call(request),
        Choice::Ask {
            certificate,
            file,
            key,
        } => ask_signature(alloc, certificate, file, &key),
    }
}
