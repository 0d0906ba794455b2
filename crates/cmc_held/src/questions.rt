//! How many questions were asked: they are numbered by the Certificates that they are for.
ghost use Rattle.std.proofs.Common.{rules};
ghost use Rattle.std.specs.Cmp.Rules.{comparing, hashing};
ghost use Rattle.std.specs.Hash as fed;
ghost use Rattle.std.specs.Prelude.{◌≡◌, ◌<◌, ◌^◌, ◌+◌, ◌-◌, ◌++◌, IfOk, OnErr, OnOk, if◌then◌else◌};
ghost use Rattle.cmc_meta.specs.Names.{hashed};
ghost use Rattle.cmc_held.specs.declared.questions.Subject.{Subject as SubjectValue};
ghost use Rattle.cmc_held.specs.Questioned.{subject_eq};
ghost use Rattle.cmc_rules.specs.Desks as desks;
ghost use Rattle.cmc_held.specs.Questioned as spec;

use cmc_match::text_under;
use cmc_meta::{Name, Text};
use cmc_objects::{Certificate, CertificateRequest, Order, Role, Shared};
use cmc_pass::Views;
use cmc_seed::HashSeed;
use std::alloc::{AllocError, Global};
use std::collections::HashMap;
use std::hash::{Hash, Hasher};
use std::marker::Model;

/// A Certificate's name in its namespace, as a question states it: an annotation can hold any text.
#[derive(Drop)]
struct Subject {
    namespace: Name,
    name: Text,
}

impl PartialEq for Subject {
    ghost use Rattle.cmc_held.specs.Questioned.{subject_eq};

    ghost eq = { subject_eq };

    ghost laws = { Prim.search (comparing, rules) };

    fn eq(&self, other: &Subject) -> bool {
        self.namespace == other.namespace && self.name == other.name
    }
}

impl Eq for Subject {
    ghost laws = { Prim.search (comparing, rules) };
}

impl Hash for Subject {
    ghost hash_input = { λ subject. hashed subject.namespace ++ fed.str subject.name };

    ghost respects_eq = { Prim.search (hashing, rules) };

    fn hash<H: Hasher>(&self, state: &mut H) {
        self.namespace.hash(state);
        self.name.as_str().hash(state);
    }
}

/// Counts under the names of Certificates. A name is only ever looked for by itself, and nobody asks for an order of
/// names: so they are hashed, and not sorted.
#[derive(Drop)]
struct Counts {
    map: HashMap<Subject, u64, HashSeed>,
}

impl Model for Counts {
    ghost use Rattle.cmc_held.specs.Questioned.{Counts as Counted};

    ghost Value = { Counted };

    ghost view = { λ c. c.map.entries };
}

impl Counts {
    #[tactic(auto, unfolding(crate::specs::Questioned::count_under))]
    fn new(alloc: Global, seed: HashSeed) -> Counts
        ensures { (k : SubjectValue) → spec.count_under result k ≡ 0 }
    {
        Counts {
            map: HashMap::with_hasher(alloc, seed),
        }
    }

    #[tactic(auto, unfolding(crate::specs::Questioned::count_under))]
    fn get(&self, subject: &Subject) -> u64
        ensures { result ≡ spec.count_under self.now subject.now }
    {
        match self.map.get(subject) {
            Some(count) => *count,
            None => 0,
        }
    }

    /// Counts one more under the name. An error is one of memory, and leaves all counts as they were.
    #[tactic(auto, unfolding(crate::specs::Questioned::count_under))]
    fn add(&mut self, subject: Subject) -> Result<(), AllocError>
        requires { spec.count_under self.old subject < 2 ^ 64 - 1 }
        ensures ok { OnOk result ((k : SubjectValue) → spec.count_under self.new k ≡ (if subject_eq subject k then spec.count_under self.old k + 1 else spec.count_under self.old k)) }
        ensures err { OnErr result (self.new ≡ self.old) }
    {
        if let Some(count) = self.map.get_mut(&subject) {
            *count += 1;
            return Ok(());
        }
        self.map.insert(subject, 1)?;
        Ok(())
    }
}

/// How many questions were asked for each Certificate's name: those for keys, and those to issuers.
pub struct Questions {
    alloc: Global,
    /// The questions of the key manager. A name that is not there was never asked for.
    keys: Counts,
    /// The questions to issuers.
    answers: Counts,
}

impl Drop for Questions {
    fn drop(self) {
        let Questions {
            alloc: _alloc,
            keys: _keys,
            answers: _answers,
        } = self;
    }
}

impl Model for Questions {
    ghost use Rattle.cmc_held.specs.Questioned.{Questioned};

    ghost Value = { Questioned };

    ghost view = { λ q. record { keys = q.keys; answers = q.answers } };
}

fn subject_of(alloc: Global, namespace: &Name, name: &Name) -> Result<Subject, AllocError>
    ensures { IfOk result (λ s. s ≡ spec.subject_named namespace.now name.now) }
{
    Ok(Subject {
        namespace: namespace.copy()?,
        name: Text::from_str(alloc, name.as_str())?,
    })
}

fn name_in(alloc: Global, request: &CertificateRequest) -> Result<Text, AllocError>
    ensures { IfOk result (λ t. t ≡ desks.certificate_named request.now) }
{
    match text_under(
        &request.meta.annotations,
        "cert-manager.io/certificate-name",
    ) {
        None => Text::from_str(alloc, request.meta.name.as_str()),
        Some(name) => name.copy(),
    }
}

fn subject_in(alloc: Global, request: &CertificateRequest) -> Result<Subject, AllocError>
    ensures { IfOk result (λ s. s ≡ spec.subject_named request.now.meta.namespace (desks.certificate_named request.now)) }
{
    let name = name_in(alloc, request)?;
    Ok(Subject {
        namespace: request.meta.namespace.copy()?,
        name,
    })
}

impl Questions {
    /// None was asked, and names are hashed by the seed. It takes no memory.
    pub fn new(alloc: Global, seed: HashSeed) -> Questions
        ensures keys { (s : SubjectValue) → spec.count_under result.keys s ≡ 0 }
        ensures answers { (s : SubjectValue) → spec.count_under result.answers s ≡ 0 }
    {
        Questions {
            alloc,
            keys: Counts::new(alloc, seed),
            answers: Counts::new(alloc, seed),
        }
    }

    fn keys_for(&self, certificate: &Option<Shared<Certificate>>) -> Result<u64, AllocError>
        ensures { IfOk result (λ n. n ≡ spec.keys_asked self.now certificate.now) }
    {
        match certificate {
            None => Ok(0),
            Some(certificate) => {
                let subject = subject_of(
                    self.alloc,
                    &certificate.meta.namespace,
                    &certificate.meta.name,
                )?;
                Ok(self.keys.get(&subject))
            }
        }
    }

    fn answers_for(&self, request: &Option<Shared<CertificateRequest>>) -> Result<u64, AllocError>
        ensures { IfOk result (λ n. n ≡ spec.answers_asked self.now request.now) }
    {
        match request {
            None => Ok(0),
            Some(request) => {
                let subject = subject_in(self.alloc, request)?;
                Ok(self.answers.get(&subject))
            }
        }
    }

    /// How many questions the role asked before for the Certificate's name, by what it sees: key manager and issuer
    /// number their questions, the others have none with a number.
    pub fn asked_for(&self, role: Role, seen: &Views) -> Result<u64, AllocError>
        ensures { IfOk result (λ n. n ≡ spec.asked_for self.now role seen.now) }
    {
        match role {
            Role::KeyManager => self.keys_for(&seen.certificate),
            Role::Issuer => self.answers_for(&seen.request),
            _ => Ok(0),
        }
    }

    /// The question was asked.
    ///
    /// # Errors
    ///
    /// Where memory runs out, all counts are as they were.
    pub fn note(&mut self, order: &Order) -> Result<(), AllocError>
        requires keys { (s : SubjectValue) → spec.count_under self.old.keys s < 2 ^ 64 - 1 }
        requires answers { (s : SubjectValue) → spec.count_under self.old.answers s < 2 ^ 64 - 1 }
        ensures keys { OnOk result ((s : SubjectValue) → spec.count_under self.new.keys s ≡ (if spec.asks_key_at s order.now then spec.count_under self.old.keys s + 1 else spec.count_under self.old.keys s)) }
        ensures answers { OnOk result ((s : SubjectValue) → spec.count_under self.new.answers s ≡ (if spec.asks_issuer_at s order.now then spec.count_under self.old.answers s + 1 else spec.count_under self.old.answers s)) }
        ensures err { OnErr result (self.new ≡ self.old) }
    {
        match order {
            Order::Key(asked) => {
                let subject = subject_of(
                    self.alloc,
                    &asked.certificate.namespace,
                    &asked.certificate.name,
                )?;
                self.keys.add(subject)
            }
            Order::Sign(asked) => {
                let subject = subject_in(self.alloc, asked.request())?;
                self.answers.add(subject)
            }
            Order::Csr(_) | Order::Judge(_) => Ok(()),
        }
    }
}
