//! What a summary says.
ghost use Rattle.std.specs.Prelude.{◌≡◌, ◌++◌, ◌∷◌, [], IfOk, OnOk, OnErr};

use cmc_meta::Key;
use std::alloc::{AllocError, Global};
use std::marker::Model;

/// Why a Certificate is not Ready at the end of a run.
#[derive(Clone, Copy)]
pub enum WaitName {
    /// Some role does not run, or some informer is held.
    Stopped,
    /// Its last issuance failed, and the time to wait before the next one is not over.
    Backoff,
    /// It is being issued, and there is no next private key.
    Key,
    /// Its next request is neither approved nor denied.
    Unapproved,
    /// Its next request is issued, and the Secret of the name that it gives holds a next private key itself.
    Name,
    /// Its next request is approved, and its issuer has not answered or is not ready.
    Pending,
}

/// A Certificate that is not Ready, and what it waits for.
pub struct Waiting {
    pub certificate: Key,
    pub wait: WaitName,
}

impl Drop for Waiting {
    fn drop(self) {
        let Waiting {
            certificate: _certificate,
            wait: _wait,
        } = self;
    }
}

/// Certificates that are not Ready, with what they wait for, in order of key.
pub struct Waits {
    items: Vec<Waiting>,
}

impl Drop for Waits {
    fn drop(self) {
        let Waits { items: _items } = self;
    }
}

impl Waiting {
    /// An equal one.
    pub fn copy(&self) -> Result<Waiting, AllocError>
        ensures { IfOk result (λ w. w ≡ self.now) }
    {
        Ok(Waiting {
            certificate: self.certificate.copy()?,
            wait: self.wait,
        })
    }
}

impl Model for Waits {
    ghost use Rattle.std.specs.Prelude.{List};
    ghost use Rattle.cmc_summary.specs.declared.summary.Waiting.{Waiting};

    ghost Value = { List Waiting };

    ghost view = { λ w. w.items.items };
}

impl Waits {
    /// No Certificates. It takes no memory.
    pub fn new(alloc: Global) -> Waits
        ensures { result ≡ [] }
    {
        Waits {
            items: Vec::new(alloc),
        }
    }

    /// Adds a Certificate at the end.
    pub fn push(&mut self, waiting: Waiting) -> Result<(), AllocError>
        ensures ok { OnOk result (self.new ≡ self.old ++ waiting ∷ []) }
        ensures err { OnErr result (self.new ≡ self.old) }
    {
        self.items.push(waiting)?;
        Ok(())
    }

    /// The Certificates, as a slice.
    pub fn as_slice(&self) -> &[Waiting]
        ensures { result.now ≡ self.now }
    {
        self.items.as_slice()
    }

    /// Equal Certificates.
    pub fn copy(&self) -> Result<Waits, AllocError>
        ensures { IfOk result (λ w. w ≡ self.now) }
    {
        Ok(Waits {
            items: copy_waits(*self.items.allocator(), self.items.as_slice())?,
        })
    }
}

fn copy_waits(alloc: Global, waits: &[Waiting]) -> Result<Vec<Waiting>, AllocError>
    ensures { IfOk result (λ v. v.items ≡ waits.now) }
{
    let mut items = Vec::new(alloc);
    for waiting in waits {
        items.push(waiting.copy()?)?;
    }
    Ok(items)
}

/// What stands at the end of a run.
pub struct Summary {
    /// How many Certificates exist.
    pub certificates: u64,
    /// How many of them are Ready.
    pub ready: u64,
    /// How many Secrets exist.
    pub secrets: u64,
    /// Those that are not Ready, with what they wait for.
    pub waiting: Waits,
}

impl Drop for Summary {
    fn drop(self) {
        let Summary {
            certificates: _certificates,
            ready: _ready,
            secrets: _secrets,
            waiting: _waiting,
        } = self;
    }
}
