//! The examination of one object.
ghost use Rattle.std.specs.Prelude.{◌≡◌, ◌+◌, ◌<◌, ◌^◌, IfOk};
ghost use Rattle.cmc_collector.specs.Examinations as spec;
ghost use Rattle.cmc_objects.specs.Objects.{version_of};

use cmc_meta::OwnerRef;
use cmc_objects::{Object, Reply};
use std::alloc::AllocError;

/// The object as the cache had it when the examination began, and how many of its owners were looked for since.
pub(crate) struct Examination {
    pub(crate) object: Object,
    pub(crate) next: u64,
}

impl Drop for Examination {
    fn drop(self) {
        let Examination {
            object: _object,
            next: _next,
        } = self;
    }
}

impl Examination {
    pub(crate) fn copy(&self) -> Result<Examination, AllocError>
        ensures { IfOk result (λ x. x ≡ self.now) }
    {
        Ok(Examination {
            object: self.object.copy()?,
            next: self.next,
        })
    }

    pub(crate) fn version(&self) -> u64
        ensures { result ≡ version_of self.now.object }
    {
        self.object.meta().version
    }

    /// A copy of the owner that is looked for next; `None` where each was looked for.
    pub(crate) fn copy_next_owner(&self) -> Result<Option<OwnerRef>, AllocError>
        ensures { IfOk result (λ owner. owner ≡ spec.next_owner self.now) }
    {
        match self.object.meta().owners.as_slice().get(self.next as usize) {
            Some(owner) => Ok(Some(owner.copy()?)),
            None => Ok(None),
        }
    }

    /// The examination after a look for its next owner that was answered with `reply`.
    pub(crate) fn after(self, owner: &OwnerRef, reply: &Reply) -> Option<Examination>
        requires { spec.next_owner self ≡ Some owner.now }
        ensures { result ≡ spec.examined_after owner.now reply.now self }
    {
        if finds(owner, reply) || is_unavailable(reply) {
            return None;
        }
        let _owners = self.object.meta().owners.as_slice().len();
        let Examination { object, next } = self;
        Some(Examination {
            object,
            next: next + 1,
        })
    }
}

fn finds(owner: &OwnerRef, reply: &Reply) -> bool
    ensures { result ≡ spec.finds_owner owner.now reply.now }
{
    match reply {
        Reply::Found { object } => object.meta().uid == owner.uid,
        _ => false,
    }
}

fn is_unavailable(reply: &Reply) -> bool
    ensures { result ≡ spec.is_unavailable reply.now }
{
    matches!(reply, Reply::Unavailable { .. })
}
