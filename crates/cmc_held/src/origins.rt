//! Where the passes come from.
ghost use Rattle.std.specs.Prelude.{◌≡◌, ◌+◌, ◌-◌, ◌<◌, ◌≤◌, ◌∷◌, [], OnOk, length, slice_get};
ghost use Rattle.cmc_rules.specs.Origins.{origin_at};

use cmc_rules::Origin;
use std::alloc::{AllocError, Global};
use std::marker::Model;

/// The origins of the passes, numbered from 1 as the passes began, and room for more of them.
/// Contracts see the list of the origins, that of the newest pass first, and the number of origins
/// for which there is room already.
pub struct Origins {
    /// The origins, the oldest first: that of pass n is the nth.
    items: Vec<Origin>,
}

impl Drop for Origins {
    fn drop(self) {
        let Origins { items: _items } = self;
    }
}

impl Model for Origins {
    ghost use Rattle.std.specs.Prelude.{◌-◌, reverse, vec_len, vec_capacity};
    ghost use Rattle.cmc_held.specs.Came.{Came};

    ghost Value = { Came };

    ghost view = { λ o. record { origins = reverse o.items.items; spare = vec_capacity o.items - vec_len o.items } };
}

impl Origins {
    /// No origins. It takes no memory.
    pub fn new(alloc: Global) -> Origins
        ensures { result.origins ≡ [] }
    {
        Origins {
            items: Vec::new(alloc),
        }
    }

    /// Makes room for so many more origins, and changes nothing else; room that exists is kept. An error is one of memory.
    pub fn reserve(&mut self, more: u64) -> Result<(), AllocError>
        ensures room { OnOk result (more ≤ self.new.spare) }
        ensures kept { self.old.spare ≤ self.new.spare }
        ensures same { self.new.origins ≡ self.old.origins }
    {
        self.items.reserve(more as usize)
    }

    /// Adds the origin of the newest pass. It takes no memory.
    pub fn push(&mut self, origin: Origin)
        requires { 0 < self.old.spare }
        ensures origins { self.new.origins ≡ origin ∷ self.old.origins }
        ensures spare { self.old.spare ≤ self.new.spare + 1 }
    {
        self.items.push(origin).unwrap();
    }

    /// How many passes have begun.
    pub fn len(&self) -> u64
        ensures { result ≡ length self.now.origins }
    {
        self.items.len() as u64
    }

    /// The origin of the pass of this number; `None` exactly where no such pass has begun.
    pub fn get(&self, number: u64) -> Option<Origin>
        ensures { result ≡ origin_at number self.now.origins }
    {
        if number == 0 {
            return None;
        }
        origin_in(&self.items, number - 1)
    }
}

fn origin_in(items: &[Origin], place: u64) -> Option<Origin>
    ensures { result ≡ slice_get items.now place }
{
    items.get(place as usize).copied()
}
