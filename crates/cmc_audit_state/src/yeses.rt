//! The versions that a pass was told to approve.
ghost use Rattle.std.specs.Prelude.{◌≡◌, ◌||◌, IfOk, OnOk, OnErr, false};
ghost use Rattle.cmc_audit_state.specs.declared.row.Version.{Version as VersionValue};
ghost use Rattle.cmc_audit_state.specs.Heard.{is_same_version, has_yes_on};

use crate::row::Version;
use cmc_meta::Key;
use std::alloc::{AllocError, Global};
use std::collections::BTreeSet;
use std::marker::Model;

/// Versions that may be approved; contracts see the list of their numbers and keys.
pub struct Yeses {
    set: BTreeSet<(u64, Key)>,
}

impl Drop for Yeses {
    fn drop(self) {
        let Yeses { set: _set } = self;
    }
}

impl Model for Yeses {
    ghost use Rattle.std.specs.Prelude.{ℕ, List};
    ghost use Rattle.cmc_meta.specs.declared.key.Key.{Key};

    ghost Value = { List (ℕ × Key) };

    ghost view = { λ y. y.set.keys };
}

impl Yeses {
    /// No version. It takes no memory.
    #[tactic(auto, unfolding(crate::specs::Heard::has_yes_on))]
    pub fn new(alloc: Global) -> Yeses
        ensures { (v : VersionValue) → has_yes_on result v ≡ false }
    {
        Yeses {
            set: BTreeSet::new(alloc),
        }
    }

    /// Whether the version is one of these. An error is one of memory.
    #[tactic(auto, unfolding(crate::specs::Heard::has_yes_on))]
    pub fn has(&self, key: &Key, number: u64) -> Result<bool, AllocError>
        ensures { IfOk result (λ is. is ≡ has_yes_on self.now (record { key = key.now; number = number })) }
    {
        let wanted = (number, key.copy()?);
        Ok(self.set.contains(&wanted))
    }

    /// Adds the version. An error is one of memory, and leaves all as it was.
    #[tactic(auto, unfolding(crate::specs::Heard::has_yes_on))]
    pub fn add(&mut self, version: Version) -> Result<(), AllocError>
        ensures ok { OnOk result ((v : VersionValue) → has_yes_on self.new v ≡ (is_same_version version v || has_yes_on self.old v)) }
        ensures err { OnErr result (self.new ≡ self.old) }
    {
        self.set.insert(version.into_parts())?;
        Ok(())
    }
}
