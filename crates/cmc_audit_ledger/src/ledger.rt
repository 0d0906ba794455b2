//! What is kept of the entries so far, and how it goes on with each kind of entry.
ghost use Rattle.std.specs.Prelude.{◌≡◌, ◌+◌, ◌-◌, ◌<◌, ◌≤◌, ◌^◌, ℕ, ℤ, List, ◌∷◌, [], Option, IfOk, OnOk, true};
ghost use Rattle.cmc_meta.specs.declared.key.Key.{Key as KeyValue};
ghost use Rattle.cmc_objects.specs.declared.entry.Cause.{Cause as CauseValue};
ghost use Rattle.cmc_objects.specs.declared.entry.Entry.{Entry as EntryValue};
ghost use Rattle.cmc_objects.specs.declared.entry.Entry.TheVariants as entries;
ghost use Rattle.cmc_objects.specs.declared.entry.Positions.{Positions as PositionsValue};
ghost use Rattle.cmc_objects.specs.declared.orders.Order.{Order as OrderValue};
ghost use Rattle.cmc_objects.specs.Requests.{is_run_time};
ghost use Rattle.cmc_model.specs.Histories.{Setting};
ghost use Rattle.cmc_audit_state.specs.Heard.{judged_version};
ghost use Rattle.cmc_audit_state.specs.OpenRows.{IsOn};
ghost use Rattle.cmc_audit_ledger.specs.Ledgers.{IsLedgerOf};
ghost use Rattle.cmc_audit_ledger.specs.EntryCounts.{entry_counted};

use crate::starting::{first_row, started, stopped, told};
use cmc_audit_state::{Journal, Passes, Standings, Version};
use cmc_meta::{Key, Kind};
use cmc_objects::Role;
use cmc_store::Store;
use std::alloc::{AllocError, Global};

/// What is kept of the entries so far.
pub struct Ledger {
    pub store: Store,
    pub journal: Journal,
    pub standings: Standings,
    pub passes: Passes,
    /// The present moment, in seconds since 1970-01-01T00:00:00Z.
    pub moment: i64,
    /// Over how many accepted writes a watch reaches back.
    pub window: u64,
    /// How many entries there were.
    pub entries: u64,
}

impl Drop for Ledger {
    fn drop(self) {
        let Ledger {
            store: _store,
            journal: _journal,
            standings: _standings,
            passes: _passes,
            moment: _moment,
            window: _window,
            entries: _entries,
        } = self;
    }
}

impl Ledger {
    /// An entry of which nothing is kept but that there was one. It takes no memory.
    pub fn count(&mut self)
        requires { self.old.entries < 2 ^ 64 - 1 }
        ensures { self.new ≡ entry_counted self.old }
    {
        self.entries += 1;
    }

    /// The moment rises to this one. It takes no memory.
    pub fn tick(&mut self, now: i64)
        requires room { self.old.entries < 2 ^ 64 - 1 }
        requires in_run { is_run_time now ≡ true }
        ensures follows { (s : Setting) (h : List EntryValue) → IsLedgerOf s h self.old → IsLedgerOf s (entries.Tick now ∷ h) self.new }
        ensures count { self.new.entries ≡ self.old.entries + 1 }
    {
        self.moment = now;
        self.entries += 1;
    }

    /// The role is told of the kind up to this version, by a delivery or by a list. It takes no memory.
    pub fn tell(&mut self, role: Role, kind: Kind, to: u64)
        requires room { self.old.entries < 2 ^ 64 - 1 }
        ensures delivered { (s : Setting) (h : List EntryValue) → IsLedgerOf s h self.old → IsLedgerOf s (entries.Deliver role kind to ∷ h) self.new }
        ensures listed { (s : Setting) (h : List EntryValue) → IsLedgerOf s h self.old → IsLedgerOf s (entries.List role kind to ∷ h) self.new }
        ensures count { self.new.entries ≡ self.old.entries + 1 }
    {
        told(&mut self.standings, role, kind, to);
        self.entries += 1;
    }

    /// The role starts anew, told of all kinds up to this version. It takes no memory.
    pub fn start(&mut self, role: Role, at: u64)
        requires room { self.old.entries < 2 ^ 64 - 1 }
        ensures follows { (s : Setting) (h : List EntryValue) → IsLedgerOf s h self.old → IsLedgerOf s (entries.Start role at ∷ h) self.new }
        ensures count { self.new.entries ≡ self.old.entries + 1 }
    {
        started(&mut self.standings, role, at);
        self.entries += 1;
    }

    /// The role stops, and its open passes end with it. It takes no memory.
    pub fn stop(&mut self, role: Role)
        requires room { self.old.entries < 2 ^ 64 - 1 }
        ensures follows { (s : Setting) (h : List EntryValue) → IsLedgerOf s h self.old → IsLedgerOf s (entries.Stop role ∷ h) self.new }
        ensures count { self.new.entries ≡ self.old.entries + 1 }
    {
        stopped(&mut self.standings, role);
        self.passes.stop(role);
        self.entries += 1;
    }

    /// The next pass begins, of the role on the key. An error is one of memory.
    pub fn begin(&mut self, alloc: Global, role: Role, key: &Key) -> Result<(), AllocError>
        requires room { self.old.entries < 2 ^ 64 - 1 }
        requires begun { self.old.passes.begun ≤ self.old.entries }
        requires free { IsOn self.old.passes role key.now → ⊥ }
        ensures follows { OnOk result ((s : Setting) (h : List EntryValue) (pass : ℕ) (at : PositionsValue) (now : ℤ) → pass ≡ self.old.passes.begun + 1 → now ≡ self.old.moment → IsLedgerOf s h self.old → IsLedgerOf s (entries.Begin pass role key.now at now ∷ h) self.new) }
        ensures count { OnOk result (self.new.entries ≡ self.old.entries + 1) }
    {
        let row = first_row(
            alloc,
            self.standings.get(role),
            self.journal.accepted(),
            self.moment,
            role,
            key,
        )?;
        self.passes.begin(row)?;
        self.entries += 1;
        Ok(())
    }

    /// The pass asks this, whether to approve a version or something else. It takes no memory.
    pub fn ask(&mut self, pass: u64, asked: Option<Version>)
        requires room { self.old.entries < 2 ^ 64 - 1 }
        ensures follows { (s : Setting) (h : List EntryValue) (order : OrderValue) → judged_version order ≡ asked → pass ≤ self.old.passes.begun → IsLedgerOf s h self.old → IsLedgerOf s (entries.Ask pass order ∷ h) self.new }
        ensures count { self.new.entries ≡ self.old.entries + 1 }
    {
        self.passes.note_asked(pass, asked);
        self.entries += 1;
    }

    /// The pass is told yes. An error is one of memory.
    pub fn approve(&mut self, pass: u64) -> Result<(), AllocError>
        requires { self.old.entries < 2 ^ 64 - 1 }
        ensures follows { OnOk result ((s : Setting) (h : List EntryValue) → pass ≤ self.old.passes.begun → IsLedgerOf s h self.old → IsLedgerOf s (entries.Judged pass true ∷ h) self.new) }
        ensures count { OnOk result (self.new.entries ≡ self.old.entries + 1) }
    {
        self.passes.note_yes(pass)?;
        self.entries += 1;
        Ok(())
    }

    /// The pass ends. It takes no memory.
    pub fn end(&mut self, pass: u64)
        requires room { self.old.entries < 2 ^ 64 - 1 }
        ensures follows { (s : Setting) (h : List EntryValue) (cause : CauseValue) → IsLedgerOf s h self.old → IsLedgerOf s (entries.End pass cause ∷ h) self.new }
        ensures count { self.new.entries ≡ self.old.entries + 1 }
    {
        self.passes.close(pass);
        self.entries += 1;
    }
}
