//! Where an entry may stand.
ghost use Rattle.std.specs.Prelude.{◌≡◌, ◌↔◌, ◌+◌, ◌-◌, ◌<◌, ◌≤◌, ◌^◌, List, length, IfOk, IsTrue, true, if◌then◌else◌};
ghost use Rattle.cmc_objects.specs.declared.entry.Entry.{Entry as EntryValue};
ghost use Rattle.cmc_objects.specs.Requests as requests;
ghost use Rattle.cmc_objects.specs.Informers as tables;
ghost use Rattle.cmc_model.specs.Histories.{Setting};
ghost use Rattle.cmc_rules.specs.Legality.{IsBegin, IsCaller, IsDelivery, IsListing, IsOpen};
ghost use Rattle.cmc_rules.specs.Passes.{open_pass};
ghost use Rattle.cmc_rules.specs.Positions.{position_of};
ghost use Rattle.cmc_audit_state.specs.OpenRows.{IsOn};
ghost use Rattle.cmc_audit_state.specs.Standings.{standing_of};
ghost use Rattle.cmc_audit_ledger.specs.CallRows.{HasBegun};
ghost use Rattle.cmc_audit_ledger.specs.Ledgers.{IsLedgerOf};
ghost use Rattle.cmc_audit_ledger.specs.Positions as words;
ghost use Rattle.cmc_audit_ledger.specs.Positions.{IsBeyond, IsNext, IsTick, HasRunningInformer, IsInWindow};

use crate::ledger::Ledger;
use cmc_audit_state::at_kind;
use cmc_meta::{Key, Kind};
use cmc_objects::{Positions, Role, Who, has_informer, kind_of_work};
use std::alloc::AllocError;

impl Ledger {
    /// Whether the pass is open.
    pub fn is_open(&self, pass: u64) -> bool
        ensures means { (s : Setting) (h : List EntryValue) → IsLedgerOf s h self.now → IsTrue result ↔ IsOpen (open_pass s h pass) }
        ensures begun { IsTrue result → pass ≤ self.now.passes.begun }
    {
        self.passes.get(pass).is_some()
    }

    /// Whether a call may be made: by a user at any time, by a pass while it is open.
    pub fn may_call(&self, who: Who) -> bool
        ensures means { (s : Setting) (h : List EntryValue) → IsLedgerOf s h self.now → IsTrue result ↔ IsCaller s h who }
        ensures begun { IsTrue result → HasBegun self.now.passes.begun who }
    {
        match who {
            Who::User => true,
            Who::Pass(pass) => self.is_open(pass),
        }
    }

    fn is_told_of(&self, role: Role, kind: Kind) -> bool
        ensures { IsTrue result ↔ HasRunningInformer self.now role kind }
    {
        self.standings.get(role).running && has_informer(role, kind)
    }

    fn position(&self, role: Role, kind: Kind) -> u64
        ensures { result ≡ position_of kind (standing_of self.now.standings role).told }
    {
        at_kind(self.standings.get(role).told, kind)
    }

    /// How many writes beyond the position of the role there are, 0 where there is none.
    fn behind(&self, role: Role, kind: Kind) -> u64
        ensures { result ≡ length self.now.journal - position_of kind (standing_of self.now.standings role).told }
    {
        self.journal
            .accepted()
            .saturating_sub(self.position(role, kind))
    }

    fn is_within(&self, role: Role, kind: Kind, to: u64) -> bool
        ensures { IsTrue result ↔ IsInWindow self.now role kind to }
    {
        self.position(role, kind) < to
            && self.journal.is_of_kind(to, kind)
            && self.behind(role, kind) <= self.window
    }

    fn is_beyond(&self, role: Role, kind: Kind, to: u64) -> bool
        ensures { IsTrue result ↔ IsBeyond self.now role kind to }
    {
        self.window < self.behind(role, kind) && to == self.journal.accepted()
    }

    /// Whether the role may be told of the kind up to this version by a delivery.
    pub fn may_deliver(&self, role: Role, kind: Kind, to: u64) -> bool
        ensures { (s : Setting) (h : List EntryValue) → IsLedgerOf s h self.now → IsTrue result ↔ IsDelivery s h role kind to }
    {
        self.is_told_of(role, kind) && self.is_within(role, kind, to)
    }

    /// Whether the role may list the kind as it stands after this version.
    pub fn may_list(&self, role: Role, kind: Kind, to: u64) -> bool
        ensures { (s : Setting) (h : List EntryValue) → IsLedgerOf s h self.now → IsTrue result ↔ IsListing s h role kind to }
    {
        self.is_told_of(role, kind) && self.is_beyond(role, kind, to)
    }

    /// Whether the moment may rise to this one.
    pub fn may_tick(&self, now: i64) -> bool
        ensures means { (s : Setting) (h : List EntryValue) → IsLedgerOf s h self.now → IsTrue result ↔ IsTick s h now }
        ensures in_run { IsTrue result → requests.is_run_time now ≡ true }
    {
        self.moment < now && is_run_time(now)
    }

    /// Whether the pass of this number may begin. An error is one of memory.
    pub fn may_begin(
        &self,
        pass: u64,
        role: Role,
        key: &Key,
        at: Positions,
        now: i64,
    ) -> Result<bool, AllocError>
        requires { self.now.passes.begun + 1 < 2 ^ 64 }
        ensures means { IfOk result (λ may. (s : Setting) (h : List EntryValue) → IsLedgerOf s h self.now → IsTrue may ↔ IsBegin s h pass role key.now at now) }
        ensures free { IfOk result (λ may. IsTrue may → IsOn self.now.passes role key.now → ⊥) }
    {
        if !self.is_first(pass, role, key, at, now) {
            return Ok(false);
        }
        Ok(!self.passes.is_on(role, key)?)
    }

    /// Whether the pass would be the next, of a role that runs, on a key of its work that is known, at its positions and the
    /// present moment.
    fn is_first(&self, pass: u64, role: Role, key: &Key, at: Positions, now: i64) -> bool
        requires { self.now.passes.begun + 1 < 2 ^ 64 }
        ensures { IsTrue result ↔ IsNext self.now pass role key.now at now }
    {
        self.standings.get(role).running
            && pass == self.passes.begun() + 1
            && key.kind.same(kind_of_work(role))
            && self.journal.knows(key)
            && same_positions(at, shown_told(role, self.standings.get(role).told))
            && now == self.moment
    }
}

/// The positions of the kinds that the role is told of, and 0 of each other kind.
fn shown_told(role: Role, told: Positions) -> Positions
    ensures { result ≡ words.shown_told role told }
{
    Positions {
        certificates: shown(role, Kind::Certificate, told.certificates),
        requests: shown(role, Kind::CertificateRequest, told.requests),
        secrets: shown(role, Kind::Secret, told.secrets),
    }
}

fn shown(role: Role, kind: Kind, told: u64) -> u64
    ensures { result ≡ (if tables.has_informer role kind then told else 0) }
{
    if has_informer(role, kind) { told } else { 0 }
}

fn same_positions(a: Positions, b: Positions) -> bool
    ensures { IsTrue result ↔ (a ≡ b) }
{
    a.certificates == b.certificates && a.requests == b.requests && a.secrets == b.secrets
}

/// Whether the moment lies where those of runs do: from 1951-01-01T00:00:00Z to 9900-01-01T00:00:00Z.
fn is_run_time(at: i64) -> bool
    ensures { result ≡ requests.is_run_time at }
{
    -599_616_000 <= at && at <= 250_246_627_200
}
