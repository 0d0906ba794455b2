//! What a call and its reply leave.
ghost use Rattle.std.specs.Option.{option_copied};
ghost use Rattle.std.specs.Prelude.{◌≡◌, ◌&&◌, ◌+◌, ◌-◌, ◌<◌, ◌^◌, List, ◌∷◌, OnOk, if◌then◌else◌};
ghost use Rattle.cmc_meta.specs.declared.key.Kind.TheVariants as kinds;
ghost use Rattle.cmc_objects.specs.declared.entry.Entry.{Entry as EntryValue};
ghost use Rattle.cmc_objects.specs.declared.entry.Entry.TheVariants as entries;
ghost use Rattle.cmc_model.specs.Histories.{Setting};
ghost use Rattle.cmc_rules.specs.Views as seen;
ghost use Rattle.cmc_audit_state.specs.Heard as heard;
ghost use Rattle.cmc_audit_state.specs.Journaled.{cached};
ghost use Rattle.cmc_audit_state.specs.OpenRows.{open_row_at};
ghost use Rattle.cmc_audit_ledger.specs.declared.ledger.Ledger.{Ledger as LedgerValue};
ghost use Rattle.cmc_audit_ledger.specs.CallRows.{HasBegun, IsServedBy, ReadsBy, ReadsSeen, RowsNoted, writes_over};
ghost use Rattle.cmc_audit_ledger.specs.Ledgers.{IsLedgerOf};

use crate::ledger::Ledger;
use cmc_audit_state::{Journal, Passes, Row};
use cmc_match::is_temporary;
use cmc_meta::{Key, Kind};
use cmc_model::Write;
use cmc_objects::{Call, Certificate, CertificateRequest, Object, Reply, Shared, Who};
use cmc_seed::HashSeed;
use std::alloc::{AllocError, Global};
use std::mem;

/// Whether the call is a Get that found a Certificate of this version.
fn finds(version: u64, call: &Call, reply: &Reply) -> bool
    ensures { result ≡ heard.finds version call.now reply.now }
{
    match (call, reply) {
        (
            Call::Get { .. },
            Reply::Found {
                object: Object::Cert(certificate),
            },
        ) => certificate.meta.version == version,
        _ => false,
    }
}

fn is_lasting(object: &Object) -> bool
    ensures { result ≡ heard.is_lasting object.now }
{
    match object {
        Object::Secret(secret) => !is_temporary(secret),
        _ => false,
    }
}

fn writes_lasting(call: &Call) -> bool
    ensures { result ≡ heard.writes_lasting call.now }
{
    match call {
        Call::Create { object, .. } => is_lasting(object),
        Call::Update { object, .. } => is_lasting(object),
        _ => false,
    }
}

fn is_served(reply: &Reply) -> bool
    ensures { result ≡ heard.is_served reply.now }
{
    matches!(reply, Reply::Ok { .. } | Reply::Unchanged { .. })
}

/// Whether the call writes a Secret that is not marked as temporary, and was answered Ok or Unchanged.
fn saves(call: &Call, reply: &Reply) -> bool
    ensures { result ≡ (heard.writes_lasting call.now && heard.is_served reply.now) }
{
    writes_lasting(call) && is_served(reply)
}

/// The Certificate that the pass saw, of a role that works on Certificates.
pub fn certificate_seen<'a>(journal: &'a Journal, row: &Row) -> Option<&'a Shared<Certificate>>
    ensures { option_copied result ≡ seen.certificate_at (cached kinds.Certificate journal.now row.now.reach.certificates) row.now.key }
{
    match journal.cached(Kind::Certificate, &row.key, row.reach.certificates) {
        Some(Object::Cert(certificate)) => Some(certificate),
        _ => None,
    }
}

/// The request that the pass saw, of a role that works on requests.
pub fn request_seen<'a>(journal: &'a Journal, row: &Row) -> Option<&'a Shared<CertificateRequest>>
    ensures { option_copied result ≡ seen.request_at (cached kinds.CertificateRequest journal.now row.now.reach.requests) row.now.key }
{
    match journal.cached(Kind::CertificateRequest, &row.key, row.reach.requests) {
        Some(Object::Request(request)) => Some(request),
        _ => None,
    }
}

/// Whether what was found is the Certificate that the pass saw.
fn reads_seen(journal: &Journal, row: Option<&Row>, call: &Call, reply: &Reply) -> bool
    ensures { ReadsSeen journal.now (option_copied row.entry) call.now reply.now result }
{
    match row {
        None => false,
        Some(row) => match certificate_seen(journal, row) {
            Some(certificate) => finds(certificate.meta.version, call, reply),
            None => false,
        },
    }
}

fn reads(journal: &Journal, passes: &Passes, who: Who, call: &Call, reply: &Reply) -> bool
    ensures { ReadsBy journal.now passes.now who call.now reply.now result }
{
    match who {
        Who::User => false,
        Who::Pass(pass) => reads_seen(journal, passes.get(pass), call, reply),
    }
}

/// What the call of a pass leaves of its row. It takes no memory.
fn note(passes: &mut Passes, who: Who, reads: bool, saves: bool)
    ensures begun { passes.new.begun ≡ passes.old.begun }
    ensures rows { RowsNoted passes.old passes.new who reads saves }
{
    let Who::Pass(pass) = who else {
        return;
    };
    if reads {
        passes.note_read(pass);
    }
    if saves {
        passes.note_saved(pass);
    }
}

/// The accepted write is the newest. An error is one of memory, and then nothing is kept.
fn add(
    alloc: Global,
    journal: &mut Journal,
    key: Option<Key>,
    object: Option<Object>,
) -> Result<(), AllocError>
    ensures { OnOk result (journal.new ≡ writes_over journal.old key object) }
{
    let Some(key) = key else {
        return Ok(());
    };
    // (this one is there only until the other is back)
    let none = Journal::new(alloc, HashSeed::fixed());
    let older = mem::replace(journal, none);
    *journal = older.with(alloc, Write { key, object })?;
    Ok(())
}

impl Ledger {
    /// Takes in a call that the store has answered so: what it accepted, under which key, and what then is there. An
    /// error is one of memory, and then what is kept is of no history.
    pub fn take_in(
        &mut self,
        alloc: Global,
        who: Who,
        call: &Call,
        reply: &Reply,
        key: Option<Key>,
        object: Option<Object>,
    ) -> Result<(), AllocError>
        requires { self.old.entries < 2 ^ 64 - 1 }
        ensures follows { OnOk result ((s : Setting) (h : List EntryValue) (before : LedgerValue) → IsServedBy before self.old call.now reply.now key object → HasBegun before.passes.begun who → IsLedgerOf s h before → IsLedgerOf s (entries.Call who call.now reply.now ∷ h) self.new) }
        ensures count { OnOk result (self.new.entries ≡ self.old.entries + 1) }
    {
        let reads = reads(&self.journal, &self.passes, who, call, reply);
        note(&mut self.passes, who, reads, saves(call, reply));
        add(alloc, &mut self.journal, key, object)?;
        self.entries += 1;
        Ok(())
    }
}
