//! The passes that are open.
ghost use Rattle.std.specs.Option.{option_copied};
ghost use Rattle.std.specs.Prelude.{◌≡◌, ◌==◌, ◌+◌, ◌<◌, ◌≤◌, ◌^◌, ◌↔◌, ℕ, IfOk, IfSome, IsTrue, None, OnErr, OnOk, Some, if◌then◌else◌, option_map};
ghost use Rattle.cmc_audit_state.specs.OpenRows.{IsOn, IsToldAt, IsToldMore, is_row_of, open_row_at, row_numbered, unless_role, with_asked, with_read, with_saved};

use crate::row::{Row, Version};
use cmc_meta::Key;
use cmc_objects::Role;
use std::alloc::{AllocError, Global};
use std::collections::BTreeMap;
use std::marker::Model;

/// The passes that are open, under their numbers, and how many began. Contracts see both.
pub struct Passes {
    begun: u64,
    /// A pass stands under its number from its begin to its end, or to the stop of its role.
    rows: BTreeMap<u64, Row>,
    /// The number of the last pass of each role on each key.
    numbers: BTreeMap<(u8, Key), u64>,
}

impl Drop for Passes {
    fn drop(self) {
        let Passes {
            begun: _begun,
            rows: _rows,
            numbers: _numbers,
        } = self;
    }
}

impl Model for Passes {
    ghost use Rattle.cmc_audit_state.specs.OpenRows.{IsFiled, Opened};

    ghost Value = { Opened };

    ghost view = { λ p. record { begun = p.begun; rows = p.rows.entries } };

    ghost invariant = { λ p. IsFiled p.begun p.rows.entries p.numbers.entries };
}

impl Passes {
    /// No pass. It takes no memory.
    #[tactic(auto, unfolding(crate::specs::OpenRows::row_numbered))]
    pub fn new(alloc: Global) -> Passes
        ensures begun { result.begun ≡ 0 }
        ensures none { (n : ℕ) → open_row_at result n ≡ None }
    {
        Passes {
            begun: 0,
            rows: BTreeMap::new(alloc),
            numbers: BTreeMap::new(alloc),
        }
    }

    /// How many passes began.
    pub fn begun(&self) -> u64
        ensures { result ≡ self.now.begun }
    {
        self.begun
    }

    /// The pass of this number; `None` exactly where it is not open.
    #[tactic(auto, unfolding(crate::specs::OpenRows::row_numbered))]
    pub fn get(&self, number: u64) -> Option<&Row>
        ensures row { option_copied result ≡ open_row_at self.now number }
        ensures low { IfSome result (λ row. number ≤ self.now.begun) }
    {
        self.rows.get(&number)
    }

    /// Whether a pass of the role on the key is open. An error is one of memory.
    #[tactic(auto, unfolding(crate::specs::OpenRows::row_numbered))]
    pub fn is_on(&self, role: Role, key: &Key) -> Result<bool, AllocError>
        ensures { IfOk result (λ is. IsTrue is ↔ IsOn self.now role key.now) }
    {
        let task = (role.rank(), key.copy()?);
        match self.numbers.get(&task) {
            Some(number) => Ok(is_number_on(&self.rows, *number, role, key)),
            None => Ok(false),
        }
    }

    /// Opens a pass under the next number, and changes no other. An error is one of memory, and leaves all passes as they
    /// were.
    #[tactic(auto, unfolding(crate::specs::OpenRows::row_numbered))]
    pub fn begin(&mut self, row: Row) -> Result<(), AllocError>
        requires free { IsOn self.old row.role row.key → ⊥ }
        requires room { self.old.begun + 1 < 2 ^ 64 }
        ensures begun { OnOk result (self.new.begun ≡ self.old.begun + 1) }
        ensures rows { OnOk result ((n : ℕ) → open_row_at self.new n ≡ (if n == self.old.begun + 1 then Some row else open_row_at self.old n)) }
        ensures err { OnErr result (self.new ≡ self.old) }
    {
        let number = self.begun + 1;
        let task = (row.role.rank(), row.key.copy()?);
        self.numbers.insert(task, number)?;
        self.rows.insert(number, row)?;
        self.begun = number;
        Ok(())
    }

    /// The pass of this number is no longer open. It takes no memory.
    #[tactic(auto, unfolding(crate::specs::OpenRows::row_numbered))]
    pub fn close(&mut self, number: u64)
        ensures begun { self.new.begun ≡ self.old.begun }
        ensures rows { (n : ℕ) → open_row_at self.new n ≡ (if n == number then None else open_row_at self.old n) }
    {
        let _ = self.rows.remove(&number);
    }

    /// No pass of the role is open any more. It takes no memory.
    #[tactic(auto, unfolding(crate::specs::OpenRows::row_numbered))]
    pub fn stop(&mut self, role: Role)
        ensures begun { self.new.begun ≡ self.old.begun }
        ensures rows { (n : ℕ) → open_row_at self.new n ≡ unless_role role (open_row_at self.old n) }
    {
        self.rows
            .retain(|_number, row| role.rank() != row.role.rank());
    }

    /// The pass of this number, where it is open, has read its Certificate. It takes no memory.
    #[tactic(auto, unfolding(crate::specs::OpenRows::row_numbered))]
    pub fn note_read(&mut self, number: u64)
        ensures begun { self.new.begun ≡ self.old.begun }
        ensures rows { (n : ℕ) → open_row_at self.new n ≡ (if n == number then option_map with_read (open_row_at self.old n) else open_row_at self.old n) }
    {
        if let Some(row) = self.rows.get_mut(&number) {
            read(row);
        }
    }

    /// The pass of this number, where it is open, has saved a Secret. It takes no memory.
    #[tactic(auto, unfolding(crate::specs::OpenRows::row_numbered))]
    pub fn note_saved(&mut self, number: u64)
        ensures begun { self.new.begun ≡ self.old.begun }
        ensures rows { (n : ℕ) → open_row_at self.new n ≡ (if n == number then option_map with_saved (open_row_at self.old n) else open_row_at self.old n) }
    {
        if let Some(row) = self.rows.get_mut(&number) {
            save(row);
        }
    }

    /// The pass of this number, where it is open, has asked this last. It takes no memory.
    #[tactic(auto, unfolding(crate::specs::OpenRows::row_numbered))]
    pub fn note_asked(&mut self, number: u64, asked: Option<Version>)
        ensures begun { self.new.begun ≡ self.old.begun }
        ensures rows { (n : ℕ) → open_row_at self.new n ≡ (if n == number then option_map (with_asked asked) (open_row_at self.old n) else open_row_at self.old n) }
    {
        if let Some(row) = self.rows.get_mut(&number) {
            ask(row, asked);
        }
    }

    /// The pass of this number, where it is open, was told yes. An error is one of memory.
    #[tactic(auto, unfolding(crate::specs::OpenRows::row_numbered))]
    pub fn note_yes(&mut self, number: u64) -> Result<(), AllocError>
        ensures begun { OnOk result (self.new.begun ≡ self.old.begun) }
        ensures rows { OnOk result ((n : ℕ) → IsToldAt (n == number) (open_row_at self.old n) (open_row_at self.new n)) }
    {
        if let Some(row) = self.rows.get_mut(&number) {
            return approve(row);
        }
        Ok(())
    }
}

#[tactic(auto, unfolding(crate::specs::OpenRows::row_numbered))]
fn is_number_on(rows: &BTreeMap<u64, Row>, number: u64, role: Role, key: &Key) -> bool
    ensures { result ≡ is_row_of role key.now (row_numbered rows.now.entries number) }
{
    match rows.get(&number) {
        Some(row) => row.role.rank() == role.rank() && row.key == *key,
        None => false,
    }
}

fn read(row: &mut Row)
    ensures { row.new ≡ with_read row.old }
{
    row.read = true;
}

fn save(row: &mut Row)
    ensures { row.new ≡ with_saved row.old }
{
    row.saved = true;
}

fn ask(row: &mut Row, asked: Option<Version>)
    ensures { row.new ≡ with_asked asked row.old }
{
    row.asked = asked;
}

/// The version that the pass asked about last may be approved. An error is one of memory, and leaves all as it was.
fn approve(row: &mut Row) -> Result<(), AllocError>
    ensures ok { OnOk result (IsToldMore row.old row.new) }
    ensures err { OnErr result (row.new ≡ row.old) }
    ensures rest { row.new ≡ record row.old { yeses = row.new.yeses } }
{
    match &row.asked {
        Some(version) => {
            let version = version.copy()?;
            row.yeses.add(version)
        }
        None => Ok(()),
    }
}
