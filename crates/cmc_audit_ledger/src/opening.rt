//! What is kept before any entry.
ghost use Rattle.std.specs.Prelude.{◌≡◌, [], IfOk};
ghost use Rattle.cmc_audit_ledger.specs.Ledgers.{IsLedgerOf, setting_of};

use crate::ledger::Ledger;
use cmc_audit_state::{Journal, Passes, Standings};
use cmc_meta::Numbers;
use cmc_seed::HashSeed;
use cmc_setup::Scenario;
use cmc_store::Store;
use std::alloc::{AllocError, Global};

fn numbers_of(alloc: Global, items: &[u64]) -> Result<Numbers, AllocError>
    ensures { IfOk result (λ n. n ≡ items.now) }
{
    let mut numbers = Numbers::new(alloc);
    for item in items {
        numbers.push(*item)?;
    }
    Ok(numbers)
}

impl Ledger {
    /// What is kept before any entry: no object exists, nothing was done, and the scenario's roles run, told of nothing. An
    /// error is one of memory.
    pub fn new(alloc: Global, seed: HashSeed, scenario: &Scenario) -> Result<Ledger, AllocError>
        ensures follows { IfOk result (λ l. IsLedgerOf (setting_of scenario.now) [] l) }
        ensures count { IfOk result (λ l. l.entries ≡ 0) }
    {
        let faults = numbers_of(alloc, scenario.faults())?;
        let standings = Standings::new(alloc, scenario.roles())?;
        let _events = scenario.events();
        Ok(Ledger {
            store: Store::seeded(alloc, seed, faults),
            journal: Journal::new(alloc, seed),
            standings,
            passes: Passes::new(alloc),
            moment: scenario.now(),
            window: scenario.window(),
            entries: 0,
        })
    }
}
