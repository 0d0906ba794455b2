//! A printed history, as it was read.
use crate::line::PrintedLine;
use cmc_meta::Items;
use cmc_setup::Scenario;

/// Lines of entries, the oldest first; contracts see the list of what they say.
pub type Records = Items<PrintedLine>;

/// A printed history: its scenario, its entries from the oldest on, and what its summary counts.
pub struct Printed {
    pub scenario: Scenario,
    pub entries: Records,
    /// Certificates, those that are Ready, and Secrets.
    pub counts: [u64; 3],
}

impl Drop for Printed {
    fn drop(self) {
        let Printed {
            scenario: _scenario,
            entries: _entries,
            counts: _counts,
        } = self;
    }
}
