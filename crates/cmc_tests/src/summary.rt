//! What no clause says: that the waits of a summary are copied where memory is ample.
use crate::checks::passes;
use crate::values::key;
use cmc_meta::Kind;
use cmc_summary::{WaitName, Waiting, Waits};
use std::test::Fail;

#[test]
fn copies_waits(rt: HostRuntime) -> Result<(), Fail> {
    let alloc = rt.alloc();
    let mut waits = Waits::new(alloc);
    waits.push(Waiting {
        certificate: key(alloc, Kind::Certificate, "web")?,
        wait: WaitName::Backoff,
    })?;
    let copied = waits.copy()?;
    passes(&rt, "copied", is_one(copied.as_slice()));
    Ok(())
}

/// The Certificate `default/web` alone waits, for the end of its back-off.
fn is_one(waits: &[Waiting]) -> bool {
    match waits {
        [waiting] => {
            waiting.certificate.name.as_str() == "web" && matches!(waiting.wait, WaitName::Backoff)
        }
        _ => false,
    }
}
