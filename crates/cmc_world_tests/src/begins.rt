//! Whether each pass of a history begins for a reason. It shares no definition with the proofs.
use cmc_history::History;
use cmc_meta::Key;
use cmc_objects::{Entry, Reply, Role, Who};
use std::test::Fail;

/// The last pass of a role on a key since the role started, and whether there is a reason for another.
#[derive(Clone, Copy)]
struct LastPass {
    number: u64,
    has_reason: bool,
}

/// Whether the entry is a reason for another pass of the role after the one of this number.
fn is_reason(entry: &Entry, role: Role, former: u64) -> bool {
    match entry {
        Entry::Call {
            who: Who::Pass(pass),
            reply,
            ..
        } => match reply {
            Reply::Ok { .. } | Reply::Unavailable { .. } => *pass == former,
            _ => false,
        },
        Entry::Deliver { role: told, .. } => told.same(role),
        Entry::List { role: told, .. } => told.same(role),
        Entry::Tick { .. } => true,
        _ => false,
    }
}

/// The last pass of the role on the key after the entry.
fn last_behind(last: Option<LastPass>, entry: &Entry, role: Role, key: &Key) -> Option<LastPass> {
    match entry {
        Entry::Begin {
            pass,
            role: own,
            key: on,
            ..
        } => {
            if own.same(role) && on == key {
                return Some(LastPass {
                    number: *pass,
                    has_reason: false,
                });
            }
            last
        }
        Entry::Start { role: own, .. } => {
            if own.same(role) {
                return None;
            }
            last
        }
        _ => {
            let known = last?;
            Some(LastPass {
                number: known.number,
                has_reason: known.has_reason || is_reason(entry, role, known.number),
            })
        }
    }
}

/// The last pass of the role on the key behind so many entries.
fn last_pass(entries: &[Entry], count: usize, role: Role, key: &Key) -> Option<LastPass> {
    let mut last = None;
    let mut place = 0_usize;
    for entry in entries {
        if place < count {
            last = last_behind(last, entry, role, key);
        }
        place = place.saturating_add(1);
    }
    last
}

/// How many passes begin behind another of their role on their key. Each has a reason.
pub(crate) fn begun_again(history: &History) -> Result<u64, Fail> {
    let entries = history.as_slice();
    let mut again = 0_u64;
    let mut before = 0_usize;
    for entry in entries {
        if let Entry::Begin { role, key, .. } = entry {
            if let Some(last) = last_pass(entries, before, *role, key) {
                if !last.has_reason {
                    return Err(Fail::from("a pass begins for nothing"));
                }
                again = again.saturating_add(1);
            }
        }
        before = before.saturating_add(1);
    }
    Ok(again)
}
