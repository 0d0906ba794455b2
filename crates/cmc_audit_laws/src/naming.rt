// What the types of a history's entries say of the keys of its calls.
ghost use Rattle.std.specs.Prelude.{All};
ghost use Rattle.cmc_audit_calls.specs.CallsOfLines.{HasCallNames, IsOfNames};
ghost use Rattle.cmc_audit_laws.specs.AuditedYes.{NamesItsKey, NameTheirKeys};

use cmc_history::History;
use cmc_meta::Key;
use cmc_objects::{Call, Entry};

// A key has a namespace and a name.
pub(crate) fn key_has_names(key: &Key)
    ensures { IsOfNames key.now }
{
    let _namespace = key.namespace.as_str();
    let _name = key.name.as_str();
}

fn call_has_names(call: &Call)
    ensures { HasCallNames call.now }
{
    match call {
        Call::Delete { key, .. } => key_has_names(key),
        Call::Get { key } => key_has_names(key),
        Call::Create { .. } | Call::Update { .. } | Call::UpdateStatus { .. } => {}
    }
}

fn entry_names_its_key(entry: &Entry)
    ensures { NamesItsKey entry.now }
{
    if let Entry::Call { call, .. } = entry {
        call_has_names(call);
    }
}

fn each_names_its_key(entries: &[Entry])
    ensures { All NamesItsKey entries.now }
{
    for entry in entries {
        entry_names_its_key(entry);
    }
}

/// A law: each key that an entry of the history deletes or gets has a namespace and a name. The call changes nothing.
pub fn entries_name_their_keys(history: &History)
    ensures { NameTheirKeys history.now.entries }
{
    each_names_its_key(history.as_slice());
}
