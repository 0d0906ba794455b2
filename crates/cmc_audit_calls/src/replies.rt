//! Whether a line shows a reply.
ghost use Rattle.std.specs.Prelude.{◌≡◌, ◌↔◌, IsTrue};
ghost use Rattle.cmc_objects.specs.Objects.{version_of};
ghost use Rattle.cmc_lines.specs.declared.line.PrintedReply.TheVariants as printed_replies;
ghost use Rattle.cmc_lines.specs.Shown.{shown_ok, shown_reply};

use cmc_lines::PrintedReply;
use cmc_meta::Name;
use cmc_objects::{Call, Object, Reply};

fn shows_ok(call: &Call, version: u64, name: &Name, printed: &PrintedReply) -> bool
    ensures { IsTrue result ↔ (shown_ok call.now version name.now ≡ printed.now) }
{
    match (call, printed) {
        (
            Call::Create { .. },
            PrintedReply::Created {
                name: shown,
                version: number,
            },
        ) => version == *number && name.same(shown),
        (Call::Create { .. }, _) => false,
        (_, PrintedReply::Ok { version: number }) => version == *number,
        _ => false,
    }
}

fn shows_found(object: &Object, printed: &PrintedReply) -> bool
    ensures { IsTrue result ↔ (printed_replies.Found (version_of object.now) ≡ printed.now) }
{
    match printed {
        PrintedReply::Found { version } => object.meta().version == *version,
        _ => false,
    }
}

/// Whether the printed reply shows this one.
pub fn shows(call: &Call, reply: &Reply, printed: &PrintedReply) -> bool
    ensures { IsTrue result ↔ (shown_reply call.now reply.now ≡ printed.now) }
{
    match (reply, printed) {
        (Reply::Ok { version, name }, _) => shows_ok(call, *version, name, printed),
        (Reply::Unchanged { version }, PrintedReply::Unchanged { version: number }) => {
            version == number
        }
        (Reply::Found { object }, _) => shows_found(object, printed),
        (
            Reply::Conflict { named, have },
            PrintedReply::Conflict {
                named: number,
                have: other,
            },
        ) => named == number && have == other,
        (Reply::NotFound { at }, PrintedReply::NotFound { at: number }) => at == number,
        (Reply::AlreadyExists { have }, PrintedReply::AlreadyExists { have: number }) => {
            have == number
        }
        (Reply::Invalid { rule }, PrintedReply::Invalid { rule: number }) => rule == number,
        (Reply::Unavailable { number }, PrintedReply::Unavailable { number: other }) => {
            number == other
        }
        _ => false,
    }
}
