// What the types of entries say of their numbers.
ghost use Rattle.std.specs.Prelude.{All};
ghost use Rattle.cmc_objects.specs.declared.call.Reply.TheVariants as replies;
ghost use Rattle.cmc_audit_laws.specs.Counted as counted;
ghost use Rattle.cmc_audit_laws.specs.Typed.{IsWide};

use cmc_history::History;
use cmc_objects::{Call, Cause, Entry, Object, Order, Positions, Reply, Who};

fn is_count(number: u64)
    ensures { counted.IsCount number }
{
    let _number = number;
}

fn is_count_if_given(number: Option<u64>)
    ensures { IsWide number }
{
    match number {
        None => {}
        Some(number) => is_count(number),
    }
}

fn who_is_counted(who: Who)
    ensures { counted.IsCountedWho who }
{
    match who {
        Who::User => {}
        Who::Pass(pass) => is_count(pass),
    }
}

fn call_is_counted(call: &Call)
    ensures { counted.IsCountedCall call.now }
{
    match call {
        Call::Update { version, .. } => is_count(*version),
        Call::UpdateStatus { version, .. } => is_count(*version),
        Call::Delete { version, .. } => is_count_if_given(*version),
        Call::Create { .. } | Call::Get { .. } => {}
    }
}

fn found_is_counted(object: &Object)
    ensures { counted.IsCountedReply (replies.Found object.now) }
{
    is_count(object.meta().version);
}

fn reply_is_counted(reply: &Reply)
    ensures { counted.IsCountedReply reply.now }
{
    match reply {
        Reply::Ok { version, .. } => is_count(*version),
        Reply::Unchanged { version } => is_count(*version),
        Reply::Found { object } => found_is_counted(object),
        Reply::Conflict { named, have } => {
            is_count(*named);
            is_count(*have);
        }
        Reply::NotFound { at } => is_count(*at),
        Reply::AlreadyExists { have } => is_count(*have),
        Reply::Invalid { rule } => is_count(*rule as u64),
        Reply::Unavailable { number } => is_count(*number),
    }
}

fn order_is_counted(order: &Order)
    ensures { counted.IsCountedOrder order.now }
{
    match order {
        Order::Key(order) => is_count(order.number),
        Order::Csr(_) => {}
        Order::Sign(order) => {
            is_count(order.number());
            is_count(order.request().meta.version);
        }
        Order::Judge(order) => is_count(order.request.meta.version),
    }
}

fn cause_is_counted(cause: Cause)
    ensures { counted.IsCountedCause cause }
{
    match cause {
        Cause::Wrote | Cause::Nothing => {}
        Cause::Stopper(entry) => is_count(entry),
    }
}

fn positions_are_counted(at: Positions)
    ensures { counted.AreCounted at }
{
    is_count(at.certificates);
    is_count(at.requests);
    is_count(at.secrets);
}

fn entry_is_counted(entry: &Entry)
    ensures { counted.IsCountedEntry entry.now }
{
    match entry {
        Entry::Script { step } => is_count(*step),
        Entry::Call { who, call, reply } => {
            who_is_counted(*who);
            call_is_counted(call);
            reply_is_counted(reply);
        }
        Entry::Deliver { to, .. } => is_count(*to),
        Entry::List { to, .. } => is_count(*to),
        Entry::Begin { pass, at, .. } => {
            is_count(*pass);
            positions_are_counted(*at);
        }
        Entry::Ask { pass, order } => {
            is_count(*pass);
            order_is_counted(order);
        }
        Entry::Made { pass, .. } => is_count(*pass),
        Entry::Signed { pass, .. } => is_count(*pass),
        Entry::Answered { pass, .. } => is_count(*pass),
        Entry::Judged { pass, .. } => is_count(*pass),
        Entry::End { pass, cause } => {
            is_count(*pass);
            cause_is_counted(*cause);
        }
        Entry::Start { at, .. } => is_count(*at),
        Entry::Stop { .. } | Entry::Tick { .. } => {}
    }
}

fn each_is_counted(entries: &[Entry])
    ensures { All counted.IsCountedEntry entries.now }
{
    for entry in entries {
        entry_is_counted(entry);
    }
}

/// A law: each number of the history's entries fits 64 bits. The call changes nothing.
pub fn entries_are_counted(history: &History)
    ensures { counted.EachCounted history.now.entries }
{
    each_is_counted(history.as_slice());
}
