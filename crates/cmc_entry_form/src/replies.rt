// Replies, and by whom calls are.
ghost use Rattle.std.specs.Prelude.{◌≡◌, codes};
ghost use Rattle.serde_json.specs.View.{view};
ghost use Rattle.cmc_cursor.specs.Members.{Gives};
ghost use Rattle.cmc_cursor.specs.Readers.{name_at};
ghost use Rattle.cmc_entry_form.specs.LineForm as spec;
ghost use Rattle.cmc_entry_form.specs.LineForm.{answered_in, conflict_at, created_in, member_as, refused_in, reply_at, said_in, who_at};

use crate::members::{count_of, member_of};
use cmc_cursor::{BadField, count, fields, name, small_count};
use cmc_lines::PrintedReply;
use cmc_meta::{Name, Texts};
use cmc_objects::Who;
use serde_json::Value;
use std::alloc::Global;

// ---- replies

fn first_member(alloc: Global, value: &Value) -> Result<(&str, &Value), BadField>
    ensures { Gives (λ p. (p.0.now, view p.1.now)) result (spec.first_member_at (view value.now)) }
{
    let members = fields(alloc, value)?;
    match members.as_slice() {
        [(name, member), ..] => Ok((*name, *member)),
        [] => Err(BadField::Path(Texts::new(alloc))),
    }
}

fn name_member(alloc: Global, value: &Value) -> Result<Name, BadField>
    ensures { Gives (λ t. t) result (member_as name_at (codes "name") (view value.now)) }
{
    let member = member_of(alloc, value, "name")?;
    name(alloc, member)
}

#[tactic(auto, unfolding(crate::specs::LineForm::created_in))]
fn created(alloc: Global, value: &Value) -> Result<PrintedReply, BadField>
    ensures { Gives (λ t. t) result (created_in (view value.now)) }
{
    let name = name_member(alloc, value)?;
    let version = count_of(alloc, value, "ok")?;
    Ok(PrintedReply::Created { name, version })
}

#[tactic(auto, unfolding(crate::specs::LineForm::conflict_at))]
fn conflict(alloc: Global, value: &Value) -> Result<PrintedReply, BadField>
    ensures { Gives (λ t. t) result (conflict_at (view value.now)) }
{
    let named = count_of(alloc, value, "named")?;
    let have = count_of(alloc, value, "have")?;
    Ok(PrintedReply::Conflict { named, have })
}

fn refused(alloc: Global, word: &str, value: &Value) -> Result<PrintedReply, BadField>
    ensures { Gives (λ t. t) result (refused_in word.now (view value.now)) }
{
    match word {
        "conflict" => conflict(alloc, value),
        "notFound" => Ok(PrintedReply::NotFound {
            at: count(alloc, value)?,
        }),
        "alreadyExists" => Ok(PrintedReply::AlreadyExists {
            have: count(alloc, value)?,
        }),
        "invalid" => Ok(PrintedReply::Invalid {
            rule: small_count(alloc, value)?,
        }),
        "unavailable" => Ok(PrintedReply::Unavailable {
            number: count(alloc, value)?,
        }),
        _ => Err(BadField::Path(Texts::new(alloc))),
    }
}

fn reply_under(
    alloc: Global,
    whole: &Value,
    word: &str,
    value: &Value,
) -> Result<PrintedReply, BadField>
    ensures { Gives (λ t. t) result (spec.reply_in (view whole.now) (word.now, view value.now)) }
{
    match word {
        "name" => created(alloc, whole),
        "ok" => Ok(PrintedReply::Ok {
            version: count(alloc, value)?,
        }),
        "unchanged" => Ok(PrintedReply::Unchanged {
            version: count(alloc, value)?,
        }),
        "found" => Ok(PrintedReply::Found {
            version: count(alloc, value)?,
        }),
        _ => refused(alloc, word, value),
    }
}

#[tactic(auto, unfolding(crate::specs::LineForm::reply_at))]
fn reply(alloc: Global, value: &Value) -> Result<PrintedReply, BadField>
    ensures { Gives (λ t. t) result (reply_at (view value.now)) }
{
    let (word, member) = first_member(alloc, value)?;
    reply_under(alloc, value, word, member)
}

// ---- callers

fn who_named(alloc: Global, word: &str) -> Result<Who, BadField>
    ensures { Gives (λ t. t) result (spec.who_named word.now) }
{
    if word == "user" {
        return Ok(Who::User);
    }
    Err(BadField::Path(Texts::new(alloc)))
}

#[tactic(auto, unfolding(crate::specs::LineForm::who_at))]
fn who(alloc: Global, value: &Value) -> Result<Who, BadField>
    ensures { Gives (λ t. t) result (who_at (view value.now)) }
{
    match value.as_str() {
        Some(word) => who_named(alloc, word),
        None => Ok(Who::Pass(count(alloc, value)?)),
    }
}

// ---- both

fn reply_of(alloc: Global, value: &Value) -> Result<PrintedReply, BadField>
    ensures { Gives (λ t. t) result (member_as reply_at (codes "reply") (view value.now)) }
{
    let member = member_of(alloc, value, "reply")?;
    reply(alloc, member)
}

fn who_of(alloc: Global, value: &Value) -> Result<Who, BadField>
    ensures { Gives (λ t. t) result (member_as who_at (codes "who") (view value.now)) }
{
    let member = member_of(alloc, value, "who")?;
    who(alloc, member)
}

#[tactic(auto, unfolding(crate::specs::LineForm::said_in))]
fn said(alloc: Global, value: &Value) -> Result<(PrintedReply, Who), BadField>
    ensures { Gives (λ t. t) result (said_in (view value.now)) }
{
    let reply = reply_of(alloc, value)?;
    let who = who_of(alloc, value)?;
    Ok((reply, who))
}

fn answers_create(reply: &PrintedReply) -> bool
    ensures { result ≡ spec.answers_create reply.now }
{
    !matches!(reply, PrintedReply::Ok { .. })
}

fn answers_other(reply: &PrintedReply) -> bool
    ensures { result ≡ spec.answers_other reply.now }
{
    !matches!(reply, PrintedReply::Created { .. })
}

/// The reply to a create, and by whom that is.
#[tactic(auto, unfolding(crate::specs::LineForm::answered_in))]
pub fn said_of_create(alloc: Global, value: &Value) -> Result<(PrintedReply, Who), BadField>
    ensures { Gives (λ t. t) result (answered_in spec.answers_create (view value.now)) }
{
    let (reply, who) = said(alloc, value)?;
    if answers_create(&reply) {
        return Ok((reply, who));
    }
    Err(BadField::Path(Texts::new(alloc)))
}

/// The reply to any other call, and by whom that is.
#[tactic(auto, unfolding(crate::specs::LineForm::answered_in))]
pub fn said_of_other(alloc: Global, value: &Value) -> Result<(PrintedReply, Who), BadField>
    ensures { Gives (λ t. t) result (answered_in spec.answers_other (view value.now)) }
{
    let (reply, who) = said(alloc, value)?;
    if answers_other(&reply) {
        return Ok((reply, who));
    }
    Err(BadField::Path(Texts::new(alloc)))
}
