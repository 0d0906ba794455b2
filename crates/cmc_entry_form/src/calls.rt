// The lines of calls.
ghost use Rattle.std.specs.Prelude.{◌≡◌, ◌++◌, codes, IfOk};
ghost use Rattle.serde_json.specs.View.{view};
ghost use Rattle.cmc_cursor.specs.Members.{Gives};
ghost use Rattle.cmc_material.specs.Keys.{key_at};
ghost use Rattle.cmc_status_form.specs.WholeForm.{whole_object_at};
ghost use Rattle.cmc_objects.specs.Objects as objects;
ghost use Rattle.cmc_print.specs.Words as words;
ghost use Rattle.cmc_entry_form.specs.LineForm.{call_at, call_in, create_in, delete_line_in, generate_in, get_in, member_as, update_in};

use crate::members::{count_of, count_option, member_of, text_of};
use crate::replies::{said_of_create, said_of_other};
use cmc_cursor::BadField;
use cmc_lines::{CallName, PrintedLine};
use cmc_material::key;
use cmc_meta::{Key, Text, Texts};
use cmc_objects::Object;
use cmc_print::key_word;
use cmc_status_form::whole_object_of;
use serde_json::Value;
use std::alloc::{AllocError, Global};

fn object_of(alloc: Global, value: &Value) -> Result<Object, BadField>
    ensures { Gives (λ t. t) result (member_as whole_object_at (codes "object") (view value.now)) }
{
    let member = member_of(alloc, value, "object")?;
    whole_object_of(alloc, member)
}

fn key_of(alloc: Global, value: &Value) -> Result<Key, BadField>
    ensures { Gives (λ t. t) result (member_as key_at (codes "key") (view value.now)) }
{
    let member = member_of(alloc, value, "key")?;
    key(alloc, member)
}

fn key_text(alloc: Global, key: &Key) -> Result<Text, AllocError>
    ensures { IfOk result (λ t. t ≡ words.key_text key.now) }
{
    let text = key_word(alloc, key)?;
    Text::from_str(alloc, text.as_str())
}

fn object_key(alloc: Global, object: &Object) -> Result<Text, AllocError>
    ensures { IfOk result (λ t. t ≡ words.key_text (objects.key_of object.now)) }
{
    let key = object.key()?;
    key_text(alloc, &key)
}

fn prefix(alloc: Global, object: &Object) -> Result<Text, AllocError>
    ensures { IfOk result (λ t. t ≡ objects.name_of object.now ++ codes "-") }
{
    let mut text = String::from_str(alloc, object.meta().name.as_str())?;
    text.push_str("-")?;
    Text::from_str(alloc, text.as_str())
}

#[tactic(auto, unfolding(crate::specs::LineForm::create_in))]
fn create(alloc: Global, value: &Value) -> Result<PrintedLine, BadField>
    ensures { Gives (λ t. t) result (create_in (view value.now)) }
{
    let object = object_of(alloc, value)?;
    let (reply, who) = said_of_create(alloc, value)?;
    let key = object_key(alloc, &object)?;
    Ok(PrintedLine::Call {
        call: CallName::Create,
        key,
        object: Some(object),
        version: None,
        reply,
        who,
    })
}

#[tactic(auto, unfolding(crate::specs::LineForm::generate_in))]
fn generate(alloc: Global, value: &Value) -> Result<PrintedLine, BadField>
    ensures { Gives (λ t. t) result (generate_in (view value.now)) }
{
    let object = object_of(alloc, value)?;
    let (reply, who) = said_of_create(alloc, value)?;
    let key = prefix(alloc, &object)?;
    Ok(PrintedLine::Call {
        call: CallName::Generate,
        key,
        object: Some(object),
        version: None,
        reply,
        who,
    })
}

#[tactic(auto, unfolding(crate::specs::LineForm::update_in))]
fn update(alloc: Global, value: &Value, call: CallName) -> Result<PrintedLine, BadField>
    ensures { Gives (λ t. t) result (update_in call (view value.now)) }
{
    let object = object_of(alloc, value)?;
    let version = count_of(alloc, value, "version")?;
    let (reply, who) = said_of_other(alloc, value)?;
    let key = object_key(alloc, &object)?;
    Ok(PrintedLine::Call {
        call,
        key,
        object: Some(object),
        version: Some(version),
        reply,
        who,
    })
}

#[tactic(auto, unfolding(crate::specs::LineForm::delete_line_in))]
fn delete(alloc: Global, value: &Value) -> Result<PrintedLine, BadField>
    ensures { Gives (λ t. t) result (delete_line_in (view value.now)) }
{
    let key = key_of(alloc, value)?;
    let version = count_option(alloc, value, "version")?;
    let (reply, who) = said_of_other(alloc, value)?;
    let key = key_text(alloc, &key)?;
    Ok(PrintedLine::Call {
        call: CallName::Delete,
        key,
        object: None,
        version,
        reply,
        who,
    })
}

#[tactic(auto, unfolding(crate::specs::LineForm::get_in))]
fn get(alloc: Global, value: &Value) -> Result<PrintedLine, BadField>
    ensures { Gives (λ t. t) result (get_in (view value.now)) }
{
    let key = key_of(alloc, value)?;
    let (reply, who) = said_of_other(alloc, value)?;
    let key = key_text(alloc, &key)?;
    Ok(PrintedLine::Call {
        call: CallName::Get,
        key,
        object: None,
        version: None,
        reply,
        who,
    })
}

fn call_named(alloc: Global, value: &Value, word: &str) -> Result<PrintedLine, BadField>
    ensures { Gives (λ t. t) result (call_in (view value.now) word.now) }
{
    match word {
        "create" => create(alloc, value),
        "generate" => generate(alloc, value),
        "update" => update(alloc, value, CallName::Update),
        "updateStatus" => update(alloc, value, CallName::UpdateStatus),
        "delete" => delete(alloc, value),
        "get" => get(alloc, value),
        _ => Err(BadField::Path(Texts::new(alloc))),
    }
}

/// The line of a call.
#[tactic(auto, unfolding(crate::specs::LineForm::call_at))]
pub fn call(alloc: Global, value: &Value) -> Result<PrintedLine, BadField>
    ensures { Gives (λ t. t) result (call_at (view value.now)) }
{
    let word = text_of(alloc, value, "call")?;
    call_named(alloc, value, word)
}
