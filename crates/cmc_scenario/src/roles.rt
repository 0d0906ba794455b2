// Roles and kinds by their names.
ghost use Rattle.std.specs.Prelude.{◌≡◌, [], decimal, IfOk};
ghost use Rattle.serde_json.specs.View.{view, items_view};
ghost use Rattle.cmc_cursor.specs.Members.{Gives, under};
ghost use Rattle.cmc_cursor.specs.Seen.{shown_option};
ghost use Rattle.cmc_scenario_print.specs.Defaults.{all_roles};
ghost use Rattle.cmc_scenario.specs.Roles.{kind_at, named_roles_at, role_at, role_in, roles_at, roles_with};

use cmc_cursor::{BadField, at, at_place};
use cmc_material::kind_of;
use cmc_meta::{Kind, Texts};
use cmc_objects::Role;
use cmc_setup::Roles;
use serde_json::Value;
use std::alloc::{AllocError, Global};

fn role_of(alloc: Global, text: &str) -> Result<Role, BadField>
    ensures { Gives (λ t. t) result (role_in text.now) }
{
    match text {
        "trigger" => Ok(Role::Trigger),
        "keymanager" => Ok(Role::KeyManager),
        "requestmanager" => Ok(Role::RequestManager),
        "approver" => Ok(Role::Approver),
        "issuer" => Ok(Role::Issuer),
        "issuing" => Ok(Role::Issuing),
        "readiness" => Ok(Role::Readiness),
        "revision" => Ok(Role::Revision),
        _ => Err(BadField::Path(Texts::new(alloc))),
    }
}

/// A role by its name.
pub fn role(alloc: Global, value: &Value) -> Result<Role, BadField>
    ensures { Gives (λ t. t) result (role_at (view value.now)) }
{
    match value.as_str() {
        Some(text) => role_of(alloc, text),
        None => Err(BadField::Path(Texts::new(alloc))),
    }
}

/// A kind by its name.
pub fn kind(alloc: Global, value: &Value) -> Result<Kind, BadField>
    ensures { Gives (λ t. t) result (kind_at (view value.now)) }
{
    match value.as_str() {
        Some(text) => kind_of(alloc, text),
        None => Err(BadField::Path(Texts::new(alloc))),
    }
}

fn numbered_role(alloc: Global, place: usize, value: &Value) -> Result<Role, BadField>
    ensures { Gives (λ t. t) result (under (decimal place) (role_at (view value.now))) }
{
    at_place(alloc, place, role(alloc, value))
}

fn roles_of(alloc: Global, items: &[Value]) -> Result<Roles, BadField>
    ensures { Gives (λ t. t) result (roles_with 0 [] (items_view items.now)) }
{
    let mut roles = Roles::new(alloc);
    for (place, item) in items.iter().enumerate() {
        match numbered_role(alloc, place, item) {
            Ok(role) => roles.add(role)?,
            Err(error) => return Err(error),
        }
    }
    Ok(roles)
}

fn named_roles(alloc: Global, value: &Value) -> Result<Roles, BadField>
    ensures { Gives (λ t. t) result (named_roles_at (view value.now)) }
{
    match value {
        Value::Array(items) => roles_of(alloc, items.as_slice()),
        _ => Err(BadField::Path(Texts::new(alloc))),
    }
}

/// All roles.
pub fn every_role(alloc: Global) -> Result<Roles, AllocError>
    ensures { IfOk result (λ r. r ≡ all_roles) }
{
    let mut roles = Roles::new(alloc);
    roles.add(Role::Trigger)?;
    roles.add(Role::KeyManager)?;
    roles.add(Role::RequestManager)?;
    roles.add(Role::Approver)?;
    roles.add(Role::Issuer)?;
    roles.add(Role::Issuing)?;
    roles.add(Role::Readiness)?;
    roles.add(Role::Revision)?;
    Ok(roles)
}

/// The roles of the member `roles`; all of them where it is left out.
pub fn given_roles(alloc: Global, value: Option<&Value>) -> Result<Roles, BadField>
    ensures { Gives (λ t. t) result (roles_at (shown_option value.entry)) }
{
    match value {
        None => Ok(every_role(alloc)?),
        Some(value) => at(alloc, "roles", named_roles(alloc, value)),
    }
}
