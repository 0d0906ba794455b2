// How deep a value nests.
ghost use Rattle.std.specs.Prelude.{◌≡◌, ◌≤◌, ◌↔◌, IsTrue};
ghost use Rattle.serde_json.specs.Data.{depth};
ghost use Rattle.serde_json.specs.Read.{max_depth};
ghost use Rattle.serde_json.specs.View.{view, items_view, members_view};
ghost use Rattle.cmc_line_reading.specs.Depths.{is_nested_within, items_within, members_within};

use serde_json::{Map, Value};

const DEEPEST: usize = 127;

#[cycle(nests)]
fn nests(value: &Value, most: usize) -> bool
    ensures { result ≡ is_nested_within most (view value.now) }
{
    match value {
        Value::Array(items) => most > 0 && items_nest(items, most - 1),
        Value::Object(members) => most > 0 && members_nest(members, most - 1),
        _ => true,
    }
}

#[cycle(nests)]
fn items_nest(items: &Vec<Value>, most: usize) -> bool
    ensures { result ≡ items_within most (items_view items.now.items) }
{
    for item in items {
        if !nests(item, most) {
            return false;
        }
    }
    true
}

#[cycle(nests)]
fn members_nest(members: &Map<String, Value>, most: usize) -> bool
    ensures { result ≡ members_within most (members_view members.now.entries) }
{
    for (_, member) in members.iter() {
        if !nests(member, most) {
            return false;
        }
    }
    true
}

/// Whether a text of the value can be read: lists and objects nest at most 127 deep.
#[tactic(auto, using(crate::proofs::Depths::depth_of_within, crate::proofs::Depths::within_of_depth))]
pub fn is_shallow(value: &Value) -> bool
    ensures { IsTrue result ↔ (depth (view value.now) ≤ max_depth) }
{
    nests(value, DEEPEST)
}
