// Whole scenarios as JSON.
ghost use Rattle.std.specs.Prelude.{◌≡◌, codes, false, IfOk, OnOk};
ghost use Rattle.serde_json.specs.View.{view};
ghost use Rattle.serde_json.specs.Written.{has_float};
ghost use Rattle.cmc_print.specs.Puts.{put_list};
ghost use Rattle.cmc_print.specs.Trees.{data_of, members_of};
ghost use Rattle.cmc_setup.specs.Setups.{is_among};
ghost use Rattle.cmc_scenario_print.specs.Defaults.{is_every_role, put_unless, usual_events, usual_window};
ghost use Rattle.cmc_scenario_print.specs.ScenarioTree.{numbers_tree, put_run, put_world, role_tree, roles_tree, scenario_tree};

use crate::approvers::members_of_approver;
use crate::rows::put_material;
use crate::steps::put_script;
use crate::unless::{put_count_unless, put_moment_unless_usual};
use cmc_objects::Role;
use cmc_print::{Members, Tree, Trees, put_members, role_word};
use cmc_setup::Scenario;
use serde_json::Value;
use std::alloc::{AllocError, Global};

/// How many entries a history may have, and over how many writes a watch reaches back, where nothing
/// else is said.
const USUAL_EVENTS: u64 = 100_000;

const USUAL_WINDOW: u64 = 1_000;

fn numbers(alloc: Global, numbers: &[u64]) -> Result<Tree, AllocError>
    ensures { IfOk result (λ t. data_of t ≡ numbers_tree numbers.now) }
{
    let mut trees = Trees::new(alloc);
    for number in numbers {
        trees.push(Tree::count(*number))?;
    }
    Ok(Tree::list(trees))
}

fn put_faults(members: &mut Members, alloc: Global, faults: &[u64]) -> Result<(), AllocError>
    ensures { OnOk result (members_of members.new ≡ put_list numbers_tree (codes "faults") faults.now (members_of members.old)) }
{
    if faults.is_empty() {
        return Ok(());
    }
    let tree = numbers(alloc, faults)?;
    members.put(alloc, "faults", tree)
}

fn role_of(alloc: Global, role: Role) -> Result<Tree, AllocError>
    ensures { IfOk result (λ t. data_of t ≡ role_tree role) }
{
    Tree::text(alloc, role_word(role))
}

fn role_list(alloc: Global, roles: &[Role]) -> Result<Tree, AllocError>
    ensures { IfOk result (λ t. data_of t ≡ roles_tree roles.now) }
{
    let mut trees = Trees::new(alloc);
    for role in roles {
        trees.push(role_of(alloc, *role)?)?;
    }
    Ok(Tree::list(trees))
}

fn runs(roles: &[Role], role: Role) -> bool
    ensures { result ≡ is_among roles.now role }
{
    roles.iter().any(|other| other.rank() == role.rank())
}

fn all_run(roles: &[Role]) -> bool
    ensures { result ≡ is_every_role roles.now }
{
    Role::ALL.iter().all(|role| runs(roles, *role))
}

fn put_roles(members: &mut Members, alloc: Global, roles: &[Role]) -> Result<(), AllocError>
    ensures { OnOk result (members_of members.new ≡ put_unless (is_every_role roles.now) roles_tree (codes "roles") roles.now (members_of members.old)) }
{
    if all_run(roles) {
        return Ok(());
    }
    let tree = role_list(alloc, roles)?;
    members.put(alloc, "roles", tree)
}

#[tactic(auto, unfolding(crate::specs::ScenarioTree::put_world))]
fn add_world(members: &mut Members, alloc: Global, scenario: &Scenario) -> Result<(), AllocError>
    ensures { OnOk result (members_of members.new ≡ put_world scenario.now (members_of members.old)) }
{
    let approver = members_of_approver(alloc, scenario.approver())?;
    put_members(members, alloc, "approver", approver)?;
    put_count_unless(members, alloc, "events", USUAL_EVENTS, scenario.events())?;
    put_faults(members, alloc, scenario.faults())?;
    put_material(members, alloc, scenario.material())
}

#[tactic(auto, unfolding(crate::specs::ScenarioTree::put_run))]
fn add_run(members: &mut Members, alloc: Global, scenario: &Scenario) -> Result<(), AllocError>
    ensures { OnOk result (members_of members.new ≡ put_run scenario.now (members_of members.old)) }
{
    put_moment_unless_usual(members, alloc, scenario.now())?;
    put_roles(members, alloc, scenario.roles())?;
    put_script(members, alloc, scenario.script())?;
    put_count_unless(members, alloc, "window", USUAL_WINDOW, scenario.window())
}

#[tactic(auto, unfolding(crate::specs::ScenarioTree::scenario_tree))]
fn tree_of(alloc: Global, scenario: &Scenario) -> Result<Tree, AllocError>
    ensures { IfOk result (λ t. data_of t ≡ scenario_tree scenario.now) }
{
    let mut members = Members::new(alloc);
    add_world(&mut members, alloc, scenario)?;
    add_run(&mut members, alloc, scenario)?;
    Ok(Tree::object(members))
}

/// The scenario as JSON, in which no number is a float.
///
/// Each member of the scenario, of its approver, of a policy, of a step and of a row that is absent
/// or has its default is left out, and so are the lists `material`, `keys`, `replies`, `faults` and
/// `script` where they are empty. An applied object is printed as objects are, with the resource
/// version that its step names. Of a row that may be any, for which no JSON stands, an object without
/// members is printed. It fails only where memory runs out.
pub fn value_of_scenario(alloc: Global, scenario: &Scenario) -> Result<Value, AllocError>
    ensures value { IfOk result (λ v. view v ≡ scenario_tree scenario.now) }
    ensures none { IfOk result (λ v. has_float (view v) ≡ false) }
{
    Ok(tree_of(alloc, scenario)?.into_value())
}
