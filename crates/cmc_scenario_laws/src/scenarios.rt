// The laws of steps and of whole scenarios, and what they rest on.
ghost use Rattle.std.specs.Prelude.{◌≡◌, ◌≤◌, ℕ, Ok};
ghost use Rattle.serde_json.specs.Data.{Data};
ghost use Rattle.base64.specs.GeneralPurpose.{IsBytes};
ghost use Rattle.cmc_codec.specs.Laws.{EachValue, HasBytes};
ghost use Rattle.cmc_setup.specs.Setups.{LeavesNothingFree, Setup};
ghost use Rattle.cmc_scenario.specs.Loads.{load_setup};
ghost use Rattle.cmc_scenario.specs.Scenarios.{scenario_at};
ghost use Rattle.cmc_scenario_laws.specs.Steps.{HasStepBytes, HaveStepBytes, IsStepReadAgain};
ghost use Rattle.cmc_scenario_laws.specs.Scenarios.{IsScenarioReadAgain, IsWholeScenario};

use crate::laws::{are_bytes, entries_have_bytes, reply_has_bytes, rows_in_order};
use crate::policies::have_octets;
use cmc_objects::{Object, Parts, Step};
use cmc_setup::Scenario;

fn parts_are_bytes(parts: &Parts)
    ensures { EachValue IsBytes parts.now }
{
    for (_, bytes) in parts.as_map().iter() {
        are_bytes(bytes.as_slice());
    }
}

fn object_has_bytes(object: &Object)
    ensures { HasBytes object.now }
{
    match object {
        Object::Cert(_) => {}
        Object::Request(request) => are_bytes(request.spec.request.as_slice()),
        Object::Secret(secret) => parts_are_bytes(&secret.parts),
    }
}

fn step_has_bytes(step: &Step)
    ensures { HasStepBytes step.now }
{
    match step {
        Step::Apply { object, .. } => object_has_bytes(object),
        Step::Answer { row, .. } => reply_has_bytes(row),
        Step::Delete { .. }
        | Step::Approve { .. }
        | Step::Deny { .. }
        | Step::Renew { .. }
        | Step::Tick { .. }
        | Step::Stop { .. }
        | Step::Start { .. }
        | Step::Hold { .. }
        | Step::Release { .. }
        | Step::Until { .. }
        | Step::Settle => {}
    }
}

fn steps_have_bytes(steps: &[Step])
    ensures { HaveStepBytes steps.now }
{
    if let [first, rest @ ..] = steps {
        step_has_bytes(first);
        steps_have_bytes(rest);
    }
}

/// A law: what is printed of a step that was read is read again, as the same step. The call changes
/// nothing.
#[tactic(auto, using(crate::proofs::ScenarioLaws::step_law))]
pub fn printed_step_is_read(step: &Step)
    ensures { IsStepReadAgain step.now }
{
    step_has_bytes(step);
}

fn is_whole(scenario: &Scenario)
    ensures { IsWholeScenario scenario.now }
{
    have_octets(scenario.approver().policies.as_slice());
    entries_have_bytes(scenario.material().as_map());
    rows_in_order(scenario.material());
    steps_have_bytes(scenario.script());
}

/// A law: what is printed of a scenario that was read, in whose policies all texts are UTF-8, is read
/// again, as the same scenario. The call changes nothing.
#[tactic(auto, using(crate::proofs::ScenarioLaws::scenario_law))]
pub fn printed_scenario_is_read(scenario: &Scenario)
    ensures { IsScenarioReadAgain scenario.now }
{
    is_whole(scenario);
}

/// A law: a scenario that is read, and the generated one of 1 to 200 Certificates, leaves neither a key nor an answer
/// of an issuer open. So whoever makes keys and answers for issuers has one value for each question.
pub fn scenarios_leave_nothing_free()
    ensures read { (d : Data) (u : Setup) → scenario_at d ≡ Ok u → LeavesNothingFree u }
    ensures made { (count : ℕ) → 1 ≤ count → count ≤ 200 → LeavesNothingFree (load_setup count) }
{}
