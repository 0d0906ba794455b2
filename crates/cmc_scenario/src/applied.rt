// The step that applies an object.
ghost use Rattle.std.specs.Prelude.{◌≡◌};
ghost use Rattle.serde_json.specs.View.{view};
ghost use Rattle.cmc_cursor.specs.Members.{Gives};
ghost use Rattle.cmc_scenario.specs.Applied.{apply_step_at};

use cmc_codec::{Applied, applied_of};
use cmc_cursor::BadField;
pub use cmc_cursor::{member, pass};
use cmc_objects::Step;
use serde_json::Value;
use std::alloc::Global;

/// The step that applies the object of a value, at the resource version that it names.
pub fn applied(alloc: Global, value: &Value) -> Result<Step, BadField>
    ensures { Gives (λ t. t) result (apply_step_at (view value.now)) }
{
    let Applied { object, version } = applied_of(alloc, value)?;
    Ok(Step::Apply { object, version })
}
