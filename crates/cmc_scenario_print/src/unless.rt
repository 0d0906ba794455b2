// Members that are left out where they say what counts without them.
ghost use Rattle.std.specs.Prelude.{◌≡◌, ◌==◌, OnOk, codes};
ghost use Rattle.serde_json.specs.Data.{string};
ghost use Rattle.cmc_print.specs.Printed.{moment_tree};
ghost use Rattle.cmc_print.specs.Trees.{natural, members_of};
ghost use Rattle.cmc_scenario_print.specs.Defaults.{put_unless, usual_moment, is_usual_moment, is_usual_message};

use cmc_print::{Members, put_count, put_text, put_time};
use std::alloc::{AllocError, Global};

/// The moment of the beginning where no other is given, 2030-01-01T00:00:00Z.
const USUAL_MOMENT: i64 = 1_893_456_000;

/// Puts a number, unless it is this one.
pub fn put_count_unless(
    members: &mut Members,
    alloc: Global,
    name: &str,
    usual: u64,
    number: u64,
) -> Result<(), AllocError>
    ensures { OnOk result (members_of members.new ≡ put_unless (number == usual) natural name.now number (members_of members.old)) }
{
    if number == usual {
        return Ok(());
    }
    put_count(members, alloc, name, number)
}

fn is_usual(moment: i64) -> bool
    ensures { result ≡ is_usual_moment moment }
{
    moment == USUAL_MOMENT
}

/// Puts the moment of the beginning, unless it is the usual one.
pub fn put_moment_unless_usual(
    members: &mut Members,
    alloc: Global,
    moment: i64,
) -> Result<(), AllocError>
    ensures { OnOk result (members_of members.new ≡ put_unless (is_usual_moment moment) moment_tree (codes "now") moment (members_of members.old)) }
{
    if is_usual(moment) {
        return Ok(());
    }
    put_time(members, alloc, "now", moment)
}

fn is_usual_text(message: &str) -> bool
    ensures { result ≡ is_usual_message message.now }
{
    message == "The issuer refused"
}

/// Puts what an issuer says that refuses, unless it is the usual message.
pub fn put_message_unless_usual(
    members: &mut Members,
    alloc: Global,
    message: &str,
) -> Result<(), AllocError>
    ensures { OnOk result (members_of members.new ≡ put_unless (is_usual_message message.now) string (codes "message") message.now (members_of members.old)) }
{
    if is_usual_text(message) {
        return Ok(());
    }
    put_text(members, alloc, "message", message)
}
