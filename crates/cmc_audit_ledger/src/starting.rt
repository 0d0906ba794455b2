//! How the standings of roles change, and the row of a pass that begins.
ghost use Rattle.std.specs.Prelude.{◌≡◌, IfOk, nat_le, if◌then◌else◌};
ghost use Rattle.cmc_rules.specs.Positions.{position_of};
ghost use Rattle.cmc_audit_ledger.specs.Starts.{IsFirst, Starts, Stops, MovesPosition};

use cmc_audit_state::{Row, Standing, Standings, Yeses, put_at_kind};
use cmc_meta::{Key, Kind};
use cmc_objects::{Positions, Role};
use std::alloc::{AllocError, Global};

/// The role is told of the kind up to this version.
pub(crate) fn told(standings: &mut Standings, role: Role, kind: Kind, to: u64)
    ensures { MovesPosition role kind to standings.old standings.new }
{
    let standing = standings.get(role);
    let told = put_at_kind(standing.told, kind, to);
    standings.set(role, Standing { told, ..standing });
}

/// The role runs, told of all kinds up to this version.
pub(crate) fn started(standings: &mut Standings, role: Role, at: u64)
    ensures { Starts role at standings.old standings.new }
{
    let told = Positions {
        certificates: at,
        requests: at,
        secrets: at,
    };
    standings.set(
        role,
        Standing {
            running: true,
            told,
        },
    );
}

/// The role no longer runs.
pub(crate) fn stopped(standings: &mut Standings, role: Role)
    ensures { Stops role standings.old standings.new }
{
    let standing = standings.get(role);
    standings.set(
        role,
        Standing {
            running: false,
            ..standing
        },
    );
}

fn at_most(position: u64, accepted: u64) -> u64
    ensures { result ≡ (if nat_le position accepted then position else accepted) }
{
    if position <= accepted {
        position
    } else {
        accepted
    }
}

/// The row of a pass that begins. An error is one of memory.
pub(crate) fn first_row(
    alloc: Global,
    standing: Standing,
    accepted: u64,
    moment: i64,
    role: Role,
    key: &Key,
) -> Result<Row, AllocError>
    ensures { IfOk result (λ row. IsFirst standing accepted moment role key.now row) }
{
    Ok(Row {
        role,
        key: key.copy()?,
        reach: Positions {
            certificates: at_most(standing.told.certificates, accepted),
            requests: at_most(standing.told.requests, accepted),
            secrets: at_most(standing.told.secrets, accepted),
        },
        since: moment,
        read: false,
        saved: false,
        asked: None,
        yeses: Yeses::new(alloc),
    })
}
