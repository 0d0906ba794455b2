//! Stand-in public keys.
ghost use Rattle.std.specs.Prelude.{◌≡◌, IfOk};
ghost use Rattle.cmc_answers.specs.StandIns.{stand_in_point};

use std::alloc::{AllocError, Global};

/// The point of the stand-in key of P-256 with this number: both coordinates are the number.
#[tactic(auto, unfolding(crate::specs::StandIns::stand_in_point))]
pub fn stand_in_point(alloc: Global, number: u64) -> Result<Vec<u8>, AllocError>
    ensures { IfOk result (λ point. point.items ≡ stand_in_point number) }
{
    let mut point = Vec::new(alloc);
    point.push(4)?;
    point.extend_from_slice(&[0; 24])?;
    point.extend_from_slice(&number.to_be_bytes())?;
    point.extend_from_slice(&[0; 24])?;
    point.extend_from_slice(&number.to_be_bytes())?;
    Ok(point)
}
