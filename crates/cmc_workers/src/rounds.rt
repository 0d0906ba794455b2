//! Whose turn it is: where a worker begins its next pass.
//!
//! A pass begins only where its role has something to do, and roles take turns in the order of an issuance: once a role has
//! begun a pass it goes on with its further keys, and then the next role has its turn. Before it is looked whether a role has
//! something to do it is told of all that happened, and not before: a pass on views that are old would come to nothing or
//! meet a conflict, and a look after each write that concerns a key would mostly find nothing.
ghost use Rattle.std.specs.Prelude.{◌≡◌, IfOk, IfSome};
ghost use Rattle.cmc_workers.specs.Findings.{IsFound, IsWorkOpening};

use cmc_meta::Key;
use cmc_moves::let_go;
use cmc_objects::Role;
use cmc_world::{Opening, World};
use std::alloc::{AllocError, Global};

/// A role that has begun a pass, and the key on which it has.
#[derive(Drop)]
struct Turn {
    role: Role,
    key: Key,
}

impl Turn {
    fn of(opening: &Opening) -> Result<Turn, AllocError> {
        Ok(Turn {
            role: opening.role,
            key: opening.key.copy()?,
        })
    }
}

/// The order in which roles have their turns, all round: that of an issuance. The key manager has two turns on end, since it
/// makes a key and then writes its name down, and two more after the certificate, where it clears both away. What the last
/// two look at is written by then. A role that has nothing to do passes its turn on.
pub(crate) const ROUND: [Role; 11] = [
    Role::Trigger,
    Role::KeyManager,
    Role::KeyManager,
    Role::RequestManager,
    Role::Approver,
    Role::Issuer,
    Role::Issuing,
    Role::KeyManager,
    Role::KeyManager,
    Role::Revision,
    Role::Readiness,
];

/// The roles after the issuers' answers. They ask nobody: they decide, and write.
pub(crate) const ASKING_NOBODY: [Role; 3] = [Role::Issuing, Role::Readiness, Role::Revision];

/// A pass on the next key above that of the turn on which its role has something to do; `None` where it is nobody's turn, or
/// there is no such key.
fn next_in(
    alloc: Global,
    world: &mut World,
    turn: &Option<Turn>,
) -> Result<Option<Opening>, AllocError>
    ensures opening { IfOk result (λ o. IfSome o (IsWorkOpening world.new)) }
    ensures same { world.new ≡ world.old }
{
    match turn {
        Some(Turn { role, key }) => world.next_work(alloc, *role, Some(key)),
        None => Ok(None),
    }
}

/// What a look for the next pass comes to.
#[derive(Drop)]
pub(crate) enum Found {
    /// This pass may begin.
    Work(Opening),
    /// The role has to be told of something first.
    Behind(Role),
    /// Nothing is to be done.
    Nothing,
}

/// A pass on the first key of the role that has something to do, where the role has nothing to be told of before.
fn first_of(alloc: Global, world: &mut World, role: Role) -> Result<Found, AllocError>
    ensures found { IfOk result (IsFound world.new) }
    ensures same { world.new ≡ world.old }
{
    if let Some(step) = world.next_delivery_to(role) {
        let_go(step);
        return Ok(Found::Behind(role));
    }
    match world.next_work(alloc, role, None)? {
        Some(opening) => Ok(Found::Work(opening)),
        None => Ok(Found::Nothing),
    }
}

/// What the first of the roles comes to that has something to do, or to be told of, and how many stand before it.
fn first_among(
    alloc: Global,
    world: &mut World,
    roles: &[Role],
) -> Result<(usize, Found), AllocError>
    ensures found { IfOk result (λ f. IsFound world.new f.1) }
    ensures same { world.new ≡ world.old }
{
    for (place, role) in roles.iter().enumerate() {
        match first_of(alloc, world, *role)? {
            Found::Nothing => {}
            found => return Ok((place, found)),
        }
    }
    Ok((0, Found::Nothing))
}

/// What the first of the roles after this many of them, and then all round, comes to that has something to do, or to be told
/// of, and how many stand before it.
fn first_behind(
    alloc: Global,
    world: &mut World,
    roles: &[Role],
    places: usize,
) -> Result<(usize, Found), AllocError>
    ensures found { IfOk result (λ f. IsFound world.new f.1) }
    ensures same { world.new ≡ world.old }
{
    let (before, behind) = roles.split_at(places.min(roles.len()));
    match first_among(alloc, world, behind)? {
        (_place, Found::Nothing) => first_among(alloc, world, before),
        (place, found) => Ok((places.saturating_add(place), found)),
    }
}

/// Where roles are that have their turns one after another.
#[derive(Drop)]
pub(crate) struct Round {
    /// Whose turn it is.
    turn: Option<Turn>,
    /// How many roles have their turns before the next one.
    places: usize,
}

impl Round {
    /// Nobody's turn: the first role comes next.
    pub(crate) fn new() -> Round {
        Round {
            turn: None,
            places: 0,
        }
    }

    /// Where the next pass may begin, and notes whose turn it is by that: on a further key of the role whose turn it is, or of the
    /// first role after it, all round, that has something to do.
    pub(crate) fn next(
        &mut self,
        alloc: Global,
        world: &mut World,
        roles: &[Role],
    ) -> Result<Found, AllocError>
        ensures found { IfOk result (IsFound world.new) }
        ensures same { world.new ≡ world.old }
    {
        if let Some(opening) = next_in(alloc, world, &self.turn)? {
            self.turn = Some(Turn::of(&opening)?);
            return Ok(Found::Work(opening));
        }
        let (place, found) = first_behind(alloc, world, roles, self.places)?;
        if let Found::Work(opening) = &found {
            self.turn = Some(Turn::of(opening)?);
            self.places = place.saturating_add(1);
        }
        Ok(found)
    }
}
