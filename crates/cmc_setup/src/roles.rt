// Lists of roles.
ghost use Rattle.std.specs.Prelude.{◌≡◌, ◌↔◌, ◌≤◌, ◌++◌, ◌∷◌, [], length, nat_lt, position, IsTrue, IfOk, OnOk, OnErr};
ghost use Rattle.cmc_objects.specs.Roles.{role_rank};
ghost use Rattle.cmc_setup.specs.Setups.{AreInOrder, IsAfter, is_among, place_among, with_role};

use crate::sameness::same_roles;
use cmc_objects::Role;
use std::alloc::{AllocError, Global};
use std::marker::Model;

/// Roles in their order, each once.
pub struct Roles {
    items: Vec<Role>,
}

impl Drop for Roles {
    fn drop(self) {
        let Roles { items: _items } = self;
    }
}

impl Model for Roles {
    ghost use Rattle.std.specs.Prelude.{List};
    ghost use Rattle.cmc_objects.specs.declared.role.Role.{Role};
    ghost use Rattle.cmc_setup.specs.Setups.{AreInOrder};

    ghost Value = { List Role };

    ghost view = { λ r. r.items.items };

    ghost invariant = { λ r. AreInOrder r.items.items };
}

impl Roles {
    /// No roles. It takes no memory.
    pub fn new(alloc: Global) -> Roles
        ensures { result ≡ [] }
    {
        Roles {
            items: Vec::new(alloc),
        }
    }

    /// Adds a role that comes after all of the list in the order of roles.
    pub fn push(&mut self, role: Role) -> Result<(), AllocError>
        requires { IsAfter self.old role }
        ensures ok { OnOk result (self.new ≡ self.old ++ role ∷ []) }
        ensures err { OnErr result (self.new ≡ self.old) }
    {
        self.items.push(role)?;
        Ok(())
    }

    /// Adds a role at its place in the order. One that is in the list already counts once.
    pub fn add(&mut self, role: Role) -> Result<(), AllocError>
        ensures ok { OnOk result (self.new ≡ with_role self.old role) }
        ensures err { OnErr result (self.new ≡ self.old) }
    {
        if !contains(self.items.as_slice(), role) {
            let place = place_of(self.items.as_slice(), role);
            self.items.insert(place, role)?;
        }
        Ok(())
    }

    /// The roles, as a slice.
    pub fn as_slice(&self) -> &[Role]
        ensures value { result.now ≡ self.now }
        ensures order { AreInOrder self.now }
    {
        self.items.as_slice()
    }

    /// An equal list.
    pub fn copy(&self) -> Result<Roles, AllocError>
        ensures { IfOk result (λ r. r ≡ self.now) }
    {
        Ok(Roles {
            items: copy_roles(*self.items.allocator(), self.items.as_slice())?,
        })
    }

    /// Whether both have the same roles.
    pub fn same(&self, other: &Roles) -> bool
        ensures { IsTrue result ↔ (self.now ≡ other.now) }
    {
        same_roles(self.items.as_slice(), other.items.as_slice())
    }
}

/// Whether the role is in the list.
pub fn contains(roles: &[Role], role: Role) -> bool
    ensures { result ≡ is_among roles.now role }
{
    roles.iter().any(|other| other.rank() == role.rank())
}

fn first_after(roles: &[Role], role: Role) -> Option<usize>
    ensures { result ≡ position (λ other. nat_lt (role_rank role) (role_rank other)) roles.now }
{
    roles.iter().position(|other| role.rank() < other.rank())
}

fn place_of(roles: &[Role], role: Role) -> usize
    ensures value { result ≡ place_among roles.now role }
    ensures most { result ≤ length roles.now }
{
    match first_after(roles, role) {
        Some(place) => place,
        None => roles.len(),
    }
}

fn copy_roles(alloc: Global, roles: &[Role]) -> Result<Vec<Role>, AllocError>
    ensures { IfOk result (λ v. v.items ≡ roles.now) }
{
    let mut items = Vec::new(alloc);
    for role in roles {
        items.push(*role)?;
    }
    Ok(items)
}
