// Lists of steps.
ghost use Rattle.std.specs.Prelude.{◌≡◌, ◌↔◌, ◌++◌, ◌∷◌, [], IsTrue, IfOk, OnOk, OnErr};

use crate::sameness::same_steps;
use cmc_objects::Step;
use std::alloc::{AllocError, Global};
use std::marker::Model;

/// The steps of a script, in their order.
pub struct Steps {
    items: Vec<Step>,
}

impl Drop for Steps {
    fn drop(self) {
        let Steps { items: _items } = self;
    }
}

impl Model for Steps {
    ghost use Rattle.std.specs.Prelude.{List};
    ghost use Rattle.cmc_objects.specs.declared.entry.Step.{Step};

    ghost Value = { List Step };

    ghost view = { λ s. s.items.items };
}

impl Steps {
    /// No steps. It takes no memory.
    pub fn new(alloc: Global) -> Steps
        ensures { result ≡ [] }
    {
        Steps {
            items: Vec::new(alloc),
        }
    }

    /// Adds a step at the end.
    pub fn push(&mut self, step: Step) -> Result<(), AllocError>
        ensures ok { OnOk result (self.new ≡ self.old ++ step ∷ []) }
        ensures err { OnErr result (self.new ≡ self.old) }
    {
        self.items.push(step)?;
        Ok(())
    }

    /// The steps, as a slice.
    pub fn as_slice(&self) -> &[Step]
        ensures { result.now ≡ self.now }
    {
        self.items.as_slice()
    }

    /// An equal list.
    pub fn copy(&self) -> Result<Steps, AllocError>
        ensures { IfOk result (λ s. s ≡ self.now) }
    {
        Ok(Steps {
            items: copy_steps(*self.items.allocator(), self.items.as_slice())?,
        })
    }

    /// Whether both are equal, step by step.
    pub fn same(&self, other: &Steps) -> bool
        ensures { IsTrue result ↔ (self.now ≡ other.now) }
    {
        same_steps(self.items.as_slice(), other.items.as_slice())
    }
}

fn copy_steps(alloc: Global, steps: &[Step]) -> Result<Vec<Step>, AllocError>
    ensures { IfOk result (λ v. v.items ≡ steps.now) }
{
    let mut items = Vec::new(alloc);
    for step in steps {
        items.push(step.copy()?)?;
    }
    Ok(items)
}
