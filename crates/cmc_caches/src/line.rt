//! Lines of the numbers of accepted writes.
ghost use Rattle.std.specs.Prelude.{◌≡◌, ◌+◌, ◌<◌, ◌≤◌, ◌∷◌, [], IfOk, OnOk, OnErr, reverse};

use std::alloc::{AllocError, Global};
use std::marker::Model;

/// Numbers of writes, of which none is below one before it. Contracts see the newest first.
pub(crate) struct Line {
    numbers: Vec<u64>,
}

impl Drop for Line {
    fn drop(self) {
        let Line { numbers: _numbers } = self;
    }
}

impl Model for Line {
    ghost use Rattle.std.specs.Prelude.{◌-◌, reverse, vec_capacity, vec_len};
    ghost use Rattle.cmc_caches.specs.Lines.{Lined};

    ghost Value = { Lined };

    ghost view = { λ l. record { numbers = reverse l.numbers.items; spare = vec_capacity l.numbers - vec_len l.numbers } };
}

impl Line {
    /// No numbers. It takes no memory.
    pub(crate) fn new(alloc: Global) -> Line
        ensures { result.numbers ≡ [] }
    {
        Line {
            numbers: Vec::new(alloc),
        }
    }

    /// Makes room for one more number, and changes nothing else.
    pub(crate) fn room(&mut self) -> Result<(), AllocError>
        ensures room { OnOk result (0 < self.new.spare) }
        ensures same { self.new.numbers ≡ self.old.numbers }
    {
        self.numbers.reserve(1)
    }

    /// Puts a number before the others. It takes no memory.
    pub(crate) fn push(&mut self, number: u64)
        requires { 0 < self.old.spare }
        ensures { self.new.numbers ≡ number ∷ self.old.numbers }
    {
        self.numbers.push(number).unwrap();
    }

    /// Puts a number before the others, and makes the room for it.
    pub(crate) fn add(&mut self, number: u64) -> Result<(), AllocError>
        ensures ok { OnOk result (self.new.numbers ≡ number ∷ self.old.numbers) }
        ensures err { OnErr result (self.new.numbers ≡ self.old.numbers) }
    {
        self.room()?;
        self.push(number);
        Ok(())
    }

    /// The numbers, the oldest first.
    pub(crate) fn as_slice(&self) -> &[u64]
        ensures { reverse result.now ≡ self.now.numbers }
    {
        self.numbers.as_slice()
    }
}
