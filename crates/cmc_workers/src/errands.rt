//! What is done for passes outside of the lock, and what comes back.
ghost use Rattle.std.specs.Prelude.{◌≡◌};

use cmc_kernel::{Begun, Decided};
use cmc_objects::Order;
use cmc_pass::Given;
use cmc_world::Point;

/// A pass that a thread has begun, and alone goes on with.
#[derive(Clone, Copy)]
pub(crate) struct Taken {
    pub pass: u64,
    pub incarnation: u64,
}

/// What a pass waits for.
#[derive(Drop)]
pub(crate) enum Task {
    /// A value for its question.
    Value(Order),
    /// That its role decides, on what it saw and on nothing else.
    Decision(Begun),
}

/// A piece of work for a pass, and the point to tell the gate before.
pub(crate) struct Errand {
    taken: Taken,
    point: Point,
    task: Task,
}

impl Drop for Errand {
    fn drop(self) {
        let Errand {
            taken: _taken,
            point: _point,
            task: _task,
        } = self;
    }
}

impl Errand {
    pub(crate) fn new(taken: Taken, point: Point, task: Task) -> Errand
        ensures { result ≡ record { taken = taken; point = point; task = task } }
    {
        Errand { taken, point, task }
    }

    pub(crate) fn into_parts(self) -> (Taken, Point, Task)
        ensures { result ≡ (self.taken, self.point, self.task) }
    {
        let Errand { taken, point, task } = self;
        (taken, point, task)
    }
}

/// What a thread made of its errand.
#[derive(Drop)]
pub(crate) enum Answer {
    /// A value for the question of the pass.
    Value(Given),
    /// What the role of the pass decided.
    Decision(Decided),
    /// The role of the pass decides in the world.
    Nothing,
}

/// What a thread brings back for a pass.
pub(crate) struct Outcome {
    taken: Taken,
    answer: Answer,
}

impl Drop for Outcome {
    fn drop(self) {
        let Outcome {
            taken: _taken,
            answer: _answer,
        } = self;
    }
}

impl Outcome {
    pub(crate) fn new(taken: Taken, answer: Answer) -> Outcome
        ensures { result ≡ record { taken = taken; answer = answer } }
    {
        Outcome { taken, answer }
    }

    pub(crate) fn into_parts(self) -> (Taken, Answer)
        ensures { result ≡ (self.taken, self.answer) }
    {
        let Outcome { taken, answer } = self;
        (taken, answer)
    }
}
