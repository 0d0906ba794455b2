//! Where the workers are, and whether one of those that sleep is to be called.
//!
//! A worker that goes away with an errand may stay for long, and others may find more to do. It calls one only where all the
//! others sleep or are away themselves: those that are at home look for more to do anyway, and each worker more that looks
//! waits for the one lock.
ghost use Rattle.std.specs.Prelude.{◌≡◌, ◌↔◌, ◌&&◌, ◌==◌, ◌<◌, ◌≤◌, IsTrue, nat_lt, if◌then◌else◌};
ghost use Rattle.cmc_workers.specs.Crews as spec;
ghost use Rattle.cmc_workers.specs.Crews.{less, more};

/// How many workers are where.
#[derive(Clone, Copy)]
pub(crate) struct Crew {
    /// How many workers there are.
    workers: u32,
    /// How many of them are away with an errand.
    away: u32,
    /// How many of these wait for the value of a question.
    asking: u32,
    /// How many workers sleep, or come now.
    asleep: u32,
    /// How many of these are called or come now, and are not there yet.
    called: u32,
}

impl Crew {
    /// So many workers, who all come now.
    pub(crate) fn new(workers: u32) -> Crew
        ensures { result ≡ record { workers = workers; away = 0; asking = 0; asleep = workers; called = workers } }
    {
        Crew {
            workers,
            away: 0,
            asking: 0,
            asleep: workers,
            called: workers,
        }
    }

    /// How many workers are at home: they neither sleep nor are away, or they are called.
    fn at_home(&self) -> u32
        ensures { result ≡ spec.at_home self.now }
    {
        self.workers
            .saturating_sub(self.away)
            .saturating_sub(self.asleep)
            .saturating_add(self.called)
    }

    /// Notes that a worker goes away with an errand, and says whether it has to call another one.
    pub(crate) fn leave(&mut self) -> bool
        ensures calls { result ≡ ((spec.at_home (spec.with_one_away self.old) == 0) && nat_lt 0 self.old.asleep) }
        ensures crew { self.new ≡ (if result then spec.with_one_called (spec.with_one_away self.old) else spec.with_one_away self.old) }
    {
        self.away = self.away.saturating_add(1);
        let calls = self.at_home() == 0 && self.asleep > 0;
        if calls {
            self.called = self.called.saturating_add(1);
        }
        calls
    }

    /// Notes that a worker comes back from its errand.
    pub(crate) fn come_back(&mut self)
        ensures { self.new ≡ record self.old { away = less self.old.away } }
    {
        self.away = self.away.saturating_sub(1);
    }

    /// Notes that a worker which is away waits for the value of a question.
    pub(crate) fn ask(&mut self)
        ensures { self.new ≡ record self.old { asking = more self.old.asking } }
    {
        self.asking = self.asking.saturating_add(1);
    }

    /// Notes that a worker has the value that it waited for.
    pub(crate) fn answer(&mut self)
        ensures { self.new ≡ record self.old { asking = less self.old.asking } }
    {
        self.asking = self.asking.saturating_sub(1);
    }

    /// Notes that a worker falls asleep.
    pub(crate) fn fall_asleep(&mut self)
        ensures { self.new ≡ record self.old { asleep = more self.old.asleep } }
    {
        self.asleep = self.asleep.saturating_add(1);
    }

    /// Notes that a worker comes at once: as one that sleeps and is called.
    pub(crate) fn stand_by(&mut self)
        ensures { self.new ≡ record self.old { asleep = more self.old.asleep; called = more self.old.called } }
    {
        self.asleep = self.asleep.saturating_add(1);
        self.called = self.called.saturating_add(1);
    }

    /// Notes that a worker, which sleeps and may be called, has come.
    pub(crate) fn wake(&mut self)
        ensures { self.new ≡ record self.old { asleep = less self.old.asleep; called = less self.old.called } }
    {
        self.asleep = self.asleep.saturating_sub(1);
        self.called = self.called.saturating_sub(1);
    }

    /// Whether a worker has to be called where there may be more to do: one sleeps, and none is called yet. It counts as called
    /// from then on.
    pub(crate) fn call(&mut self) -> bool
        ensures calls { result ≡ ((self.old.called == 0) && nat_lt 0 self.old.asleep) }
        ensures crew { self.new ≡ (if result then spec.with_one_called self.old else self.old) }
    {
        let calls = self.called == 0 && self.asleep > 0;
        if calls {
            self.called = self.called.saturating_add(1);
        }
        calls
    }

    /// Whether all other workers wait for values of questions.
    pub(crate) fn is_alone(&self) -> bool
        ensures { IsTrue result ↔ ((0 < self.now.asking) × (self.now.workers ≤ more self.now.asking)) }
    {
        self.asking > 0 && self.asking.saturating_add(1) >= self.workers
    }
}
