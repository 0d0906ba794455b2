//! What is kept of one key.
ghost use Rattle.std.specs.Prelude.{◌≡◌, if◌then◌else◌};
ghost use Rattle.cmc_queue.specs.Rows.{added, earlier, ended, is_due, is_free, is_fresh, is_pending, is_reached, is_something, is_unknown, lapsed, left, looked, may_work, moved, no_row, parked_for, qualifies, taken, ticked, timed_at};

use cmc_meta::Kind;

/// What the last look at a key found.
#[derive(Clone, Copy)]
pub enum Found {
    /// Nothing was found out since the key was made ready.
    Unknown,
    /// There is nothing to do on the key but to see what is new.
    Nothing,
    /// There is something to do on the key. This holds until the next tick.
    Something,
}

impl Found {
    /// Whether a look is needed.
    pub fn is_unknown(self) -> bool
        ensures { result ≡ is_unknown self }
    {
        matches!(self, Found::Unknown)
    }

    /// Whether there is something to do.
    pub fn is_something(self) -> bool
        ensures { result ≡ is_something self }
    {
        matches!(self, Found::Something)
    }

    /// Whether there may be something to do.
    pub fn may_work(self) -> bool
        ensures { result ≡ may_work self }
    {
        !matches!(self, Found::Nothing)
    }

    /// What is still known at the next moment.
    pub fn lapsed(self) -> Found
        ensures { result ≡ lapsed self }
    {
        match self {
            Found::Unknown => Found::Unknown,
            Found::Nothing => Found::Nothing,
            Found::Something => Found::Unknown,
        }
    }
}

/// What a search asks for.
#[derive(Clone, Copy)]
pub(crate) enum Sort {
    /// Keys that can be given.
    Free,
    /// Those of them that are to be looked at.
    Fresh,
    /// Those of them on which there may be something to do.
    Pending,
    /// Keys on which a look found something to do.
    Found,
}

/// What a key waits for: that its controller is told of this version of the kind.
#[derive(Clone, Copy)]
pub struct Parked {
    /// The kind of the object.
    pub kind: Kind,
    /// The version, which counts all accepted writes.
    pub version: u64,
}

/// What is kept of one key.
#[derive(Clone, Copy)]
pub struct Row {
    /// There is something to do on the key.
    pub ready: bool,
    /// What the last look at the key found, where it is ready.
    pub work: Found,
    /// The key was given, and its work is not done.
    pub working: bool,
    /// Until when the key waits for a version, if it does.
    pub parked: Option<Parked>,
    /// The moment at which the key will be ready, in seconds since 1970, if there is one.
    pub timed: Option<i64>,
}

impl Row {
    /// Nothing is to be done.
    pub fn new() -> Row
        ensures { result ≡ no_row }
    {
        Row {
            ready: false,
            work: Found::Unknown,
            working: false,
            parked: None,
            timed: None,
        }
    }

    /// Whether the key can be given: it is ready, and not in process.
    pub fn is_free(self) -> bool
        ensures { result ≡ is_free self }
    {
        self.ready && !self.working
    }

    /// The row of the key once it is ready.
    pub fn added(self) -> Row
        ensures { result ≡ added self }
    {
        Row {
            ready: true,
            work: Found::Unknown,
            working: self.working,
            parked: self.parked,
            timed: self.timed,
        }
    }

    /// Whether the key can be given, and is to be looked at.
    pub fn is_fresh(self) -> bool
        ensures { result ≡ is_fresh self }
    {
        self.is_free() && self.work.is_unknown()
    }

    /// Whether the key can be given, and there may be something to do.
    pub fn is_pending(self) -> bool
        ensures { result ≡ is_pending self }
    {
        self.is_free() && self.work.may_work()
    }

    /// Whether the row is one that a search of the sort asks for.
    pub(crate) fn qualifies(self, sort: Sort) -> bool
        ensures { result ≡ qualifies sort self }
    {
        match sort {
            Sort::Free => self.is_free(),
            Sort::Fresh => self.is_fresh(),
            Sort::Pending => self.is_pending(),
            Sort::Found => self.work.is_something(),
        }
    }

    /// The row of the key once it is given, where it can be given.
    pub fn taken(self) -> Row
        ensures { result ≡ taken self }
    {
        if self.is_free() {
            return Row {
                ready: false,
                work: Found::Unknown,
                working: true,
                parked: self.parked,
                timed: self.timed,
            };
        }
        self
    }

    /// The row of the key once a look found this.
    pub fn looked(self, work: Found) -> Row
        ensures { result ≡ looked work self }
    {
        Row {
            ready: self.ready,
            work,
            working: self.working,
            parked: self.parked,
            timed: self.timed,
        }
    }

    /// The row of the key once a look found that it may be left alone.
    pub fn left(self) -> Row
        ensures { result ≡ left self }
    {
        Row {
            ready: false,
            work: Found::Unknown,
            working: self.working,
            parked: self.parked,
            timed: self.timed,
        }
    }

    /// The row of the key once its work is done.
    pub fn ended(self) -> Row
        ensures { result ≡ ended self }
    {
        Row {
            ready: self.ready,
            work: self.work,
            working: false,
            parked: self.parked,
            timed: self.timed,
        }
    }

    /// The row of the key once it waits for this version of the kind.
    pub fn parked_for(self, kind: Kind, version: u64) -> Row
        ensures { result ≡ parked_for kind version self }
    {
        Row {
            ready: self.ready,
            work: self.work,
            working: self.working,
            parked: Some(Parked { kind, version }),
            timed: self.timed,
        }
    }

    /// The moment, or the earlier one at which the key is timed.
    fn earlier(self, at: i64) -> i64
        ensures { result ≡ earlier at self.timed }
    {
        match self.timed {
            Some(old) => { if old <= at { old } else { at } }
            None => at,
        }
    }

    /// The row of the key once it is timed at the moment, where it is not timed earlier.
    pub fn timed_at(self, at: i64) -> Row
        ensures { result ≡ timed_at at self }
    {
        Row {
            ready: self.ready,
            work: self.work,
            working: self.working,
            parked: self.parked,
            timed: Some(self.earlier(at)),
        }
    }

    /// Whether the key's moment has come.
    pub fn is_due(self, now: i64) -> bool
        ensures { result ≡ is_due now self.timed }
    {
        match self.timed {
            Some(at) => at <= now,
            None => false,
        }
    }

    /// The row of the key at the moment `now`.
    #[tactic(auto, unfolding(crate::specs::Rows::ticked))]
    pub fn ticked(self, now: i64) -> Row
        ensures { result ≡ ticked now self }
    {
        if self.is_due(now) {
            return Row {
                ready: true,
                work: Found::Unknown,
                working: self.working,
                parked: self.parked,
                timed: None,
            };
        }
        Row {
            ready: self.ready,
            work: self.work.lapsed(),
            working: self.working,
            parked: self.parked,
            timed: self.timed,
        }
    }

    /// Whether the key waits for this version of the kind or an earlier one.
    pub fn is_reached(self, kind: Kind, to: u64) -> bool
        ensures { result ≡ is_reached kind to self.parked }
    {
        match self.parked {
            Some(parked) => parked.kind == kind && parked.version <= to,
            None => false,
        }
    }

    /// The row of the key once its controller is told of the kind up to this version.
    #[tactic(auto, unfolding(crate::specs::Rows::moved))]
    pub fn moved(self, kind: Kind, to: u64) -> Row
        ensures { result ≡ moved kind to self }
    {
        if self.is_reached(kind, to) {
            return Row {
                ready: true,
                work: Found::Unknown,
                working: self.working,
                parked: None,
                timed: self.timed,
            };
        }
        self
    }
}
