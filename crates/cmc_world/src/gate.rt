//! A gate before work that is handed out.

/// What is done outside of the controllers, for a pass that waits for its outcome.
#[derive(Clone, Copy)]
pub enum Work {
    /// A private key is made.
    Key,
    /// A certificate signing request is signed.
    Csr,
    /// An issuer is asked.
    Sign,
    /// The approver judges a request.
    Judge,
    /// A role decides by what its pass saw: issuing and the request manager, which read certificates and keys for it.
    Decide,
}

/// A piece of work that is about to be done.
#[derive(Clone, Copy)]
pub struct Point {
    pub work: Work,
    /// The number of the entry in which the pass asked for it, and of a decision of that in which it began.
    pub entry: u64,
}

/// Is called before each piece of work. It promises nothing, and may take its time: whoever tests a run in many threads
/// sees by it what is at work at once, and can hold it up.
pub trait Gate: Sync {
    /// The work of this point is about to be done.
    fn at(&self, point: Point);
}

/// A gate that holds nothing up.
#[derive(Drop)]
pub struct NoGate;

impl Gate for NoGate {
    fn at(&self, _point: Point) {}
}
