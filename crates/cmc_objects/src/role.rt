ghost use Rattle.std.specs.Prelude.{◌≡◌, ◌↔◌, IsTrue};

/// The controllers, in the order in which a plain run lets them work.
#[derive(Clone, Copy)]
pub enum Role {
    /// Decides when a Certificate must be issued.
    Trigger,
    /// Makes the next private key.
    KeyManager,
    /// Makes the CertificateRequests.
    RequestManager,
    /// Approves or denies them.
    Approver,
    /// Asks the issuers.
    Issuer,
    /// Writes the Secret and ends an issuance.
    Issuing,
    /// Tells whether a Certificate is Ready.
    Readiness,
    /// Deletes old CertificateRequests.
    Revision,
}

impl Role {
    ghost use Rattle.cmc_objects.specs.Roles.{role_rank};

    /// All roles, in their order.
    pub const ALL: [Role; 8] = [
        Role::Trigger,
        Role::KeyManager,
        Role::RequestManager,
        Role::Approver,
        Role::Issuer,
        Role::Issuing,
        Role::Readiness,
        Role::Revision,
    ];

    /// The place in the order of roles, from 0.
    pub fn rank(self) -> u8
        ensures { result ≡ role_rank self }
    {
        match self {
            Role::Trigger => 0,
            Role::KeyManager => 1,
            Role::RequestManager => 2,
            Role::Approver => 3,
            Role::Issuer => 4,
            Role::Issuing => 5,
            Role::Readiness => 6,
            Role::Revision => 7,
        }
    }

    /// Whether both are one role.
    #[tactic(auto, using(crate::proofs::Ranks::role_of_rank))]
    pub fn same(self, other: Role) -> bool
        ensures { IsTrue result ↔ (self ≡ other) }
    {
        self.rank() == other.rank()
    }
}
