//! What policies answer.

/// The first thing of a request that a policy does not allow, in this order.
#[derive(Clone, Copy, PartialEq, Eq)]
pub enum Field {
    CommonName,
    DnsNames,
    IpAddresses,
    Uris,
    EmailAddresses,
    Usages,
    IsCA,
    MinDuration,
    MaxDuration,
    Algorithm,
    MinSize,
    MaxSize,
}

/// What a list of policies decides of a request. Places count from 0.
#[derive(Clone, Copy)]
pub enum Decision {
    /// The policy at this place allows it.
    Yes { place: u64 },
    /// Policies are for its issuer, and none allows it; the first of them stands at this place, and does not
    /// allow this field.
    No { place: u64, field: Field },
    /// No policy is for its issuer.
    Unbound,
}
