//! One text of a policy or of a request.
use cmc_meta::Bytes;

/// A list of bytes: a pattern of a policy, in which `*` stands for any bytes, or a text of a request.
pub type Pattern = Bytes;
