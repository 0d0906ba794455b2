//! Lists of patterns, and of texts.
use crate::pattern::Pattern;
use cmc_meta::Items;

/// A list of patterns; contracts see the list of their bytes.
pub type Patterns = Items<Pattern>;
