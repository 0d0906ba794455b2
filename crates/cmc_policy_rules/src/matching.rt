//! Patterns in which `*` stands for any bytes.
ghost use Rattle.std.specs.Prelude.{◌≡◌, ◌↔◌, ◌∷◌, IsTrue, MatchOption};
ghost use Rattle.cmc_policy_rules.specs.Patterns.{star, MatchesPattern, is_match, IsStarless, IsCutAtStar, IsFirstPlace, OccursNowhere};

/// Whether the text matches the pattern: each `*` stands for any bytes, also for none, and each other byte for
/// itself (approver-policy: `*` is the only wildcard). It takes time in proportion to the product of both
/// lengths at most, since of the places of each piece between two stars only the leftmost is tried.
pub fn matches(pattern: &[u8], text: &[u8]) -> bool
    ensures decides { IsTrue result ↔ MatchesPattern pattern.now text.now }
    ensures value { result ≡ is_match pattern.now text.now }
{
    fits(pattern, text)
}

// The same, by the pieces between the stars.
fn fits(pattern: &[u8], text: &[u8]) -> bool
    ensures { IsTrue result ↔ MatchesPattern pattern.now text.now }
{
    let Some((piece, behind)) = cut(pattern) else {
        return pattern == text;
    };
    match text.strip_prefix(piece) {
        Some(rest) => matches_behind_star(behind, rest),
        None => false,
    }
}

// Whether the text matches a star and then the pattern.
fn matches_behind_star(pattern: &[u8], text: &[u8]) -> bool
    ensures { IsTrue result ↔ MatchesPattern (star ∷ pattern.now) text.now }
{
    let mut left = pattern;
    let mut rest = text;
    while let Some((piece, behind)) = cut(left) {
        let Some(later) = find(rest, piece) else {
            return false;
        };
        left = behind;
        rest = later;
    }
    rest.ends_with(left)
}

// The bytes before the first star, and those after it; None where there is no star.
fn cut(pattern: &[u8]) -> Option<(&[u8], &[u8])>
    ensures { MatchOption result (IsStarless pattern.now) (λ parts. IsCutAtStar pattern.now parts.0.now parts.1.now) }
{
    let at = pattern.iter().position(|byte| *byte == b'*')?;
    Some((&pattern[..at], &pattern[at + 1..]))
}

// What follows the piece where it stands first; None where it stands nowhere.
fn find<'t>(text: &'t [u8], piece: &[u8]) -> Option<&'t [u8]>
    ensures { MatchOption result (OccursNowhere text.now piece.now) (λ rest. IsFirstPlace text.now piece.now rest.now) }
{
    let mut left = text;
    loop {
        if let Some(rest) = left.strip_prefix(piece) {
            return Some(rest);
        }
        match left {
            [] => return None,
            [_, later @ ..] => left = later,
        }
    }
}
