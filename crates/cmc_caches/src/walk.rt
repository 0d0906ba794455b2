//! Lines of numbers walked from the newest on.
ghost use Rattle.std.specs.Prelude.{◌≡◌, false, reverse};
ghost use Rattle.cmc_meta.specs.declared.key.Key.{Key as KeyValue};
ghost use Rattle.cmc_model.specs.declared.write.Write.{Write as WriteValue};
ghost use Rattle.std.specs.Prelude.{List};
ghost use Rattle.cmc_caches.specs.Left.{AreFalling, has_left};
ghost use Rattle.cmc_caches.specs.Lines.{last_at};

/// The last of the numbers, the oldest of which comes first, that is not above the position; 0 where there is none. It
/// takes a step for each number above the position.
pub(crate) fn last_until(numbers: &[u64], position: u64) -> u64
    ensures { result ≡ last_at position (reverse numbers.now) }
{
    for newer in 0..numbers.len() {
        let number = numbers[numbers.len() - 1 - newer];
        if number <= position {
            return number;
        }
    }
    0
}

/// Whether one of the numbers, the oldest of which comes first, may be above the position.
pub(crate) fn has_newer(numbers: &[u64], position: u64) -> bool
    requires { AreFalling (reverse numbers.now) }
    ensures { result ≡ false → (k : KeyValue) → (ws : List WriteValue) → has_left position (reverse numbers.now) k ws ≡ false }
{
    if numbers.is_empty() {
        return false;
    }
    numbers[numbers.len() - 1] > position
}
