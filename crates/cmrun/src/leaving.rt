// Memory at the end of the program.
use std::mem;

/// Leaves the value to the system, which takes all memory back at once when the program ends, soon after this. To drop
/// a world and of a tree of JSON piece by piece would be up to a seventh of the work of a run.
pub fn leave<T: Drop>(value: T) {
    mem::forget(value);
}
