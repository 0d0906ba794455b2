//! What no clause says: that lines are kept and copied where memory is ample.
use crate::checks::passes;
use cmc_report::Lines;
use std::alloc::{AllocError, Global};
use std::test::Fail;

fn lines(alloc: Global) -> Result<Lines, AllocError> {
    let mut lines = Lines::new(alloc);
    lines.push(String::from_str(alloc, "one\n")?)?;
    lines.push(String::from_str(alloc, "two\n")?)?;
    Ok(lines)
}

fn are_two(lines: &[String]) -> bool {
    match lines {
        [_first, second] => second.as_str() == "two\n",
        _ => false,
    }
}

#[test]
fn copies_lines(rt: HostRuntime) -> Result<(), Fail> {
    let copied = lines(rt.alloc())?.copy()?;
    passes(&rt, "two lines", are_two(copied.as_slice()));
    Ok(())
}
