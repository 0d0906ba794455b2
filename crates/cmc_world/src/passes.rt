//! The open pass of least number.
ghost use Rattle.cmc_kernel.specs.Kept.{on};
ghost use Rattle.cmc_world.specs.Searches.{FindsPass};

use cmc_kernel::Kernel;

/// A pass that goes on, and the present incarnation of its role.
#[derive(Clone, Copy)]
pub(crate) struct Going {
    pub pass: u64,
    pub incarnation: u64,
}

/// The open pass of least number; `None` exactly where no pass is open.
pub(crate) fn first_pass(kernel: &Kernel) -> Option<Going>
    ensures { on FindsPass kernel.now result }
{
    match kernel.passes().by_number().first_key_value() {
        Some((number, pass)) => Some(Going {
            pass: *number,
            incarnation: kernel.incarnation(pass.role),
        }),
        None => None,
    }
}
