// Lists of lines.
ghost use Rattle.std.specs.List.{flat_map};
ghost use Rattle.std.specs.Prelude.{◌≡◌, ◌++◌, ◌∷◌, [], IfOk, OnOk, OnErr, map, string_bytes};
ghost use Rattle.cmc_report.specs.Text.{joined};

use std::alloc::{AllocError, Global};
use std::marker::Model;

/// Lines of a text; contracts see the bytes of each.
#[derive(Drop)]
pub struct Lines {
    items: Vec<String>,
}

impl Model for Lines {
    ghost use Rattle.std.specs.Prelude.{List, ℕ, map, string_bytes};

    ghost Value = { List (List ℕ) };

    ghost view = { λ l. map string_bytes l.items.items };
}

impl Lines {
    /// No lines. It takes no memory.
    pub fn new(alloc: Global) -> Lines
        ensures { result ≡ [] }
    {
        Lines {
            items: Vec::new(alloc),
        }
    }

    /// Adds a line at the end.
    pub fn push(&mut self, line: String) -> Result<(), AllocError>
        ensures ok { OnOk result (self.new ≡ self.old ++ string_bytes line ∷ []) }
        ensures err { OnErr result (self.new ≡ self.old) }
    {
        self.items.push(line)?;
        Ok(())
    }

    /// The lines, as a slice.
    #[tactic(auto, using(crate::proofs::Joining::joined_strings))]
    pub fn as_slice(&self) -> &[String]
        ensures each { map string_bytes result.now ≡ self.now }
        ensures whole { flat_map string_bytes result.now ≡ joined self.now }
    {
        self.items.as_slice()
    }

    /// Equal lines.
    pub fn copy(&self) -> Result<Lines, AllocError>
        ensures { IfOk result (λ l. l ≡ self.now) }
    {
        Ok(Lines {
            items: copy_strings(*self.items.allocator(), self.items.as_slice())?,
        })
    }
}

fn copy_strings(alloc: Global, strings: &[String]) -> Result<Vec<String>, AllocError>
    ensures { IfOk result (λ v. map string_bytes v.items ≡ map string_bytes strings.now) }
{
    let mut items = Vec::new(alloc);
    for string in strings {
        items.push(string.clone()?)?;
    }
    Ok(items)
}
