// Paths: what leads from a value down to what fails.
ghost use Rattle.std.specs.Prelude.{◌≡◌, ◌++◌, ◌∷◌, [], IfOk, decimal};
ghost use Rattle.cmc_cursor.specs.Members.{dotted, text_of};

use cmc_meta::{Text, Texts};
use std::alloc::{AllocError, Global};

/// The path of a member.
pub fn path_to(alloc: Global, name: &str) -> Result<Texts, AllocError>
    ensures { IfOk result (λ path. path ≡ name.now ∷ []) }
{
    let mut path = Texts::new(alloc);
    path.push(Text::from_str(alloc, name)?)?;
    Ok(path)
}

/// The path of a place in a list: its decimal digits are its name.
pub fn path_to_place(alloc: Global, place: usize) -> Result<Texts, AllocError>
    ensures { IfOk result (λ path. path ≡ decimal place ∷ []) }
{
    path_to(alloc, place.to_string(alloc)?.as_str())
}

/// The path `path` below the member `name`.
pub(crate) fn below(alloc: Global, name: &str, path: &Texts) -> Result<Texts, AllocError>
    ensures { IfOk result (λ longer. longer ≡ name.now ∷ path.now) }
{
    let mut longer = path_to(alloc, name)?;
    for step in path.as_slice() {
        longer.push(step.copy()?)?;
    }
    Ok(longer)
}

/// The text of a path: its names joined by dots, an empty name like any other. So the text is empty for the value
/// itself and for a member whose name is empty.
pub fn path_text(alloc: Global, path: &Texts) -> Result<Text, AllocError>
    ensures { IfOk result (λ text. text ≡ text_of path.now) }
{
    match path.as_slice() {
        [] => Ok(Text::new(alloc)),
        [first, names @ ..] => joined(alloc, first, names),
    }
}

fn joined(alloc: Global, first: &Text, names: &[Text]) -> Result<Text, AllocError>
    ensures { IfOk result (λ text. text ≡ first.now ++ dotted names.now) }
{
    let mut joined = String::from_str(alloc, first.as_str())?;
    for name in names {
        joined.push_str(".")?;
        joined.push_str(name.as_str())?;
    }
    Text::from_str(alloc, joined.as_str())
}
