use crate::items::{Item, Items};
use crate::text::Text;
use std::alloc::AllocError;

/// A list of texts; contracts see the list of their bytes.
pub type Texts = Items<Text>;

impl Item for Text {
    fn copy(&self) -> Result<Text, AllocError> {
        Text::copy(self)
    }

    fn same(&self, other: &Text) -> bool {
        Text::same(self, other)
    }
}
