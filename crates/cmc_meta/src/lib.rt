//! Names, keys, metadata and conditions of Kubernetes objects.
//!
//! Each list type is a small newtype that contracts see as a list, or as pairs in order of key,
//! so that `≡` between two values speaks of their content alone.
#![tactic(auto)]

mod bytes;
mod conditions;
mod decimals;
mod items;
mod key;
mod name;
mod numbers;
mod object_meta;
mod owners;
mod pairs;
mod text;
mod texts;
mod wording;

pub use bytes::Bytes;
pub use conditions::{Condition, ConditionKind, Conditions, Tri};
pub use decimals::number_in;
pub use items::{Item, Items, copy_items, copy_optional, same_items, same_optional};
pub use key::{Key, Kind};
pub use name::{BadName, Name};
pub use numbers::Numbers;
pub use object_meta::ObjectMeta;
pub use owners::{OwnerRef, Owners};
pub use pairs::Pairs;
pub use text::Text;
pub use texts::Texts;
pub use wording::{is_clean, is_printable_name};
