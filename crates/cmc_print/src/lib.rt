//! Kubernetes objects as JSON: trees without floats, and the tree of each object.
//!
//! Absent fields, empty lists and what the store owns are left out, and members are in byte order.
#![tactic(auto)]

mod metadata;
mod printing;
mod puts;
mod spec_trees;
mod statuses;
mod tree;
mod words;

pub use printing::{applied_tree, tree_of, value_of};
pub use puts::{
    put_bytes, put_count, put_count_option, put_duration, put_if_true, put_members,
    put_small_count_option, put_some_bytes, put_text, put_texts, put_time, texts_tree,
};
pub use tree::{Members, Tree, Trees};
pub use words::{
    algorithm_word, condition_word, encoding_word, key_word, kind_word, moment_word, name_word,
    role_word, rotation_word, tri_word, uid_word,
};
