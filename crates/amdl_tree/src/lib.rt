//! Names, tokens, lists and the tree of a network text, with its spelling in tokens and its canonical layout.
#![tactic(auto)]

mod append;
mod boxed;
mod class;
mod guard;
mod laws;
mod list;
mod name;
mod reserved;
mod statement;
mod token;
mod tree;

pub use append::put_all;
pub use boxed::Boxed;
pub use class::{Class, Handler, Relation};
pub use guard::{Atom, Guard, Lit};
pub use laws::{
    built_by_parts, derivable_is_least, example_with_class, file_is_of_one_tree, layout_is_file,
    layout_is_one_to_one, layout_of_wire, layout_stands_for_spelling, parts_are_spelled_once,
    reserved_words_differ, shape_is_by_depth, spelling_is_one_to_one, spelling_of_wire,
    text_stands_once, valueless_is_not_built, words_split,
};
pub use list::{List, NoMemory};
pub use name::{Name, goes_on_with_a_word, starts_a_word};
pub use reserved::Reserved;
pub use statement::{Alternative, Stmt};
pub use token::{Lexed, Sign, Token};
pub use tree::{End, Equal, Item, Tree, same_pattern};
