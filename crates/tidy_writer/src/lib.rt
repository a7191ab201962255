// The tidy text, written from the tables: 01, "The tidy text".
#![tactic(auto)]

pub mod body;
pub mod element;
pub mod elements;
pub mod loops;
pub mod tidy_text;
pub mod vertices;
