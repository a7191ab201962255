// What is wrong with a line's words: the first that lacks its form, and what is held against a line whose words have their forms.
#![tactic(auto)]

pub mod tests; // what a word is tested for
pub mod word; // what is wrong with a word
pub mod walk; // the first word at fault
pub mod held; // what is held against a line whose words have their forms
