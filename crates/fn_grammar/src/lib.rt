//! The grammar of the function language, as a table of rules.
//!
//! A contract sees the letters of a text, the rules by which each part is written, the derivations
//! that may take any of them, with the trees that they make, and the place where no program goes
//! on. The code has the table, and which rule the next token chooses. Reading and writing of
//! programs is left to the crates above.
#![tactic(auto)]

mod choice;
mod expression_rules;
mod item_rules;
mod letter;
mod lexeme;
mod statement_rules;
mod symbol;
mod table;

pub use choice::choose;
pub use letter::{Letter, fits, is_terminal, value};
pub use lexeme::{Lexeme, text_of};
pub use symbol::{Action, Binary, Binding, Declaration, Part, Statement, Symbol, Unary};
pub use table::rules;
