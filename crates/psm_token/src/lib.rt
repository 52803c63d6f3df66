//! The tokens of a file: names, words, numbers, texts and signs (ISO/IEC 9075:1992, 5.1 to 5.4).
#![tactic(auto)]

mod fault;
mod front;
mod laws;
mod lexer;
mod list;
mod piece;
mod place;
mod quoted;
mod scan;
mod sign;
mod token;
mod word;

pub use fault::LexFault;
pub use laws::one_list;
pub use lexer::tokens;
pub use list::TokenList;
pub use place::Place;
pub use sign::Sign;
pub use token::{NAME_KIND, NUMBER_KIND, Placed, TEXT_KIND, Token};
pub use word::Word;
