//! Words, numbers and lines of the project's texts.
#![tactic(auto)]

mod hex;
mod line;
mod lines;
mod numbers;
mod word_iter;

pub use line::{Line, put_byte, put_dec, put_hex, put_signed, put_word};
pub use lines::first_line;
pub use numbers::number;
pub use word_iter::{WordIter, words};
