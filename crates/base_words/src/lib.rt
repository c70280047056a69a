//! Words and numbers of the program's texts: certificates, event lines, and the words that inject faults.
//!
//! The contract for the layers above: [`cut`] parts a text at the first of a byte, [`two_pieces`] where it has just one, and [`two_words`] and its like give the
//! words of a line where they are just so many. Words are the pieces between single spaces, empty ones included: a line
//! that ends in a space has an empty word after it. [`number_up_to`] takes a number up to a limit in its one spelling,
//! which is what [`push_number`] writes. [`words_are_cut_back`] says that what is joined by a byte is cut into the same
//! pieces. Begin with `specs/`.
#![tactic(auto)]

mod laws;
mod number;
mod pieces;
mod words;

pub use laws::words_are_cut_back;
pub use number::{number_up_to, push_number};
pub use pieces::cut;
pub use words::{begins, four_words, keyword, six_words, three_words, two_pieces, two_words};
