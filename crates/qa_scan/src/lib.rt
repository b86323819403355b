//! The tokens of a line of JSON, read from its bytes.
//!
//! Each function is given bytes and gives what follows the token that they begin with, or nothing
//! where they begin with none that it reads. White space is read as the form of a token asks for
//! it, integers of up to sixteen digits at once, and strings where they are printable ASCII without
//! an escape. Numbers and strings of any other form are passed over, and their values are not read.
#![tactic(auto)]

mod digits;
mod numbers;
mod plain;
mod short;
mod strings;
mod tokens;
mod words;

pub use numbers::number;
pub use short::{short_integer, two_codes};
pub use strings::any_string;
pub use tokens::{
    begin_array, begin_object, boolean, colon, comma, end_array, end_object, ends_word, integer,
    null, open_boolean, open_integer, open_integer_at, skip_space, string,
};
pub use words::{after, after_byte, is_last};
