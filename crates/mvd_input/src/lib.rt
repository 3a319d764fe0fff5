//! What comes in from outside, as it is written: the command line, the lines of a script, files of definitions, and
//! lines of hexadecimal digits, each within its limit.
#![tactic(auto)]

mod addresses;
mod command;
mod command_words;
mod defs_file;
mod fault;
mod hexadecimal;
mod input;
mod name_lists;
mod options;
mod order;
pub mod pass_files;
pub mod pass_lines;
mod token_texts;

pub use addresses::addresses_of;
pub use command::{Ask, Command, Line, Typed, View, line_of, typed_of};
pub use command_words::RELEASE;
pub use defs_file::{DEFS_MAX, add_index, add_view, read_defs, text_of};
pub use fault::Fault;
pub use hexadecimal::{BYTES_MAX, HEX_MAX, first_line, hex_bytes};
pub use input::{read_input, tell, write_out};
pub use options::{Named, Peers};
pub use order::{MOST_KEYS, Order, OrderFault, Setup, order_of};
pub use pass_files::{PassFault, TOKEN_FILE_MAX, passes_in};
pub use pass_lines::{PassLine, pass_line};
