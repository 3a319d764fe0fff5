//! Requests and replies in frames: encoded, sent, read and decoded.
#![tactic(auto)]

mod lists;
mod replies;
mod requests;
mod row_writing;
mod rows;
mod sending;
mod sending_keys;
pub mod short;
mod spelled;
mod spelled_lists;
mod transport;
mod unique;

pub use replies::decode_reply;
pub use requests::decode_request;
pub use sending::{
    encode_bye, encode_delete, encode_find, encode_get, encode_node, encode_push, encode_put,
    encode_range, encode_reply, encode_request, encode_row, encode_rows,
};
pub use sending_keys::{encode_bucket, encode_conflicts, encode_hello, encode_keys};
pub use short::{Short, short_reply};
pub use transport::{read_frame, write_frame};
pub use unique::{
    can_be_sent, decoded_again, old_states_are_short, one_spelling, one_text, spelled_states,
};
