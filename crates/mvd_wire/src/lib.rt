//! Requests and replies; how they and what they hold are spelled in bytes; and the spelling of keys and states, read
//! and written.
#![tactic(auto)]

mod context_bytes;
mod encoding;
pub mod ending;
pub mod frame;
pub mod items;
mod lengths;
mod limits;
mod number_bytes;
pub mod prefix;
pub mod reply;
pub mod request;
mod state_bytes;
pub mod token;
mod values;
pub mod version;
mod writing;

pub use context_bytes::context_at;
pub use encoding::{encode_key, encode_state};
pub use ending::Ending;
pub use frame::Frame;
pub use items::Items;
pub use lengths::state_length;
pub use limits::{DOCUMENT_LIMIT, FRAME_LIMIT, OLD_STATE_LIMIT, PAGE_LIMIT, STATE_LIMIT};
pub use number_bytes::{byte_at, raw_at, u16_at, u32_at, u64_at};
pub use prefix::Prefix;
pub use reply::{Digests, Reply, RowValue};
pub use request::Request;
pub use state_bytes::{decode_old_state, decode_state, state_at};
pub use token::Token;
pub use values::{document_at, dot_at, key_at, prefix_at, token_at};
pub use version::Version;
pub use writing::{
    write_context, write_document, write_dot, write_key, write_len16, write_prefix, write_state,
    write_token, write_u32, write_u64,
};
