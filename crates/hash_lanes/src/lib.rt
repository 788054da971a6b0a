//! Hashes of several messages of one length at once, and HMAC (RFC 2104) with them: a vector holds one word of each message.
//!
//! SHA-512 (FIPS 180-4, section 6.4) takes four: `sha512_of_four(&text, stride, length)`, and `FourMacs::new(&key)` with its `tags`. SHA-1
//! (section 6.1) takes eight: `sha1_of_eight` and `EightMacs`.
#![tactic(auto)]

mod block;
mod constants;
mod mac;
mod message;
mod pieces;
mod sha1_block;
mod sha1_mac;
mod sha1_message;
mod sha1_words;
mod words;

pub use mac::FourMacs;
pub use message::sha512_of_four;
pub use sha1_mac::EightMacs;
pub use sha1_message::sha1_of_eight;
