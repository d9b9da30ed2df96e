// The octets that every layer reads and writes (document 01, "Frames and elements" and "Why a call
// is turned away"): numbers, refusals, fields, addresses, frames' heads, elements' edges, times, and
// buffers.
#![tactic(auto)]

mod addresses;
mod buffers;
mod elements;
mod fields;
mod frames;
pub mod numbers;
mod refusals;
mod times;

pub use addresses::{address_at, is_group, same};
pub use buffers::{copy, put};
pub use elements::piece_end;
pub use fields::{array_at, high, low, octet, pair, pair_at, size};
pub use frames::{check_head, frame_kind};
pub use numbers::Kind;
pub use refusals::{Cause, Refusal};
pub use times::{good_time, time_at};
