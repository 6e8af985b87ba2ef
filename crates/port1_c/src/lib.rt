//! The line decoder and encoder as a C library, in memory of the caller's.
#![tactic(auto)]

mod arrival;
mod bits;
mod call_bits;
mod calls;
mod clocking;
mod clocks;
mod entry;
pub mod laws;
mod lent_frame;
mod line;
mod pair;
mod pairing;
mod put;
mod report;
mod rest;
mod seen;
mod send;
mod sender;
mod status;
mod tap;
mod tapping;
mod wires;

pub use arrival::Port1Arrival;
pub use calls::{
    port1_line_feed, port1_line_feed_high_first, port1_line_init, port1_line_open, port1_line_push,
};
pub use clocking::{port1_clocks_feed, port1_clocks_init, port1_clocks_open, port1_clocks_push};
pub use clocks::Port1Clocks;
pub use entry::Port1Entry;
pub use lent_frame::LentFrame;
pub use line::Port1Line;
pub use pair::Port1Pair;
pub use pairing::{port1_pair_init, port1_pair_take};
pub use report::Port1Report;
pub use rest::{Port1Rest, port1_rest_feed, port1_rest_init, port1_rest_push};
pub use seen::Port1Seen;
pub use send::{
    port1_send_align, port1_send_flag, port1_send_frame, port1_send_idle, port1_sender_init,
};
pub use sender::Port1Sender;
pub use tap::Port1Tap;
pub use tapping::{port1_tap_feed, port1_tap_feed_runs, port1_tap_init, port1_tap_push};
pub use wires::{Port1Wire, Port1Wires};
