// gdb's packets: heard from bytes that are cut anywhere, and said.
#![tactic(auto)]

pub mod kind; // what stands at the start of the bytes that gdb sent
pub mod frame; // the frame of a packet: its mark, its end and its checksum
pub mod course; // the payload that the bytes of a packet stand for
pub mod sum; // the checksum, and whether two hex digits say it
pub mod reply; // a reply as a packet

pub use crate::frame::hear;
pub use crate::kind::Heard;
pub use crate::reply::say;
