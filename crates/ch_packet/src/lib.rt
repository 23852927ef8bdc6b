//! The bytes of the packets that workers, switch and master send each other.
#![tactic(auto)]

mod laws;
mod packet;
mod packet_view;

pub use laws::{accepted_bytes_are_spelled, packets_are_spelled_once, spellings_are_accepted};
pub use packet::{Packet, PacketKind, set_epoch, write_packet};
pub use packet_view::{PacketError, PacketView, view};
