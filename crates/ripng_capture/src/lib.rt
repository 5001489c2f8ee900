//! Captures of packets: files of pcap and pcapng, which tcpdump and Wireshark write and read, and the datagrams of UDP that stand in them.
//!
//! [`Frames`] reads a file of either form, in either byte order, frame by frame, in place. It stops where a file is damaged, and says
//! where. [`packet_in`] finds the datagram of a frame. [`section_block`], [`interface_block`] and [`packet_block`] are the blocks of
//! a file of pcapng, with packets whose checksums are right.
#![tactic(auto)]

mod beginning;
mod blocks;
mod checksum;
mod damage;
mod frame;
mod frames;
mod interface;
mod layout;
mod number;
mod packet;

pub use blocks::{interface_block, packet_block, section_block};
pub use damage::{CaptureError, Damage};
pub use frame::{Foreign, packet_in};
pub use frames::{Frame, Frames};
pub use interface::{Interface, LinkType, Timestamp};
pub use number::Endianness;
pub use packet::{MAX_PAYLOAD, Packet};
