//! A datagram of UDP over IPv6 as bytes (RFC 8200, section 3; RFC 768).

ghost use Rattle.std.specs.Prelude.{◌≡◌, ◌≤◌, ◌++◌, length, IfOk, OnOk};
ghost use Rattle.ripng_capture.specs.Checksum.{checksum_of};
ghost use Rattle.ripng_capture.specs.Packets.{PacketValue, packet_bytes, summed_bytes, udp_bytes};

use crate::checksum::checksum;
use prefix6::Addr6;
use std::alloc::{AllocError, Global};
use std::marker::Model;

/// The most bytes of a payload: UDP gives the length of a datagram in 16 bits, with its header of 8 bytes.
pub const MAX_PAYLOAD: usize = 65_527;

/// The bytes of the header of UDP.
pub(crate) const UDP_HEADER_LEN: usize = 8;

/// The bytes of the header of IPv6, without extension headers.
pub(crate) const IPV6_HEADER_LEN: usize = 40;

/// The bytes of the pseudo-header that the checksum is also of, and of the header of UDP.
const PSEUDO_HEADER_LEN: usize = 48;

/// The number of UDP among the protocols over IPv6.
pub(crate) const UDP: u8 = 17;

/// A datagram of UDP over IPv6.
#[derive(Drop)]
pub struct Packet<'a> {
    /// Where it comes from.
    pub source: Addr6,
    /// Where it goes to.
    pub destination: Addr6,
    /// The port that it comes from.
    pub source_port: u16,
    /// The port that it goes to.
    pub destination_port: u16,
    /// How many routers may still forward it.
    pub hop_limit: u8,
    /// What it holds, without the headers of UDP and IPv6.
    pub payload: &'a [u8],
}

impl<'a> Model for Packet<'a> {
    ghost Value = { PacketValue };

    ghost view = { λ p. record {
      source = p.source;
      destination = p.destination;
      source_port = p.source_port;
      destination_port = p.destination_port;
      hop_limit = p.hop_limit;
      payload = p.payload.now;
    } };
}

impl<'a> Packet<'a> {
    /// The packet as bytes, with the right checksum.
    ///
    /// # Errors
    /// Only out of memory.
    #[tactic(auto, unfolding(crate::specs::Packets::packet_bytes))]
    pub fn to_bytes(&self, alloc: Global) -> Result<Vec<u8>, AllocError>
        requires { length self.now.payload ≤ MAX_PAYLOAD }
        ensures { IfOk result (λ bytes. bytes.items ≡ packet_bytes self.now) }
    {
        let length = (self.payload.len() + UDP_HEADER_LEN) as u16;
        let checksum = self.checksum(alloc)?;
        let mut bytes = Vec::with_capacity(
            alloc,
            IPV6_HEADER_LEN + UDP_HEADER_LEN + self.payload.len(),
        )?;
        bytes.extend_from_slice(&[0x60, 0, 0, 0])?;
        bytes.extend_from_slice(&length.to_be_bytes())?;
        bytes.extend_from_slice(&[UDP, self.hop_limit])?;
        bytes.extend_from_slice(&self.source.octets())?;
        bytes.extend_from_slice(&self.destination.octets())?;
        self.write_udp(&mut bytes, checksum)?;
        Ok(bytes)
    }

    /// Appends the header of UDP with a checksum, and the payload.
    fn write_udp(&self, bytes: &mut Vec<u8>, checksum: u16) -> Result<(), AllocError>
        requires { length self.now.payload ≤ MAX_PAYLOAD }
        ensures { OnOk result (bytes.new.items ≡ bytes.old.items ++ udp_bytes self.now checksum) }
    {
        let length = (self.payload.len() + UDP_HEADER_LEN) as u16;
        bytes.extend_from_slice(&self.source_port.to_be_bytes())?;
        bytes.extend_from_slice(&self.destination_port.to_be_bytes())?;
        bytes.extend_from_slice(&length.to_be_bytes())?;
        bytes.extend_from_slice(&checksum.to_be_bytes())?;
        bytes.extend_from_slice(self.payload)
    }

    /// The checksum of the datagram (RFC 8200, section 8.1).
    #[tactic(auto, using(crate::proofs::Sizes::length_summed))]
    fn checksum(&self, alloc: Global) -> Result<u16, AllocError>
        requires { length self.now.payload ≤ MAX_PAYLOAD }
        ensures { IfOk result (λ checksum. checksum ≡ checksum_of (summed_bytes self.now)) }
    {
        let summed = self.summed(alloc)?;
        Ok(checksum(&summed))
    }

    /// What the checksum is of.
    #[tactic(auto, unfolding(crate::specs::Packets::summed_bytes))]
    fn summed(&self, alloc: Global) -> Result<Vec<u8>, AllocError>
        requires { length self.now.payload ≤ MAX_PAYLOAD }
        ensures { IfOk result (λ bytes. bytes.items ≡ summed_bytes self.now) }
    {
        let length = (self.payload.len() + UDP_HEADER_LEN) as u32;
        let mut bytes = Vec::with_capacity(alloc, PSEUDO_HEADER_LEN + self.payload.len())?;
        bytes.extend_from_slice(&self.source.octets())?;
        bytes.extend_from_slice(&self.destination.octets())?;
        bytes.extend_from_slice(&length.to_be_bytes())?;
        bytes.extend_from_slice(&[0, 0, 0, UDP])?;
        self.write_udp(&mut bytes, 0)?;
        Ok(bytes)
    }
}
