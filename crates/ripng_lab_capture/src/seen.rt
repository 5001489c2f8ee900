//! A datagram as it is seen on a link.

ghost use Rattle.std.specs.Prelude.{◌≡◌, IfOk};
ghost use Rattle.ripng_lab_capture.specs.Packets.{packet_arrived, packet_seen, packet_sent};

use prefix6::Addr6;
use ripng_capture::Packet;
use ripng_lab::Network;
use ripng_world::Sent;
use router_core::{Arrival, Destination, MAX_HOP_LIMIT, RIPNG_PORT};
use std::alloc::{AllocError, Global};

/// FF02::9, the group of all RIPng routers (RFC 2080, section 2.5).
const GROUP: u128 = (0xff02 << 112) | 9;

/// A datagram that was seen on a link.
#[derive(Drop)]
pub(crate) struct Seen {
    /// The number of the link.
    pub link: u32,
    /// When it was seen, in milliseconds.
    pub at: u64,
    pub source: Addr6,
    pub destination: Addr6,
    pub source_port: u16,
    pub destination_port: u16,
    pub hop_limit: u8,
    pub payload: Vec<u8>,
    /// What is said of it, or nothing.
    pub comment: String,
}

impl Seen {
    /// A datagram that a router of the network sends at that time, from the address of its interface and port 521, with hop limit 255.
    pub(crate) fn sent(
        alloc: Global,
        link: u32,
        at: u64,
        source: Addr6,
        sent: &Sent,
    ) -> Result<Seen, AllocError>
        ensures { IfOk result (λ seen. packet_seen seen ≡ packet_sent source sent.now) }
    {
        let (destination, destination_port) = match sent.to {
            Destination::Group => (Addr6::from_bits(GROUP), RIPNG_PORT),
            Destination::Peer { addr, port } => (addr, port),
        };
        Ok(Seen {
            link,
            at,
            source,
            destination,
            source_port: RIPNG_PORT,
            destination_port,
            hop_limit: MAX_HOP_LIMIT,
            payload: Vec::from_slice(alloc, sent.bytes.as_slice())?,
            comment: String::new(alloc),
        })
    }

    /// A datagram that comes to the interface with an address, and of which this is said.
    pub(crate) fn arrived(
        alloc: Global,
        link: u32,
        addr: Addr6,
        arrival: &Arrival<'_>,
        comment: String,
    ) -> Result<Seen, AllocError>
        ensures { IfOk result (λ seen. packet_seen seen ≡ packet_arrived addr arrival.entry.now) }
    {
        let destination = if arrival.to_group {
            Addr6::from_bits(GROUP)
        } else {
            addr
        };
        Ok(Seen {
            link,
            at: arrival.now.ms(),
            source: arrival.source,
            destination,
            source_port: arrival.source_port,
            destination_port: RIPNG_PORT,
            hop_limit: arrival.hop_limit,
            payload: Vec::from_slice(alloc, arrival.bytes)?,
            comment,
        })
    }

    /// The packet that it is.
    pub(crate) fn packet(&self) -> Packet<'_>
        ensures { result ≡ packet_seen self.now }
    {
        Packet {
            source: self.source,
            destination: self.destination,
            source_port: self.source_port,
            destination_port: self.destination_port,
            hop_limit: self.hop_limit,
            payload: &self.payload,
        }
    }
}

/// The numbers of the links of a network, each once, in order.
pub(crate) fn links_of(alloc: Global, lab: &Network) -> Result<Vec<u32>, AllocError> {
    let mut links = Vec::new(alloc);
    for router in 0..lab.routers() {
        add_links(&mut links, lab, router)?;
    }
    links.sort_unstable();
    links.dedup();
    Ok(links)
}

/// Appends the number of the link of each interface of a router.
fn add_links(links: &mut Vec<u32>, lab: &Network, router: usize) -> Result<(), AllocError> {
    let Some(at) = lab.router(router) else {
        return Ok(());
    };
    for iface in 0..at.config().interfaces().len() {
        if let Some(link) = lab.link(router, iface) {
            links.push(link)?;
        }
    }
    Ok(())
}
