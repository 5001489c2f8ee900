//! The tables of a configuration, each with its keys in the order in which they are read.

ghost use Rattle.std.specs.Prelude.{◌≡◌, IfErr, IfOk, OnOk, true, false};
ghost use Rattle.ripngd_config.specs.Common.{document_keys, interface_keys, peer_keys, prefix_keys, IsDocument, IsInterfaceTable, IsPeer, IsPrefixTable};
ghost use Rattle.ripngd_config.specs.Common.{keys_with, local_keys, names_of, real_keys, is_real, is_real_table, table_view, ArePeers, HasOnly, HasOnlyOf, IsSocket, LinkRefuses, RefusesOf};

use crate::fault::Read;
use crate::range::Range;
use crate::section::{FromSection, Section, items_at};
use prefix6::Prefix;
use ripngd_engine::{Peer, Socket};
use router_core::Interface;

impl FromSection for Peer {
    ghost keys = { peer_keys };

    ghost is_read = { IsPeer };

    fn from_section(section: Section<'_>) -> Read<Peer> {
        let peer = Peer {
            addr: section.address("address")?,
            local_port: section.number("local_port", 1, 65_535, None)? as u16,
            port: section.number("port", 0, 65_535, Some(521))? as u16,
            hop_limit: section.number("hop_limit", 0, 255, Some(255))? as u8,
            to_group: section.truth("group", true)?,
        };
        section.only(&["address", "local_port", "port", "hop_limit", "group"])?;
        Ok(peer)
    }
}

/// The sockets of an interface, and its peers.
type SocketAndPeers = (Socket, Vec<Peer>);

/// The sockets of a real link, and no peers: its neighbors are those that send there.
fn real_link(section: Section<'_>) -> Read<SocketAndPeers>
    ensures socket { IfOk result (λ r. IsSocket (table_view section.entry.table.now) r.0) }
    ensures real { IfOk result (λ r. is_real r.0 ≡ true) }
    ensures peers { IfOk result (λ r. ArePeers (table_view section.entry.table.now) r.0 r.1.items) }
    ensures only { OnOk result (HasOnlyOf (names_of (keys_with real_keys)) (table_view section.entry.table.now)) }
    ensures fault { IfErr result (RefusesOf real_keys (table_view section.entry.table.now)) }
{
    let socket = Socket::Inherited {
        alone: section.number("descriptor", 3, 65_535, None)? as u16,
        group: section.number("group_descriptor", 3, 65_535, None)? as u16,
        far: section.optional_number("far_descriptor", 3)?,
    };
    section.only(&[
        "address",
        "cost",
        "mtu",
        "zone",
        "accept",
        "reject",
        "limit",
        "passive",
        "announce",
        "announce_not",
        "descriptor",
        "group_descriptor",
        "far_descriptor",
    ])?;
    Ok((socket, Vec::new(section.alloc)))
}

/// A port of 127.0.0.1 in place of a real link, and the peers there.
fn local_link(section: Section<'_>) -> Read<SocketAndPeers>
    ensures socket { IfOk result (λ r. IsSocket (table_view section.entry.table.now) r.0) }
    ensures real { IfOk result (λ r. is_real r.0 ≡ false) }
    ensures peers { IfOk result (λ r. ArePeers (table_view section.entry.table.now) r.0 r.1.items) }
    ensures only { OnOk result (HasOnlyOf (names_of (keys_with local_keys)) (table_view section.entry.table.now)) }
    ensures fault { IfErr result (RefusesOf local_keys (table_view section.entry.table.now)) }
{
    let socket = Socket::Local {
        port: section.number("local_port", 1, 65_535, None)? as u16,
        group_port: section.optional_number("group_port", 1)?,
    };
    let peers = items_at(section, "peer")?;
    section.only(&[
        "address",
        "cost",
        "mtu",
        "zone",
        "accept",
        "reject",
        "limit",
        "passive",
        "announce",
        "announce_not",
        "local_port",
        "group_port",
        "peer",
    ])?;
    Ok((socket, peers))
}

/// The sockets of an interface, and its peers: of a real link where it has the key `descriptor`. Keys of the other kind of link are
/// unknown.
fn link_of(section: Section<'_>) -> Read<SocketAndPeers>
    ensures real { IfOk result (λ r. is_real r.0 ≡ is_real_table (table_view section.entry.table.now)) }
    ensures socket { IfOk result (λ r. IsSocket (table_view section.entry.table.now) r.0) }
    ensures peers { IfOk result (λ r. ArePeers (table_view section.entry.table.now) r.0 r.1.items) }
    ensures only { OnOk result (HasOnly interface_keys (table_view section.entry.table.now)) }
    ensures fault { IfErr result (LinkRefuses (table_view section.entry.table.now)) }
{
    if section.has("descriptor") {
        real_link(section)
    } else {
        local_link(section)
    }
}

/// An interface, its lists and its limit, whether it is passive, its sockets, and its peers.
#[derive(Debug, Drop)]
pub(crate) struct InterfaceTable {
    pub interface: Interface,
    pub accept: Vec<Range>,
    pub reject: Vec<Range>,
    pub limit: Option<u32>,
    pub passive: bool,
    pub announce: Vec<Range>,
    pub announce_not: Vec<Range>,
    pub socket: Socket,
    pub peers: Vec<Peer>,
}

impl FromSection for InterfaceTable {
    ghost keys = { interface_keys };

    ghost is_read = { IsInterfaceTable };

    fn from_section(section: Section<'_>) -> Read<InterfaceTable> {
        let interface = Interface {
            addr: section.address("address")?,
            cost: section.number("cost", 0, 255, None)? as u8,
            mtu: section.number("mtu", 0, 4_294_967_295, Some(1280))? as u32,
            zone: section.number("zone", 0, 65_535, Some(0))? as u16,
        };
        let accept = items_at(section, "accept")?;
        let reject = items_at(section, "reject")?;
        let limit = section.optional_count("limit")?;
        let passive = section.truth("passive", false)?;
        let announce = items_at(section, "announce")?;
        let announce_not = items_at(section, "announce_not")?;
        let (socket, peers) = link_of(section)?;
        Ok(InterfaceTable {
            interface,
            accept,
            reject,
            limit,
            passive,
            announce,
            announce_not,
            socket,
            peers,
        })
    }
}

/// An owned prefix, and its route tag if the table gives one.
#[derive(Clone, Copy, Debug)]
pub(crate) struct PrefixTable {
    pub prefix: Prefix,
    pub tag: Option<u16>,
}

impl FromSection for PrefixTable {
    ghost keys = { prefix_keys };

    ghost is_read = { IsPrefixTable };

    fn from_section(section: Section<'_>) -> Read<PrefixTable> {
        let prefix = section.prefix("prefix")?;
        let tag = section.optional_number("tag", 0)?;
        section.only(&["prefix", "tag"])?;
        Ok(PrefixTable { prefix, tag })
    }
}

/// A whole configuration, as it is written.
#[derive(Debug, Drop)]
pub(crate) struct Document {
    pub seed: u64,
    pub interfaces: Vec<InterfaceTable>,
    pub prefixes: Vec<PrefixTable>,
}

impl FromSection for Document {
    ghost keys = { document_keys };

    ghost is_read = { IsDocument };

    fn from_section(section: Section<'_>) -> Read<Document> {
        let document = Document {
            seed: section.number("seed", 0, 9_223_372_036_854_775_807, Some(0))?,
            interfaces: items_at(section, "interface")?,
            prefixes: items_at(section, "prefix")?,
        };
        section.only(&["seed", "interface", "prefix"])?;
        Ok(document)
    }
}
