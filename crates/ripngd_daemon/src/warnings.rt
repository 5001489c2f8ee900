//! Warnings of what a configuration allows though it cannot work. Each function fails as its writer does.

ghost use Rattle.std.specs.Prelude.{◌≡◌, is_some};
ghost use Rattle.ripngd_daemon.specs.Common.{has_address, is_never_heard};

use ripngd_config::Config;
use ripngd_engine::{Peer, Place, Socket};
use router_core::{MAX_HOP_LIMIT, RIPNG_PORT};
use std::io::{self, Write};

/// Whether an interface has a peer at its own port.
fn hears_itself(place: &Place, peers: &[Peer]) -> bool {
    match place.socket {
        Socket::Local { port, .. } => peers.iter().any(|peer| peer.local_port == port),
        Socket::Inherited { .. } => false,
    }
}

/// Writes a line for each interface that has a peer at its own port, and so receives what it sends.
pub(crate) fn write_echoes<E: Write>(config: &Config, err: &mut E) -> io::Result<()> {
    for (iface, (place, peers)) in config.places.iter().zip(config.peers.iter()).enumerate() {
        if hears_itself(place, peers.as_slice()) {
            writeln!(err, "ripngd: interface {iface} is its own peer")?;
        }
    }
    Ok(())
}

/// Whether a router has the address of a peer itself.
fn has_address(places: &[Place], peer: &Peer) -> bool
    ensures { result ≡ has_address places.now peer.now }
{
    places.iter().any(|place| place.addr == peer.addr)
}

/// Why no Response of a peer can be accepted (RFC 2080, section 2.4.2), if that is so.
fn why_never_heard(places: &[Place], peer: &Peer) -> Option<&'static str>
    ensures { is_some result ≡ is_never_heard places.now peer.now }
{
    if peer.port != RIPNG_PORT {
        Some("its port is not 521")
    } else if !peer.addr.is_link_local() {
        Some("its address is not link-local")
    } else if has_address(places, peer) {
        Some("its address is this router's own")
    } else if peer.to_group && peer.hop_limit != MAX_HOP_LIMIT {
        Some("its hop limit is not 255")
    } else {
        None
    }
}

/// Writes a line for each of these peers of an interface of which no Response can be accepted.
fn write_unheard<E: Write>(
    places: &[Place],
    iface: usize,
    peers: &[Peer],
    err: &mut E,
) -> io::Result<()> {
    for (number, peer) in peers.iter().enumerate() {
        if let Some(why) = why_never_heard(places, peer) {
            writeln!(
                err,
                "ripngd: interface[{iface}].peer[{number}] is never heard: {why}"
            )?;
        }
    }
    Ok(())
}

/// Writes a line for each interface that is its own peer, and for each peer of which no Response can be accepted.
pub(crate) fn write_warnings<E: Write>(config: &Config, err: &mut E) -> io::Result<()> {
    write_echoes(config, err)?;
    for (iface, peers) in config.peers.iter().enumerate() {
        write_unheard(config.places.as_slice(), iface, peers.as_slice(), err)?;
    }
    Ok(())
}
