//! Changes of a router's peers while it runs.

use ripngd_control::{PeerChange, Peering, Reply};
use ripngd_engine::{LinkChange, Peer};
use ripngd_udp::Udp;
use router_core::{MAX_HOP_LIMIT, RIPNG_PORT};
use std::rt::Clock;

/// A change of the peers of a link, and the reply to it.
#[derive(Clone, Copy, Debug, PartialEq, Eq)]
pub(crate) struct PeerUpdate {
    change: Option<PeerChange>,
    reply: Reply,
}

impl PeerUpdate {
    /// No change yet.
    pub(crate) fn new() -> PeerUpdate {
        PeerUpdate {
            change: None,
            reply: Reply::Done,
        }
    }
}

impl Peering for PeerUpdate {
    ghost ended = { λ update. update.reply };

    fn order(&mut self, change: PeerChange) {
        self.change = Some(change);
    }

    fn reply(&self) -> Reply {
        self.reply
    }
}

impl<'r, R: Clock> LinkChange<Udp<'r, R>> for PeerUpdate {
    fn make(&mut self, link: &mut Udp<'r, R>) {
        let Some(change) = self.change else {
            return;
        };
        let outcome = match change {
            // A peer with the defaults of a configuration.
            PeerChange::Add { iface, addr, port } => link.add_peer(
                iface,
                Peer {
                    addr,
                    local_port: port,
                    port: RIPNG_PORT,
                    hop_limit: MAX_HOP_LIMIT,
                    to_group: true,
                },
            ),
            PeerChange::Remove { iface, addr } => link.remove_peer(iface, addr),
        };
        self.reply = match outcome {
            Ok(()) => Reply::Done,
            Err(why) => Reply::LinkRefused(why.text()),
        };
    }
}
