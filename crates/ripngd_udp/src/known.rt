//! The neighbors of a link that have told routes. Their Requests go before those of hosts that only ask.

ghost use Rattle.std.specs.Prelude.{◌≡◌, ◌<◌, ◌≤◌, [], IfOk, length, vec_capacity};
ghost use Rattle.ripngd_udp.specs.Common.{is_among, others_than, with_last, with_room};

use prefix6::Addr6;
use std::alloc::{AllocError, Global};

/// How many are known at most, more than a link has routers: then whoever has been silent longest is forgotten.
const MOST: usize = 64;

/// The addresses on a link that have sent Responses, each once, the last one at the end.
#[derive(Drop)]
pub(crate) struct Known {
    addrs: Vec<Addr6>,
    ghost few: { length addrs.items ≤ 64 },
    ghost room: { vec_capacity addrs ≡ 64 },
}

impl Known {
    /// Nobody is known.
    ///
    /// # Errors
    /// Out of memory.
    pub(crate) fn new(alloc: Global) -> Result<Known, AllocError>
        ensures { IfOk result (λ known. known.addrs.items ≡ []) }
    {
        let addrs = Vec::with_capacity(alloc, MOST)?;
        Ok(Known { addrs })
    }

    /// Whether an address is known.
    pub(crate) fn has(&self, addr: Addr6) -> bool
        ensures { result ≡ is_among self.now.addrs.items addr }
    {
        self.addrs.iter().any(|other| *other == addr)
    }

    /// Leaves out an address.
    fn leave_out(&mut self, addr: Addr6)
        ensures { self.new.addrs.items ≡ others_than self.old.addrs.items addr }
    {
        self.addrs.retain(|other| *other != addr);
    }

    /// Makes room for one more.
    fn make_room(&mut self)
        ensures room { self.new.addrs.items ≡ with_room self.old.addrs.items }
        ensures few { length self.new.addrs.items < 64 }
    {
        if self.addrs.len() >= MOST {
            self.addrs.remove(0);
        }
    }

    /// An address has sent a Response.
    pub(crate) fn note(&mut self, addr: Addr6)
        ensures { self.new.addrs.items ≡ with_last self.old.addrs.items addr }
    {
        self.leave_out(addr);
        self.make_room();
        self.addrs.push_reserved(addr);
    }
}
