//! The offers of an arrival, as a router processes them.

ghost use Rattle.std.specs.Prelude.{◌<◌, IfOk, length};
ghost use Rattle.router_core.specs.Offering.{Brings};

use super::Router;
use crate::arrival::Arrival;
use crate::faults::accept;
use crate::listed::Listed;
use crate::offered::{Offered, all_offered};
use ripng_wire::Command;
use route_table::RouteStore;
use std::alloc::AllocError;

impl<S: RouteStore> Router<S> {
    /// The offers of an arrival, in the order of its entries: those that [`Router::arrive`] processes, or has processed if that was
    /// the last step, those that get a note among them. A refused arrival and a Request have none.
    ///
    /// # Errors
    /// Only out of memory.
    pub fn offers(&self, arrival: &Arrival<'_>) -> Result<Listed<Offered>, AllocError>
        requires { arrival.now.iface < length self.now.config.interfaces }
        ensures { IfOk result (λ all. Brings self.now arrival.entry.now all) }
    {
        let Ok(datagram) = accept(&self.config, arrival) else {
            return Ok(Listed::from_vec(Vec::new(self.alloc)));
        };
        match datagram.command() {
            Command::Request => Ok(Listed::from_vec(Vec::new(self.alloc))),
            Command::Response => {
                let gateway = self.gateway(arrival, self.effective(arrival.now));
                let all = all_offered(self.alloc, &self.config, &gateway, datagram.entries())?;
                Ok(Listed::from_vec(all))
            }
        }
    }
}
