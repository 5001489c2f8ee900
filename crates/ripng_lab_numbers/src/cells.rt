//! Numbers by interval and router.

ghost use Rattle.std.specs.Prelude.{◌≡◌, ◌<◌, [], IfOk, OnOk, fold, length};
ghost use Rattle.ripng_lab.specs.Common.{counted_datagram};
ghost use Rattle.ripng_lab_numbers.specs.Numbers.{cell_of, cells_until, filled, with_sent};

use crate::layout::Layout;
use ripng_lab::Counts;
use ripng_world::Sent;
use route_table::Moment;
use std::alloc::{AllocError, Global};

/// The numbers of each interval, and of each router where routers are told apart.
#[derive(Drop)]
pub(crate) struct Cells {
    pub layout: Layout,
    pub counts: Vec<Counts>,
}

impl Cells {
    /// No interval yet.
    pub(crate) fn new(alloc: Global, layout: Layout) -> Cells
        ensures layout { result.layout ≡ layout }
        ensures none { result.counts.items ≡ [] }
    {
        Cells {
            layout,
            counts: Vec::new(alloc),
        }
    }

    /// All routers have started at a moment, and have sent these Requests.
    ///
    /// # Errors
    /// Those of [`Cells::open`].
    pub(crate) fn started(
        alloc: Global,
        layout: Layout,
        now: Moment,
        sent: &[Sent],
    ) -> Result<Cells, AllocError>
        ensures layout { IfOk result (λ cells. cells.layout ≡ layout) }
        ensures counts { IfOk result (λ cells. cells.counts.items ≡ fold (with_sent layout now) [] sent.now) }
    {
        let mut cells = Cells::new(alloc, layout);
        for datagram in sent {
            cells.count_sent(now, datagram)?;
        }
        Ok(cells)
    }

    /// What was counted until now of a router, or of all, in the interval with a moment. Intervals up to that one come to be.
    ///
    /// # Errors
    /// Out of memory, or more cells than may be.
    pub(crate) fn open(&mut self, moment: Moment, router: usize) -> Result<usize, AllocError>
        ensures layout { self.new.layout ≡ self.old.layout }
        ensures filled { OnOk result (self.new.counts.items ≡ filled (cells_until self.old.layout moment) self.old.counts.items) }
        ensures cell { IfOk result (λ cell. (cell ≡ cell_of self.old.layout moment router) × (cell < length self.new.counts.items)) }
    {
        let (cell, cells) = self.layout.cell(moment, router).ok_or(AllocError)?;
        if self.counts.len() < cells {
            self.counts.resize(cells, Counts::new())?;
        }
        Ok(cell)
    }

    /// A router sent a datagram of itself at a moment.
    ///
    /// # Errors
    /// Those of [`Cells::open`].
    pub(crate) fn count_sent(&mut self, moment: Moment, sent: &Sent) -> Result<(), AllocError>
        ensures layout { self.new.layout ≡ self.old.layout }
        ensures counts { OnOk result (self.new.counts.items ≡ with_sent self.old.layout moment self.old.counts.items sent.now) }
    {
        let cell = self.open(moment, sent.router)?;
        self.counts[cell] = self.counts[cell].with_datagram(false, sent.bytes.as_slice());
        Ok(())
    }
}
