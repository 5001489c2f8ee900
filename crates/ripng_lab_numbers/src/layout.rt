//! Where the numbers of an interval and a router stand in a list.

ghost use Rattle.std.specs.Prelude.{◌≡◌, ◌<◌, ◌≤◌, IfSome};
ghost use Rattle.ripng_lab_numbers.specs.Numbers.{cell_of, cells_until, column_of, interval_of, quotient, remainder};

use route_table::Moment;

/// The most cells that a list has: 2^22, some 500 megabytes.
const CELLS_LIMIT: usize = 4_194_304;

/// How a list of cells is laid out: interval after interval, from the first, each with a cell for all routers, or one for each.
#[derive(Clone, Copy)]
pub(crate) struct Layout {
    /// The length of an interval in seconds, at least 1.
    pub seconds: u32,
    /// The number of the first interval. Interval 0 begins at moment 0.
    pub first: u64,
    /// How many cells an interval has: 1, or as many as there are routers.
    pub width: usize,
}

impl Layout {
    /// The column of a router: 0 where an interval has one cell.
    fn column(&self, router: usize) -> usize
        ensures { result ≡ column_of self.now router }
    {
        if self.width == 1 { 0 } else { router }
    }

    /// How many cells there are up to the end of the interval with a moment, unless a list has fewer at most.
    fn cells_until(&self, moment: Moment) -> Option<usize>
        ensures { IfSome result (λ cells. cells ≡ cells_until self.now moment) }
    {
        let passed = interval_of(self.seconds, moment).saturating_sub(self.first);
        let intervals = usize::try_from(passed).ok()?.checked_add(1)?;
        let cells = intervals.checked_mul(self.width)?;
        if cells <= CELLS_LIMIT {
            Some(cells)
        } else {
            None
        }
    }

    /// The number of the cell of a router in the interval with a moment, and how many cells there are up to the end of that interval.
    pub(crate) fn cell(&self, moment: Moment, router: usize) -> Option<(usize, usize)>
        ensures { IfSome result (λ cell. (cell.0 ≡ cell_of self.now moment router) × (cell.0 < cell.1) × (cell.1 ≡ cells_until self.now moment)) }
    {
        let (cells, column) = (self.cells_until(moment)?, self.column(router));
        if column < self.width {
            let begin = cells.checked_sub(self.width)?;
            Some((begin.checked_add(column)?, cells))
        } else {
            None
        }
    }

    /// The number of the interval with that cell, from the first.
    pub(crate) fn interval_at(&self, cell: usize) -> usize
        ensures { result ≡ quotient cell self.now.width }
    {
        cell.checked_div(self.width).unwrap_or(0)
    }

    /// The column of that cell.
    pub(crate) fn column_at(&self, cell: usize) -> usize
        ensures { result ≡ remainder cell self.now.width }
    {
        cell.checked_rem(self.width).unwrap_or(cell)
    }
}

/// The number of the interval of so many seconds with a moment.
pub(crate) fn interval_of(seconds: u32, moment: Moment) -> u64
    ensures { result ≡ interval_of seconds moment }
{
    (moment.ms() / 1_000)
        .checked_div(u64::from(seconds))
        .unwrap_or(0)
}
