//! The lists and the limits of all interfaces, and which are passive, as the router has them.

ghost use Rattle.std.specs.Prelude.{◌≡◌, ◌++◌, IfOk, OnOk, map};
ghost use Rattle.ripngd_config.specs.Common.{announcements_from, filter_of, filters_at, filters_from, limits_from, passive_from};

use crate::range::Range;
use crate::tables::InterfaceTable;
use router_core::{Action, Filter, Limit};
use std::alloc::{AllocError, Global};

/// Adds a filter of an interface for each of these ranges, in order.
fn add_filters(
    filters: &mut Vec<Filter>,
    iface: usize,
    action: Action,
    ranges: &[Range],
) -> Result<(), AllocError>
    ensures { OnOk result (filters.new.items ≡ filters.old.items ++ map (filter_of iface action) ranges.now) }
{
    for range in ranges {
        filters.push(Filter {
            iface,
            action,
            prefix: range.prefix,
            is_longer: range.is_longer,
        })?;
    }
    Ok(())
}

/// Adds the filters of an interface: those that accept, and those that reject.
fn add_lists(
    filters: &mut Vec<Filter>,
    iface: usize,
    accept: &[Range],
    reject: &[Range],
) -> Result<(), AllocError>
    ensures { OnOk result (filters.new.items ≡ filters.old.items ++ filters_at iface accept.now reject.now) }
{
    add_filters(filters, iface, Action::Accept, accept)?;
    add_filters(filters, iface, Action::Reject, reject)
}

/// The filters of each interface of what comes in, in order.
pub(crate) fn filters_of(
    alloc: Global,
    tables: &[InterfaceTable],
) -> Result<Vec<Filter>, AllocError>
    ensures { IfOk result (λ v. v.items ≡ filters_from 0 tables.now) }
{
    let mut filters = Vec::new(alloc);
    for (iface, table) in tables.iter().enumerate() {
        add_lists(&mut filters, iface, &table.accept, &table.reject)?;
    }
    Ok(filters)
}

/// The filters of each interface of what goes out, in order.
pub(crate) fn announcements_of(
    alloc: Global,
    tables: &[InterfaceTable],
) -> Result<Vec<Filter>, AllocError>
    ensures { IfOk result (λ v. v.items ≡ announcements_from 0 tables.now) }
{
    let mut filters = Vec::new(alloc);
    for (iface, table) in tables.iter().enumerate() {
        add_lists(&mut filters, iface, &table.announce, &table.announce_not)?;
    }
    Ok(filters)
}

/// The numbers of the interfaces that are passive, in order.
pub(crate) fn passive_of(alloc: Global, tables: &[InterfaceTable]) -> Result<Vec<usize>, AllocError>
    ensures { IfOk result (λ v. v.items ≡ passive_from 0 tables.now) }
{
    let mut passive = Vec::new(alloc);
    for (iface, table) in tables.iter().enumerate() {
        if table.passive {
            passive.push(iface)?;
        }
    }
    Ok(passive)
}

/// The limit of each interface that has one, in order.
pub(crate) fn limits_of(alloc: Global, tables: &[InterfaceTable]) -> Result<Vec<Limit>, AllocError>
    ensures { IfOk result (λ v. v.items ≡ limits_from 0 tables.now) }
{
    let mut limits = Vec::new(alloc);
    for (iface, table) in tables.iter().enumerate() {
        if let Some(routes) = table.limit {
            let routes = routes as usize;
            limits.push(Limit { iface, routes })?;
        }
    }
    Ok(limits)
}
