//! A slice of routes in the order of their prefixes, searched by bisection.

ghost use Rattle.std.specs.Prelude.{◌≡◌, ◌+◌, ◌-◌, ◌≤◌, ◌++◌, T, IfOk, IfErr, length, take, vec_len, vec_capacity};
ghost use Rattle.route_table.specs.Common.{is_sorted, prefix_cmp, IsAt, IsGap, first_where, least_deadline, without_mark, IsStartPast, meets, summary_of, wanted_of, map_entries, past};

use crate::route::Route;
use crate::summary::Summary;
use crate::wanted::Wanted;
use prefix6::Prefix;

/// The index of the prefix, or the one where it would go.
pub fn search(routes: &[(Prefix, Route)], prefix: &Prefix) -> Result<usize, usize>
    requires { T (is_sorted prefix_cmp routes.now) }
    ensures found { IfOk result (IsAt routes.now prefix.now) }
    ensures absent { IfErr result (IsGap routes.now prefix.now) }
{
    routes.binary_search_by_key(prefix, |&(p, _)| p)
}

/// The same, but the end is looked at first, since routes are learned in the order of their prefixes.
pub fn search_from_end(routes: &[(Prefix, Route)], prefix: &Prefix) -> Result<usize, usize>
    requires { T (is_sorted prefix_cmp routes.now) }
    ensures found { IfOk result (IsAt routes.now prefix.now) }
    ensures absent { IfErr result (IsGap routes.now prefix.now) }
{
    let len = routes.len();
    if len != 0 && routes[len - 1].0 < *prefix {
        return Err(len);
    }
    search(routes, prefix)
}

/// The index of the first route past the prefix, or 0 without a prefix.
fn place_past(routes: &[(Prefix, Route)], after: Option<Prefix>) -> usize
    requires { T (is_sorted prefix_cmp routes.now) }
    ensures { IsStartPast routes.now after result }
{
    match after {
        None => 0,
        Some(prefix) => match search(routes, &prefix) {
            Ok(at) => at + 1,
            Err(at) => at,
        },
    }
}

/// The routes past the prefix.
pub fn past(routes: &[(Prefix, Route)], after: Option<Prefix>) -> &[(Prefix, Route)]
    requires { T (is_sorted prefix_cmp routes.now) }
    ensures { result.now ≡ past after routes.now }
{
    &routes[place_past(routes, after)..]
}

/// The summary of these routes.
pub fn sum_up(routes: &[(Prefix, Route)]) -> Summary
    ensures { result ≡ summary_of routes.now }
{
    let mut summary = Summary::nothing();
    for (_, route) in routes.iter() {
        summary = summary.and(Summary::of(route));
    }
    summary
}

/// The first route past the prefix that is wanted.
pub fn first_wanted(
    routes: &[(Prefix, Route)],
    after: Option<Prefix>,
    wanted: Wanted,
) -> Option<(Prefix, Route)>
    requires { T (is_sorted prefix_cmp routes.now) }
    ensures { result ≡ first_where (meets wanted) after routes.now }
{
    for k in place_past(routes, after)..routes.len() {
        let entry = routes[k];
        if wanted.is_met_by(&entry.1) {
            return Some(entry);
        }
    }
    None
}

/// Appends the first wanted of the routes, at most `most`, for which the vector must have room: how many are still asked for.
pub fn list_wanted(
    routes: &[(Prefix, Route)],
    wanted: Wanted,
    most: usize,
    out: &mut Vec<(Prefix, Route)>,
) -> usize
    requires { vec_len out.old + most ≤ vec_capacity out.old }
    ensures items { out.new.items ≡ out.old.items ++ take most (wanted_of wanted routes.now) }
    ensures left { result ≡ most - length (wanted_of wanted routes.now) }
    ensures room { vec_len out.new + result ≤ vec_capacity out.new }
{
    let mut left = most;
    for entry in routes.iter() {
        if left == 0 {
            return 0;
        }
        if wanted.is_met_by(&entry.1) {
            out.push_reserved(*entry);
            left -= 1;
        }
    }
    left
}

/// Clears all route change flags.
pub fn unmark(routes: &mut [(Prefix, Route)])
    ensures { routes.new ≡ map_entries without_mark routes.old }
{
    for entry in routes.iter_mut() {
        entry.1 = entry.1.with_mark(false);
    }
}
