//! One router.

ghost use Rattle.std.specs.Prelude.{◌≡◌, ◌<◌, true, length};
ghost use Rattle.router_core.specs.Reconfiguring.{NamesInterface};

use crate::row::{Done, Row, moment};
use crate::writing::{write_answer, write_due, write_one, write_router};
use prefix6::{Addr6, Prefix};
use route_table::RouteStore;
use router_core::{
    Action, Answer, Arrival, Change, Filter, Interface, Limit, Listed, NoteKind,
    ReconfigureRefused, Router, RouterConfig,
};
use std::alloc::{AllocError, Global};
use std::time::Instant;

/// What words ask of a configuration.
#[derive(Drop)]
struct Asked {
    interfaces: Vec<Interface>,
    prefixes: Vec<(Prefix, u16)>,
    is_quiet: bool,
    filters: Vec<Filter>,
    limits: Vec<Limit>,
}

/// An interface of cost 1 in zone 0.
fn interface(host: u128, mtu: u32) -> Interface {
    Interface {
        addr: Addr6::from_bits((0xfe80 << 112) | host),
        cost: 1,
        mtu,
        zone: 0,
    }
}

impl Asked {
    /// Two interfaces, fe80::1 with an MTU of 1,280 and fe80::1:1 with 1,500, and nothing else.
    fn new(alloc: Global) -> Result<Asked, AllocError> {
        let interfaces = [interface(1, 1280), interface(0x1_0001, 1500)];
        Ok(Asked {
            interfaces: Vec::from_slice(alloc, &interfaces)?,
            prefixes: Vec::new(alloc),
            is_quiet: false,
            filters: Vec::new(alloc),
            limits: Vec::new(alloc),
        })
    }

    /// More interfaces, up to a number of them: the next one is fe80::1:2.
    fn grow(&mut self, count: u16) -> Done {
        for host in 2..count {
            self.interfaces
                .push(interface(0x1_0000 + u128::from(host), 1500))?;
        }
        Ok(())
    }

    /// Another address and zone of an interface.
    fn place(&mut self, row: &mut Row<'_>) {
        let iface: usize = row.read(0);
        let (addr, zone) = (row.read(Addr6::from_bits(0)), row.read(0));
        match self.interfaces.get_mut(iface) {
            Some(interface) => {
                interface.addr = addr;
                interface.zone = zone;
            }
            None => row.is_bad = true,
        }
    }

    /// A filter of an interface: `exact` for its prefix alone, or `longer` for each within it, too.
    fn filter(&mut self, row: &mut Row<'_>, action: Action) -> Done {
        let (iface, prefix) = (row.read(0), row.prefix());
        let reach = row.next();
        row.is_bad |= reach != "exact" && reach != "longer";
        self.filters.push(Filter {
            iface,
            action,
            prefix,
            is_longer: reach == "longer",
        })?;
        Ok(())
    }

    fn obey(&mut self, row: &mut Row<'_>, word: &str) -> Done {
        match word {
            "quiet" => self.is_quiet = true,
            "own" => self.prefixes.push((row.prefix(), row.read(0)))?,
            "interfaces" => self.grow(row.read(0))?,
            "place" => self.place(row),
            "accept" => self.filter(row, Action::Accept)?,
            "reject" => self.filter(row, Action::Reject)?,
            "limit" => self.limits.push(Limit {
                iface: row.read(0),
                routes: row.read(0),
            })?,
            _ => row.is_bad = true,
        }
        Ok(())
    }
}

/// The configuration that words ask for, if it is accepted; else the refusal is written.
pub fn asked_config(row: &mut Row<'_>) -> Result<Option<RouterConfig>, AllocError> {
    let mut asked = Asked::new(row.alloc)?;
    for _ in 0..row.rest.len() {
        match row.next() {
            "" => break,
            word => asked.obey(row, word)?,
        }
    }
    match RouterConfig::check(asked.interfaces, asked.prefixes, asked.is_quiet) {
        Ok(config) => Ok(Some(config.filtered(asked.filters, asked.limits))),
        Err(why) => {
            writeln!(row.text, "refused {why:?}")?;
            Ok(None)
        }
    }
}

/// A router comes up, if its configuration is accepted. With `start` its answer is written.
pub fn come_up<S: RouteStore>(row: &mut Row<'_>) -> Result<Option<Router<S>>, AllocError> {
    match asked_config(row)? {
        Some(config) => start(row, config).map(|router| Some(router)),
        None => Ok(None),
    }
}

fn start<S: RouteStore>(row: &mut Row<'_>, config: RouterConfig) -> Result<Router<S>, AllocError> {
    let Ok((router, answer)) = Router::start(row.alloc, config, moment(0)) else {
        return row.refuse();
    };
    if row.call == "start" {
        write_answer(&mut row.text, &answer)?;
    }
    Ok(router)
}

/// A datagram arrives. If an entry was skipped because memory was refused, it arrives once more, and the first answer is written.
fn hear<S: RouteStore>(
    row: &mut Row<'_>,
    router: &mut Router<S>,
    arrival: Arrival<'_>,
) -> Result<Answer, AllocError>
    requires { arrival.iface < length router.old.config.interfaces }
{
    let start = Instant::now(&row.rt);
    let answer = router.arrive(Arrival { ..arrival })?;
    row.tell_time(start)?;
    let mut notes = answer.notes.as_slice().iter();
    if !notes.any(|note| note.kind == NoteKind::NoMemory) {
        return Ok(answer);
    }
    row.tell_refused("a new route")?;
    let notes = Listed::from_vec(Vec::new(row.alloc));
    write_answer(&mut row.text, &Answer { notes, ..answer })?;
    router.arrive(arrival)
}

/// Time passes, as often as it is asked.
fn tick<S: RouteStore>(row: &mut Row<'_>, router: &mut Router<S>) -> Result<Answer, AllocError> {
    let (now, word) = (row.moment(), row.read(0));
    let start = Instant::now(&row.rt);
    let mut answer = router.tick(now, word)?;
    for _ in 1..row.times {
        answer = router.tick(now, word)?;
    }
    row.tell_time(start)?;
    Ok(answer)
}

/// Whether a change names no interface, or one that the router has.
fn is_named(config: &RouterConfig, change: &Change) -> bool
    ensures { result ≡ true → NamesInterface config.now change.now }
{
    match change {
        Change::Cost { iface, .. } => *iface < config.interfaces().len(),
        _ => true,
    }
}

/// The configuration is changed.
fn change<S: RouteStore>(
    row: &mut Row<'_>,
    router: &mut Router<S>,
) -> Result<Answer, ReconfigureRefused> {
    let now = row.moment();
    let change = match row.call {
        "gain" => Change::Own {
            prefix: row.prefix(),
            tag: row.read(0),
        },
        "drop" => Change::Disown {
            prefix: row.prefix(),
        },
        verb => {
            row.is_bad |= verb != "cost";
            Change::Cost {
                iface: row.read(0),
                cost: row.read(0),
            }
        }
    };
    if is_named(router.config(), &change) {
        router.reconfigure(now, change)
    } else {
        Err(ReconfigureRefused::BadCost)
    }
}

/// Makes a call that moves a router, and writes its answer, unless time is told. With `free` it takes no memory.
fn act<S: RouteStore>(row: &mut Row<'_>, router: &mut Router<S>) -> Done {
    let made = match row.call {
        "hear" => {
            let arrival = row.arrival();
            let bytes = row.bytes()?;
            let bytes = bytes.as_slice();
            if arrival.iface >= router.config().interfaces().len() {
                row.is_bad = true;
                return Ok(());
            }
            hear(row, router, Arrival { bytes, ..arrival })
        }
        "tick" => tick(row, router),
        "restart" => router.restart(row.moment()),
        "shutdown" => router.shutdown(row.moment()),
        "link-down" => router.link_down(row.moment(), row.read(0)),
        "link-up" => router.link_up(row.moment(), row.read(0)),
        _ => match change(row, router) {
            Err(ReconfigureRefused::OutOfMemory) => Err(AllocError),
            Err(why) => return writeln!(row.text, "refused ReconfigureRefused({why:?})"),
            Ok(answer) => Ok(answer),
        },
    };
    match made {
        Ok(_) if row.form == "time" => Ok(()),
        Ok(answer) => write_answer(&mut row.text, &answer),
        Err(_) if row.form == "free" => writeln!(row.text, "refused OutOfMemory"),
        Err(_) => row.refuse(),
    }
}

/// Does a command.
pub fn obey<S: RouteStore>(row: &mut Row<'_>, router: &mut Router<S>) -> Done {
    match row.call {
        "show" => write_router(&mut row.text, router),
        "route" => write_one(row, router.routes()),
        "size" => writeln!(row.text, "{}", router.routes().len()),
        "due" => write_due(&mut row.text, router.next_due()),
        "wakes" => writeln!(row.text, "{}", router.wakes_at().ms()),
        _ => act(row, router),
    }
}
