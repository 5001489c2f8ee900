//! The records, and what they hold of other crates, as JSON.
#![tactic(auto, unfolding(crate::specs::Json::json_of_aside, crate::specs::Json::json_of_change, crate::specs::Json::json_of_counts, crate::specs::Json::json_of_due, crate::specs::Json::json_of_event, crate::specs::Json::json_of_fault, crate::specs::Json::json_of_happened, crate::specs::Json::json_of_hint, crate::specs::Json::json_of_hop, crate::specs::Json::json_of_interface, crate::specs::Json::json_of_note, crate::specs::Json::json_of_offer, crate::specs::Json::json_of_origin, crate::specs::Json::json_of_owned, crate::specs::Json::json_of_peer, crate::specs::Json::json_of_reconfigured, crate::specs::Json::json_of_route, crate::specs::Json::json_of_router, crate::specs::Json::json_of_sender, crate::specs::Json::json_of_sent, crate::specs::Json::json_of_start, crate::specs::Json::json_of_stranger, crate::specs::Json::json_of_timers))]

ghost use Rattle.std.specs.Prelude.{◌≡◌, option_map};
ghost use Rattle.ripng_trace.specs.Common.{Grows, json_tokens, json_of_aside, json_of_change, json_of_counts, json_of_due, json_of_event, json_of_fault, json_of_happened, json_of_hint, json_of_hop, json_of_interface, json_of_note, json_of_offer, json_of_origin, json_of_owned, json_of_peer, json_of_route, json_of_router, json_of_sender, json_of_sent, json_of_start, json_of_stranger, json_of_timers, json_of_update, update_name};

use crate::records::{
    Action, AsideRecord, EventRecord, Happened, OfferRecord, RouterRecord, StartRecord, Timers,
    UpdateRecord,
};
use crate::to_json::{JsonText, ToJson, object};
use fib::{Hop, RouteChange};
use json::Token;
use prefix6::{Addr6, Prefix};
use ripng_lab::Counts;
use ripng_world::{Event, Sent};
use route_table::{Deadline, Origin, Route};
use router_core::{Change, Destination, Fault, Interface, Note};

impl<'a> ToJson for StartRecord<'a> {
    ghost json = { json_of_start };

    fn write_json(&self, text: &mut JsonText) {
        object!(text, self.line, "record": &"start", self.now, self.routers, self.sent);
    }
}

impl<'a, 'b> ToJson for EventRecord<'a, 'b> {
    ghost json = { json_of_event };

    fn write_json(&self, text: &mut JsonText) {
        let answer = self.answer;
        text.token(Token::BeginObject);
        text.member("line", &self.line);
        text.member("record", &"event");
        text.member("router", &self.router);
        text.member("now", &self.now);
        text.member("event", &self.happened);
        text.member("fault", &answer.fault);
        text.member("notes", &answer.notes);
        text.member("offers", &self.offers);
        text.member("update", &self.update);
        text.member("changes", &answer.changes);
        text.member("sent", &self.sent);
        text.member("timers", &self.timers);
        text.member("routes", &self.news.routes);
        text.member("gone", &self.news.gone);
        text.token(Token::EndObject);
    }
}

impl<'a> ToJson for AsideRecord<'a> {
    ghost json = { json_of_aside };

    fn write_json(&self, text: &mut JsonText) {
        let line = &self.line;
        match &self.action {
            Action::Prints { word, lines, .. } => {
                object!(text, line, "record": word, "prints": lines);
            }
            Action::Asks {
                router,
                now,
                lost,
                lost_at,
                ..
            } => object!(text, line, "record": &"asks", router, now, lost, lost_at),
            Action::Loses(datagram) => object!(text, line, "record": &"lost", datagram),
            Action::GoesRound { rounds, last } => {
                object!(text, line, "record": &"rounds", rounds, last);
            }
            Action::Makes(made) => object!(text, line, "record": &"phases", made.phases, made.last),
            Action::Runs { until, seed } => object!(text, line, "record": &"run", until, seed),
            Action::Tallies(counts) => write_counts(text, line, counts, &last_at(counts)),
            Action::Ends { why, hint, .. } => object!(text, line, "record": &"refused", why, hint),
        }
    }
}

/// Writes the record of a line that shows what was counted, with the moment of the last change.
fn write_counts(text: &mut JsonText, line: &usize, counts: &Counts, last: &Option<u64>)
    ensures { Grows text.old text.new (json_tokens (json_of_counts line.now counts.now last.now)) }
{
    text.token(Token::BeginObject);
    text.member("line", line);
    text.member("record", &"counts");
    text.member("datagrams", &counts.datagrams);
    text.member("entries", &counts.entries);
    text.member("bytes", &counts.bytes);
    text.member("regular", &counts.regular);
    text.member("triggered", &counts.triggered);
    text.member("requests", &counts.requests);
    text.member("replies", &counts.replies);
    text.member("changes", &counts.changes);
    text.member("last", last);
    text.token(Token::EndObject);
}

/// The moment of the last change, in milliseconds.
fn last_at(counts: &Counts) -> Option<u64>
    ensures { result ≡ option_map (λ change. change.at) counts.now.last }
{
    match counts.last {
        Some(change) => Some(change.at.ms()),
        None => None,
    }
}

/// A hint, after the number of the line that has the fault.
impl ToJson for (usize, String) {
    ghost json = { json_of_hint };

    fn write_json(&self, text: &mut JsonText) {
        object!(text, "line": &self.0, "text": &self.1.as_str());
    }
}

impl ToJson for RouterRecord {
    ghost json = { json_of_router };

    fn write_json(&self, text: &mut JsonText) {
        object!(text, "quiet": &self.quiet, self.interfaces, self.prefixes, self.timers, self.routes);
    }
}

/// An interface of a router, with the number of its link.
impl ToJson for (Interface, Option<u32>) {
    ghost json = { json_of_interface };

    fn write_json(&self, text: &mut JsonText) {
        let (interface, link) = self;
        object!(text, interface.addr, interface.cost, interface.mtu, link);
    }
}

/// A prefix of the router's own, with its tag.
impl ToJson for (Prefix, u16) {
    ghost json = { json_of_owned };

    fn write_json(&self, text: &mut JsonText) {
        object!(text, "prefix": &self.0, "tag": &self.1);
    }
}

impl ToJson for Timers {
    ghost json = { json_of_timers };

    fn write_json(&self, text: &mut JsonText) {
        object!(text, self.last, self.regular, self.hold, self.due);
    }
}

/// The next deadline of a route, and the first prefix whose route has it.
impl ToJson for (Deadline, Prefix) {
    ghost json = { json_of_due };

    fn write_json(&self, text: &mut JsonText) {
        object!(text, "until": &self.0.ms(), "prefix": &self.1);
    }
}

impl ToJson for (Prefix, Route) {
    ghost json = { json_of_route };

    fn write_json(&self, text: &mut JsonText) {
        let route = &self.1;
        object!(
            text, "prefix": &self.0, "metric": &route.metric(), "tag": &route.tag(), "gateway": &route.origin(),
            "until": &route.deadline().map(|until| until.ms()), "marked": &route.is_changed()
        );
    }
}

/// From where a route was learned: `null` for a local one.
impl ToJson for Origin {
    ghost json = { json_of_origin };

    fn write_json(&self, text: &mut JsonText) {
        match self {
            Origin::Own => text.token(Token::Null),
            Origin::Learned {
                iface,
                from,
                next_hop,
            } => object!(text, iface, from, next_hop),
        }
    }
}

impl<'a, 'b> ToJson for Happened<'a, 'b> {
    ghost json = { json_of_happened };

    fn write_json(&self, text: &mut JsonText) {
        match self.event {
            Event::Deliver {
                datagram,
                iface,
                ..
            } => object!(text, "kind": &"deliver", datagram, iface, self.sender),
            Event::Stranger { arrival, .. } if self.is_forged => {
                object!(text, "kind": &"liar", arrival.iface, arrival.source, arrival.bytes);
            }
            Event::Stranger { arrival, .. } => object!(
                text, "kind": &"stranger", arrival.iface, arrival.source, "port": &arrival.source_port, arrival.hop_limit,
                "group": &arrival.to_group, arrival.bytes
            ),
            Event::Tick { word, .. } => object!(text, "kind": &"tick", "word": &u64::from(*word)),
            Event::Restart { .. } => object!(text, "kind": &"restart"),
            Event::Shutdown { .. } => object!(text, "kind": &"shutdown"),
            Event::LinkDown { iface, .. } => object!(text, "kind": &"link_down", iface),
            Event::LinkUp { iface, .. } => object!(text, "kind": &"link_up", iface),
            Event::Reconfigure { change, .. } => match change {
                Change::Cost { iface, cost } => object!(text, "kind": &"cost", iface, cost),
                Change::Own { prefix, tag } => object!(text, "kind": &"gain", prefix, tag),
                Change::Disown { prefix } => object!(text, "kind": &"drop", prefix),
            },
        }
    }
}

/// From where a datagram was sent: the router, and its interface with the address.
impl<'a> ToJson for (&'a Sent, Option<Addr6>) {
    ghost json = { json_of_sender };

    fn write_json(&self, text: &mut JsonText) {
        let (sent, addr) = self;
        object!(text, sent.router, sent.iface, addr);
    }
}

impl ToJson for Fault {
    ghost json = { json_of_fault };

    fn write_json(&self, text: &mut JsonText) {
        object!(text, "number": &self.number(), "name": &self.name());
    }
}

impl ToJson for Note {
    ghost json = { json_of_note };

    fn write_json(&self, text: &mut JsonText) {
        let kind = self.kind;
        object!(text, self.entry, "number": &kind.number(), "name": &kind.name());
    }
}

/// Why an offer is adopted or not, by the name of the row.
impl ToJson for OfferRecord {
    ghost json = { json_of_offer };

    fn write_json(&self, text: &mut JsonText) {
        object!(
            text, self.entry, self.prefix, self.metric, self.tag, self.next_hop, "why": &self.why.name()
        );
    }
}

impl ToJson for UpdateRecord {
    ghost json = { json_of_update };

    fn write_json(&self, text: &mut JsonText) {
        text.token(Token::String(match self {
            UpdateRecord::Regular => "regular",
            UpdateRecord::Triggered => "triggered",
            UpdateRecord::Held => "held",
        }));
    }
}

impl ToJson for RouteChange {
    ghost json = { json_of_change };

    fn write_json(&self, text: &mut JsonText) {
        match self {
            RouteChange::Install {
                prefix,
                hop,
                metric,
            } => object!(text, "change": &"add", prefix, metric, "via": hop),
            RouteChange::Withdraw { prefix } => object!(text, "change": &"del", prefix),
        }
    }
}

/// A prefix of the router's own has no next hop: `null`.
impl ToJson for Hop {
    ghost json = { json_of_hop };

    fn write_json(&self, text: &mut JsonText) {
        match self {
            Hop::Direct => text.token(Token::Null),
            Hop::Via { iface, next_hop } => object!(text, iface, next_hop),
        }
    }
}

/// The group of all routers is `null`.
impl ToJson for Destination {
    ghost json = { json_of_peer };

    fn write_json(&self, text: &mut JsonText) {
        match self {
            Destination::Group => text.token(Token::Null),
            Destination::Peer { addr, port } => object!(text, addr, port),
        }
    }
}

/// A datagram that was sent, with its number.
impl<'a> ToJson for (usize, &'a Sent) {
    ghost json = { json_of_sent };

    fn write_json(&self, text: &mut JsonText) {
        let (datagram, sent) = self;
        let bytes = &sent.bytes.as_slice();
        object!(text, datagram, sent.router, sent.iface, "peer": &sent.to, bytes);
    }
}
