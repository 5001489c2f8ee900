//! Reads and checks a configuration.

ghost use Rattle.std.specs.Prelude.{◌≡◌, IfErr, IfOk, map};
ghost use Rattle.ripngd_config.specs.Common.{HasOneEach, IsConfigured, RefusesConfig, RefusesRouter, RefusesText, Says, owned_by, places_of, router_config_of, IsConfig};

use crate::fault::{ConfigFault, Read};
use crate::lists::{announcements_of, filters_of, limits_of, passive_of};
use crate::naming::{end_of, refused_part};
use crate::section::{FromSection, Section};
use crate::tables::{Document, InterfaceTable};
use crate::twice::{check_group_ports, check_peers, check_ports};
use prefix6::Prefix;
use rand_core::SeedableRng;
use rand_pcg::Pcg32;
use ripngd_engine::{Peer, Place};
use router_core::{Interface, RouterConfig};
use std::alloc::{AllocError, Global};

/// A configuration.
#[derive(Drop)]
pub struct Config {
    /// Its interfaces and the prefixes that it owns.
    pub router: RouterConfig,
    /// For each interface its address and ports. No two have one local port, and no local port is a group port.
    pub places: Vec<Place>,
    /// For each interface its peers. No two of one interface have the same address or local port.
    pub peers: Vec<Vec<Peer>>,
    /// The source of its random numbers.
    pub rng: Pcg32,
}

/// Reads a configuration. An owned prefix without a tag gets `default_tag`; a quiet router is passive.
///
/// # Errors
/// The first fault of the text, with its path. Keys of a table are read in the order of docs/OPERATING.md, then its unknown keys;
/// members of an array are read in their order. Then come the router's own check, the local ports, the group ports, and the peers.
pub fn read_config(
    alloc: Global,
    text: &[u8],
    default_tag: u16,
    quiet: bool,
) -> Result<Config, ConfigFault>
    ensures read { IfOk result (IsConfigured text.now default_tag quiet) }
    ensures one_each { IfOk result HasOneEach }
    ensures refused { IfErr result (RefusesConfig text.now default_tag quiet) }
{
    let document = document_of(alloc, text)?;
    let router = router_of(alloc, &document, default_tag, quiet)?;
    check_ports(alloc, &document.interfaces)?;
    check_group_ports(alloc, &document.interfaces)?;
    check_peers(alloc, &document.interfaces)?;
    let places = places_of(alloc, &document)?;
    let rng = Pcg32::seed_from_u64(document.seed);
    let peers = peers_of(alloc, document.interfaces)?;
    Ok(Config {
        router,
        places,
        peers,
        rng,
    })
}

/// The tables of a text, which must be TOML in UTF-8.
fn document_of(alloc: Global, text: &[u8]) -> Read<Document>
    ensures read { IfOk result (Says text.now) }
    ensures refused { IfErr result (RefusesText text.now) }
{
    let table = match toml::table_from_slice(alloc, text) {
        Ok(table) => table,
        Err(error) => match error.span() {
            Some(span) => return Err(ConfigFault::BadToml(end_of(alloc, &text[..span.start])?)),
            None => return Err(ConfigFault::OutOfMemory),
        },
    };
    Document::from_section(Section {
        alloc,
        table: &table,
        path: "",
    })
}

/// The configuration of the router, checked by `router_core`.
fn router_of(alloc: Global, document: &Document, tag: u16, quiet: bool) -> Read<RouterConfig>
    ensures kept { IfOk result (λ c. c ≡ router_config_of tag quiet document.now) }
    ensures lawful { IfOk result IsConfig }
    ensures refused { IfErr result (RefusesRouter (router_config_of tag quiet document.now)) }
{
    let interfaces = interfaces_of(alloc, &document.interfaces)?;
    let owned = owned_by(alloc, document, tag)?;
    let filters = filters_of(alloc, &document.interfaces)?;
    let limits = limits_of(alloc, &document.interfaces)?;
    let passive = passive_of(alloc, &document.interfaces)?;
    let announcements = announcements_of(alloc, &document.interfaces)?;
    match RouterConfig::check(interfaces, owned, quiet) {
        Ok(router) => Ok(
            router
                .filtered(filters, limits)
                .announcing(passive, announcements),
        ),
        Err(why) => Err(ConfigFault::Router(why, refused_part(alloc, document, why)?)),
    }
}

fn interfaces_of(alloc: Global, tables: &[InterfaceTable]) -> Result<Vec<Interface>, AllocError>
    ensures { IfOk result (λ v. v.items ≡ map (λ t. t.interface) tables.now) }
{
    tables.iter().map(|table| table.interface).collect(alloc)
}

/// The prefixes that the router owns, with their tags.
fn owned_by(alloc: Global, document: &Document, tag: u16) -> Result<Vec<(Prefix, u16)>, AllocError>
    ensures { IfOk result (λ v. v.items ≡ owned_by tag document.now) }
{
    document
        .prefixes
        .iter()
        .map(|table| (table.prefix, table.tag.unwrap_or(tag)))
        .collect(alloc)
}

fn places_of(alloc: Global, document: &Document) -> Result<Vec<Place>, AllocError>
    ensures { IfOk result (λ v. v.items ≡ places_of document.now) }
{
    document
        .interfaces
        .iter()
        .map(|table| Place {
            addr: table.interface.addr,
            socket: table.socket,
        })
        .collect(alloc)
}

fn peers_of(alloc: Global, tables: Vec<InterfaceTable>) -> Result<Vec<Vec<Peer>>, AllocError>
    ensures { IfOk result (λ v. v.items ≡ map (λ t. t.peers) tables.items) }
{
    tables.into_iter().map(|table| table.peers).collect(alloc)
}
