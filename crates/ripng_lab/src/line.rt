//! A line of a script: what it does, and what its words stand for.

ghost use Rattle.std.specs.Prelude.{◌≡◌, IfOk, IfSome};
ghost use Rattle.ripng_lab.specs.Common.{IsVerbOf, arrival_by, event_by, event_of};

use crate::context::{are_bytes, at_most, is_name, moment_after, named, number, up_to};
use crate::expecting::FATES;
use crate::forms::{Step, Verb, first_word, forms};
use crate::horizon::HORIZONS;
use crate::moving::{PHASES_LIMIT, end_of_phases};
use crate::plan::{Ticking, Wave};
use crate::{BadLine, Context, Fate, Horizon, RefusalName, Wrong};
use prefix6::{Addr6, Prefix, parse_addr, parse_prefix};
use ripng_wire::{Command, Rte, encode};
use ripng_world::Event;
use route_table::{INFINITY, Moment};
use router_core::{Arrival, Change, MAX_HOP_LIMIT, OWNED_LIMIT, RIPNG_PORT};
use std::alloc::{AllocError, Global};

const ROUNDS_LIMIT: usize = 1000;

/// The longest delay of a link, in milliseconds.
const DELAY_LIMIT: u32 = 60_000;

/// The greatest loss of a link, of a hundred datagrams.
const HUNDRED: u8 = 100;

/// The MTU of an interface whose line has none, in bytes: that of an Ethernet.
const MTU: u32 = 1500;

/// A line, with a field for each part of the forms. A part that its form lacks is as it is in a new line.
#[derive(Drop)]
pub struct Line<'a> {
    pub verb: Verb,
    /// NAME, HEX, TEXT, or all K.
    pub text: &'a str,
    /// ADDR or SOURCE.
    pub addr: Addr6,
    pub cost: u8,
    pub mtu: u32,
    pub link: u32,
    pub prefix: Prefix,
    pub tag: u16,
    /// TIMES, ROUNDS or PHASES.
    pub count: usize,
    pub now: Moment,
    pub datagram: usize,
    pub router: usize,
    pub iface: usize,
    port: u16,
    hop_limit: u8,
    to_group: bool,
    command: Command,
    pub word: u32,
    pub gap: u64,
    pub seed: u64,
    /// Of a link, in milliseconds.
    pub delay: u32,
    /// How many of a hundred datagrams a link loses.
    pub loss: u8,
    pub metric: Option<u8>,
    pub fate: Fate,
    pub horizon: Horizon,
    pub refusal: Option<RefusalName>,
    /// The time that this line, or one before it, has named last.
    last: Option<Moment>,
    /// How many words were read.
    place: usize,
}

/// Reads a line, whose words are one space apart; or says where it leaves the form that it follows longest. The last time is then the
/// one that it names.
pub fn read_line<'a>(text: &'a str, context: &mut Context) -> Result<Line<'a>, BadLine>
    ensures { IfOk result (λ line. IsVerbOf line.verb text.now) }
{
    let (mut farthest, mut last) = (0, context.last);
    let mut bad = BadLine::Unknown;
    for form in 0..forms().len() {
        let Some((words, verb)) = form_for(form, text) else {
            continue;
        };
        let mut line = Line::new(verb, context);
        let Err(wrong) = line.follow(words, text, context) else {
            context.last = line.last;
            return Ok(line);
        };
        let place = line.place;
        if place > farthest {
            farthest = place;
            last = line.last;
            bad = BadLine::Word { form, place, wrong };
        }
    }
    context.last = last;
    Err(bad)
}

/// The form of that number among all, if it begins with the first word of a line: its words, and what a line of it does.
fn form_for(number: usize, line: &str) -> Option<(&'static str, Verb)>
    ensures { IfSome result (λ form. IsVerbOf form.1 line.now) }
{
    let Some(form) = forms().get(number) else {
        return None;
    };
    if first_word(form.0) != first_word(line) {
        return None;
    }
    Some(*form)
}

impl<'a> Line<'a> {
    fn new(verb: Verb, context: &Context) -> Line<'a>
        ensures { result.verb ≡ verb }
    {
        Line {
            verb,
            text: "",
            addr: Addr6::from_bits(0),
            cost: 0,
            mtu: MTU,
            link: 0,
            prefix: Prefix::new(Addr6::from_bits(0), 0).unwrap(),
            tag: 0,
            count: 1,
            now: context.last.unwrap_or(Moment::new(0).unwrap()),
            datagram: 0,
            router: 0,
            iface: 0,
            port: RIPNG_PORT,
            hop_limit: MAX_HOP_LIMIT,
            to_group: true,
            command: Command::Response,
            word: 0,
            gap: 0,
            seed: context.seed,
            delay: 0,
            loss: 0,
            metric: None,
            fate: Fate::Arrives,
            horizon: Horizon::Poison,
            refusal: None,
            last: context.last,
            place: 0,
        }
    }

    /// Reads the words of a line by those of a form, up to the first that does not fit. For K and TEXT all that are left are one.
    fn follow(&mut self, form: &str, text: &'a str, context: &Context) -> Result<(), Wrong>
        ensures { self.new.verb ≡ self.old.verb }
    {
        let mut rest = Some(text);
        for part in form.split(' ') {
            let left = rest.ok_or(Wrong::Missing)?;
            let (word, more) = match left.split_once(' ') {
                Some((word, more)) if part != "K" && part != "TEXT" => (word, Some(more)),
                _ => (left, None),
            };
            self.take(part, word, context)?;
            rest = more;
            self.place = self.place.saturating_add(1);
        }
        rest.map_or(Ok(()), |_| Err(Wrong::TooMany))
    }

    /// Reads a word, or for K and TEXT all that are left, as a part of the form.
    fn take(&mut self, part: &str, word: &'a str, context: &Context) -> Result<(), Wrong>
        ensures { self.new.verb ≡ self.old.verb }
    {
        match part {
            "R" => self.router = context.router(word)?,
            "I" => self.iface = number(word)?,
            "N" => self.datagram = context.datagram(word)?,
            "NOW" | "UNTIL" => {
                self.now = context.moment(word)?;
                self.last = Some(self.now);
            }
            "BY" => self.now = context.moment(word)?,
            "WORD" => self.word = number(word)?,
            "COST" => self.cost = number(word)?,
            "MTU" => self.mtu = number(word)?,
            "LINK" => self.link = number(word)?,
            "TAG" => self.tag = number(word)?,
            "PORT" => self.port = number(word)?,
            "HOP" => self.hop_limit = number(word)?,
            "TIMES" => self.count = up_to(word, OWNED_LIMIT)?,
            "ROUNDS" => self.count = up_to(word, ROUNDS_LIMIT)?,
            "GAP" => {
                self.gap = number(word)?;
                let gaps = self.count.saturating_sub(1) as u64;
                self.last = Some(moment_after(self.now, self.gap, gaps).ok_or(Wrong::TooLate)?);
            }
            "PHASES" => {
                self.count = up_to(word, PHASES_LIMIT)?;
                self.last = context.latest.and_then(|at| end_of_phases(at, self.count));
            }
            "SEED" => self.seed = number(word)?,
            "DELAY" => self.delay = at_most(word, DELAY_LIMIT)?,
            "LOSS" => self.loss = at_most(word, HUNDRED)?,
            part => self.take_other(part, word)?,
        }
        Ok(())
    }

    /// Reads a word as a part that is no number, or as itself.
    fn take_other(&mut self, part: &str, word: &'a str) -> Result<(), Wrong>
        ensures { self.new.verb ≡ self.old.verb }
    {
        match part {
            "NAME" if is_name(word) && word != "quiet" => self.text = word,
            "HEX" if word == "-" || are_bytes(word.as_bytes()) => self.text = word,
            "NAME" | "HEX" => return Err(Wrong::Differs),
            "ADDR" | "SOURCE" => self.addr = parse_addr(word).map_err(|_| Wrong::Differs)?,
            "PREFIX" => self.prefix = parse_prefix(word).map_err(|_| Wrong::Differs)?,
            "ASKED" => {
                self.command = Command::Request;
                self.to_group = false;
                if word != "all" {
                    self.prefix = parse_prefix(word).map_err(|_| Wrong::Differs)?;
                    self.metric = Some(0);
                }
            }
            "TO" => self.to_group = named(word, &[("group", true), ("peer", false)])?,
            "K" => self.take_places(word)?,
            "TEXT" => self.text = word,
            "METRIC" if word == "none" => self.metric = None,
            "METRIC" | "HOPS" => self.metric = Some(up_to(word, INFINITY)?),
            "FATE" => self.fate = named(word, &FATES)?,
            "HORIZON" => self.horizon = named(word, &HORIZONS)?,
            "REFUSAL" => self.refusal = Some(RefusalName::of(word).ok_or(Wrong::Differs)?),
            literal if literal == word => {}
            _ => return Err(Wrong::Differs),
        }
        Ok(())
    }

    /// The numbers of datagrams that are lost.
    fn take_places(&mut self, words: &'a str) -> Result<(), Wrong>
        ensures { self.new.verb ≡ self.old.verb }
    {
        for word in words.split(' ') {
            let _: usize = number(word)?;
            self.place = self.place.saturating_add(1);
        }
        self.text = words;
        Ok(())
    }

    /// The event that the line makes happen at an interface of a router.
    pub fn event(&self, step: Step, router: usize, iface: usize) -> Event<'static>
        ensures { event_of result ≡ event_by step self.entry.now router iface }
    {
        let (now, word, datagram) = (self.now, self.word, self.datagram);
        let (cost, prefix, tag) = (self.cost, self.prefix, self.tag);
        let reconfigure = |change| Event::Reconfigure {
            router,
            now,
            change,
        };
        match step {
            Step::Deliver => Event::Deliver {
                datagram,
                router,
                iface,
                now,
            },
            Step::Tick => Event::Tick { router, now, word },
            Step::Restart => Event::Restart { router, now },
            Step::Shutdown => Event::Shutdown { router, now },
            Step::Down => Event::LinkDown { router, iface, now },
            Step::Up => Event::LinkUp { router, iface, now },
            Step::Cost => reconfigure(Change::Cost { iface, cost }),
            Step::Gain => reconfigure(Change::Own { prefix, tag }),
            Step::Drop => reconfigure(Change::Disown { prefix }),
        }
    }

    /// What a line of many events makes happen.
    pub fn wave(&self, ticking: Ticking) -> Wave<'a>
        ensures ticking { result.ticking ≡ ticking }
        ensures moment { result.moment ≡ self.entry.now.now }
    {
        Wave {
            ticking,
            moment: self.now,
            lost: self.text,
        }
    }

    /// A datagram of an outside host, with these bytes, as it arrives. If the line does not say otherwise, it comes as a Response of
    /// the link does.
    pub fn arrival<'b>(&self, bytes: &'b [u8]) -> Arrival<'b>
        ensures { result ≡ arrival_by self.entry.now bytes.now }
    {
        Arrival {
            now: self.now,
            iface: self.iface,
            source: self.addr,
            source_port: self.port,
            hop_limit: self.hop_limit,
            to_group: self.to_group,
            bytes,
        }
    }

    /// HEX, or without it a message with one entry, for PREFIX or ASKED, with the tag 0: a Response with the metric HOPS, or a Request,
    /// which for the whole table is for ::/0 with metric 16 (RFC 2080, section 2.4.1).
    pub fn bytes(&self, alloc: Global) -> Result<Vec<u8>, AllocError> {
        match self.text {
            "" => {
                let entry = Rte {
                    addr: self.prefix.addr().bits(),
                    tag: 0,
                    len: self.prefix.len(),
                    metric: self.metric.unwrap_or(INFINITY),
                };
                encode(alloc, self.command, &[entry])
            }
            "-" => Ok(Vec::new(alloc)),
            digits => hex::decode(alloc, digits).map_err(|_| AllocError),
        }
    }
}
