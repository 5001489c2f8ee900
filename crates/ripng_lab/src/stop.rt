//! Why a script ends before its last line.

use crate::{BadLine, Expected, Fate, TableChange};
use prefix6::{Addr6, Prefix};
use ripng_clock::RunRefused;
use ripng_phases::PhaseRefused;
use ripng_world::{LabError, NetRefused, RoundsRefused};
use route_table::Moment;
use std::alloc::{AllocError, AllocFailed};
use std::{fmt, io};

/// Why a line is refused. Its text is what is printed after `line L refused `.
#[derive(Clone, Copy, Debug, PartialEq, Eq)]
pub enum Refusal {
    /// The line is malformed, or out of place.
    BadLine(BadLine),
    /// Two routers get one name.
    NameTwice,
    /// No interface is on the link.
    NoSuchLink,
    /// The datagram is lost.
    DatagramLost,
    /// Phases are asked for while a router is silent or a link is cut.
    Outage,
    /// There are no phases after a forged Response.
    LiedTo,
    /// The routers make no network.
    Network(NetRefused),
    /// The event cannot happen.
    Event(LabError),
    /// The rounds cannot go on.
    Rounds(RoundsRefused),
    /// The phases cannot go on from the one of that number, counted from 0.
    Phases { phase: usize, refused: PhaseRefused },
    /// Time cannot pass, or no further.
    Run(RunRefused),
}

/// What is not as a line expects.
#[derive(Clone, Copy, Debug, PartialEq, Eq)]
pub enum Unmet {
    /// A router's table has this metric in place of the expected one, or no route.
    Metric(Expected, Option<u8>),
    /// Something else becomes of packets.
    Fate {
        router: usize,
        addr: Addr6,
        expected: Fate,
        found: Fate,
    },
    /// An entry of a forwarding table has changed after the moment.
    Settled {
        by: Moment,
        change: TableChange,
    },
    /// A router's metric of a prefix is not the least cost of now.
    Healed {
        router: usize,
        prefix: Prefix,
        found: Option<u8>,
    },
    /// The line was to be refused by this name, and is done, or refused for another reason.
    Refusal(RefusalName, Option<Refusal>),
    /// The next line was to be refused by this name, and there is none.
    End(RefusalName),
}

/// Why a script ends before its last line.
#[derive(Debug, Drop)]
pub enum Stop {
    /// A line is refused.
    Refused(Refusal),
    /// What a line expects is not so.
    Unmet(Unmet),
    /// Memory or the writer failed.
    Failed(io::Error),
}

/// How a line ends: done, or as the script ends there. What was done before that stays done.
pub type Outcome = Result<(), Stop>;

/// The names that `refused NAME` may have, one space apart: of refusals that a line after `cold` may meet, and of a router's reasons to
/// refuse a change.
const NAMES: &str = "BadLine NoSuchLink DatagramLost Outage LiedTo NoSuchRouter \
    NoSuchInterface NoSuchDatagram OtherLink NotAStranger NotALiar ReconfigureRefused \
    NoRegularUpdate NoUpdateInTime PastLastMoment BeforeBegin TooManyEvents BadCost PrefixNotAllowed AlreadyOwned OwnedFull \
    NotOwned TableFull";

/// The name of a refusal, by its place among all.
#[derive(Clone, Copy, Debug, PartialEq, Eq)]
pub struct RefusalName(usize);

impl RefusalName {
    /// The name that a word is, if it is one.
    pub fn of(word: &str) -> Option<RefusalName> {
        let place = NAMES.split(' ').position(|name| name == word)?;
        Some(RefusalName(place))
    }

    /// The name, one word.
    pub fn word(self) -> &'static str {
        NAMES.split(' ').nth(self.0).unwrap_or("")
    }
}

impl Refusal {
    /// Its name, and its number if it is one of those of a network.
    fn name_and_number(&self) -> (&'static str, Option<u8>) {
        let (name, number) = match self {
            Refusal::BadLine(_) => return ("BadLine", None),
            Refusal::NameTwice => return ("NameTwice", None),
            Refusal::NoSuchLink => return ("NoSuchLink", None),
            Refusal::DatagramLost => return ("DatagramLost", None),
            Refusal::Outage => return ("Outage", None),
            Refusal::LiedTo => return ("LiedTo", None),
            Refusal::Network(refused) => refused.name_and_number(),
            Refusal::Event(error) => error.name_and_number(),
            Refusal::Rounds(refused) => refused.name_and_number(),
            Refusal::Phases { refused, .. } => refused.name_and_number(),
            Refusal::Run(refused) => refused.name_and_number(),
        };
        (name, Some(number))
    }

    /// Whether this is the name of the refusal, or of a router's reason for it.
    pub fn is_named(&self, name: &str) -> bool {
        match self {
            Refusal::Event(LabError::ReconfigureRefused(why)) if why.name() == name => true,
            _ => self.name_and_number().0 == name,
        }
    }
}

impl fmt::Display for Refusal {
    fn fmt<W: fmt::Write>(&self, f: &mut fmt::Formatter<W>) -> fmt::Result {
        let (name, number) = self.name_and_number();
        if let Some(number) = number {
            write!(f, "{number} ")?;
        }
        f.write_str(name)?;
        match self {
            Refusal::Network(NetRefused::BadRouter { router, refusal }) => {
                write!(f, " {router} {refusal}")
            }
            Refusal::Event(LabError::ReconfigureRefused(why)) => write!(f, " {why}"),
            Refusal::Rounds(RoundsRefused::NoRegularUpdate { round, router }) => {
                write!(f, " {round} {router}")
            }
            Refusal::Phases { phase, refused } => match refused {
                PhaseRefused::NoUpdateInTime { router } => write!(f, " {phase} {router}"),
                _ => write!(f, " {phase}"),
            },
            Refusal::Run(RunRefused::BeforeBegin { begin }) => write!(f, " {begin}"),
            _ => Ok(()),
        }
    }
}

impl From<BadLine> for Stop {
    fn from(bad: BadLine) -> Stop {
        Stop::Refused(Refusal::BadLine(bad))
    }
}

impl From<AllocError> for Stop {
    fn from(error: AllocError) -> Stop {
        Stop::Failed(io::Error::from(error))
    }
}

impl<T: Drop> From<AllocFailed<T>> for Stop {
    fn from(error: AllocFailed<T>) -> Stop {
        Stop::from(AllocError::from(error))
    }
}

impl From<io::Error> for Stop {
    ghost use Rattle.std.specs.Prelude.{◌≡◌};
    ghost use Rattle.ripng_lab.specs.declared.stop.Stop.TheVariants.{Failed};

    ghost from_gives = { λ error stop. stop ≡ Failed error };

    fn from(error: io::Error) -> Stop {
        Stop::Failed(error)
    }
}

impl From<Refusal> for Stop {
    fn from(refusal: Refusal) -> Stop {
        match refusal {
            Refusal::Network(NetRefused::OutOfMemory)
            | Refusal::Event(LabError::OutOfMemory)
            | Refusal::Rounds(RoundsRefused::OutOfMemory { .. }) => Stop::from(AllocError),
            _ => Stop::Refused(refusal),
        }
    }
}

impl From<LabError> for Stop {
    fn from(error: LabError) -> Stop {
        Stop::from(Refusal::Event(error))
    }
}
