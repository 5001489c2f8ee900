//! Why a configuration is refused.

ghost use Rattle.std.specs.Prelude.{◌≡◌};
ghost use Rattle.ripngd_config.specs.Common.{OutOfMemory};

use router_core::ConfigRefused;
use std::alloc::AllocError;
use thiserror::Error;

/// Why a configuration is refused. It is printed as its number, which never changes, its name, and the path of the key or table, as
/// `interface[0].peer[1].port`. Not printed with it are the place of a text that is no TOML, as `line 1, column 5`, and the
/// interface or prefix that the router refuses, as `interface 0, fe80::1`.
#[derive(Debug, Drop, Error)]
pub enum ConfigFault {
    /// The text is not TOML, or not UTF-8, at this place.
    #[error("1 BadToml")]
    BadToml(String),
    /// A required key is missing.
    #[error("2 MissingKey {0}")]
    MissingKey(String),
    /// The value of a key has the wrong type.
    #[error("3 WrongType {0}")]
    WrongType(String),
    /// A number is out of range, or a text is no address or prefix.
    #[error("4 BadValue {0}")]
    BadValue(String),
    /// A table has an unknown key.
    #[error("5 UnknownKey {0}")]
    UnknownKey(String),
    /// The router's own check refuses this interface or prefix, or the whole.
    #[error("6 Router {0}")]
    Router(ConfigRefused, Option<String>),
    /// An interface has the local port of an earlier one, or its group port is the local port of an interface or a peer.
    #[error("7 PortTwice {0}")]
    PortTwice(String),
    /// A peer has the address or the local port of an earlier peer of its interface.
    #[error("8 PeerTwice {0}")]
    PeerTwice(String),
    /// There was not enough memory.
    #[error("9 OutOfMemory")]
    OutOfMemory,
}

/// What was read, or why the configuration is refused.
pub(crate) type Read<T> = Result<T, ConfigFault>;

impl From<AllocError> for ConfigFault {
    ghost from_gives = { λ _ fault. fault ≡ OutOfMemory };

    fn from(_error: AllocError) -> ConfigFault {
        ConfigFault::OutOfMemory
    }
}
