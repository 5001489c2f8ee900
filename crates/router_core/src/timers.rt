//! The timers of the protocol, in milliseconds (RFC 2080, sections 2.3 and 2.5.1).

/// Route timeout (RFC 2080, section 2.3).
pub const TIMEOUT_MS: u32 = 180_000;

/// Half of the route timeout: after it an equal metric of another gateway is adopted (RFC 2080, section 2.4.2).
pub const HALF_TIMEOUT_MS: u32 = TIMEOUT_MS / 2;

/// Garbage-collection time: how long a withdrawn route is advertised with metric 16 (RFC 2080, section 2.3).
pub const GARBAGE_TIME_MS: u32 = 120_000;

/// Least time between two regular updates. With the spread below it is 30 s, give or take 15 s (RFC 2080, section 2.3).
pub const REGULAR_LEAST_MS: u32 = 15_000;

/// The random part of that time is less than this (RFC 2080, section 2.3: routers must not fall into step).
pub const REGULAR_SPREAD_MS: u32 = 30_001;

/// Least delay from a triggered update to the next: 1 to 5 s with the spread below (RFC 2080, section 2.5.1).
pub const HOLD_LEAST_MS: u32 = 1_000;

/// The random part of that delay is less than this (RFC 2080, section 2.5.1).
pub const HOLD_SPREAD_MS: u32 = 4_001;
