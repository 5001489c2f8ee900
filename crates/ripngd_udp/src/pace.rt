//! The pace of sending: some datagrams at once, and then a pause. A socket of loopback holds about 90 datagrams of an update of a whole
//! table. More are lost, and the sender is not told. So the routers on a link share what each of their sockets holds, as if all of them
//! sent at once. A port for the group is of somebody who makes the copies, and keeps them.

ghost use Rattle.std.specs.Prelude.{◌≡◌, ◌+◌, ◌-◌, ◌^◌, ◌<◌, ◌≤◌, min};
ghost use Rattle.ripngd_udp.specs.Common.{rate_among, real_rate, share_among};

/// How many datagrams the socket of a neighbor on loopback may get without a pause.
const AT_ONCE: usize = 64;

/// After how many milliseconds it may get as many again.
const PAUSE_MS: u64 = 16;

/// After how many milliseconds one datagram follows another on a real link: the socket of FRR holds no more than seven of an update.
/// The clock counts whole milliseconds, so that up to one of these has passed already.
const REAL_PAUSE_MS: u64 = 3;

/// How many datagrams an interface with that number of peers may send without a pause: its share, and at least one.
fn share_among(peers: usize) -> usize
    ensures share { result ≡ share_among peers }
    ensures some { 1 ≤ result }
    ensures few { result ≤ 64 }
{
    (AT_ONCE / peers.max(1)).max(1)
}

/// How many datagrams may go out without a pause, and how long that is, in milliseconds.
#[derive(Clone, Copy, Debug, PartialEq, Eq)]
pub(crate) struct Rate {
    pub(crate) share: usize,
    pub(crate) pause_ms: u64,
}

impl Rate {
    /// That of an interface with that number of peers.
    pub(crate) fn among(peers: usize) -> Rate
        ensures { result ≡ rate_among peers }
    {
        Rate {
            share: share_among(peers),
            pause_ms: PAUSE_MS,
        }
    }

    /// That of a real link, whoever is on it.
    pub(crate) fn real() -> Rate
        ensures { result ≡ real_rate }
    {
        Rate {
            share: 1,
            pause_ms: REAL_PAUSE_MS,
        }
    }
}

/// How many datagrams may go out now.
#[derive(Clone, Copy, Debug, PartialEq, Eq)]
pub(crate) struct Pace {
    /// When the pause is over, in milliseconds.
    opens: u64,
    /// How many may go out before that.
    left: usize,
    ghost few: { left ≤ 64 },
}

impl Pace {
    /// The pace before anything was sent.
    pub(crate) fn new() -> Pace
        ensures { (result.opens ≡ 0) × (result.left ≡ 0) }
    {
        Pace { opens: 0, left: 0 }
    }

    /// How many of `wanted` datagrams may go out at a moment, in milliseconds, at a rate. They are counted as sent, and the pause begins
    /// after them: so no more than a share goes out in the time of a pause.
    pub(crate) fn take(&mut self, wanted: usize, rate: Rate, now: u64) -> usize
        requires { rate.share ≤ 64 }
        ensures paused { now < self.old.opens → (result ≡ min wanted self.old.left) × (self.new.left ≡ self.old.left - result) }
        ensures anew { self.old.opens ≤ now → (result ≡ min wanted rate.share) × (self.new.left ≡ rate.share - result) }
        ensures pause { 0 < result → self.new.opens ≡ min (now + rate.pause_ms) (2 ^ 64 - 1) }
        ensures none { result ≡ 0 → self.new.opens ≡ self.old.opens }
    {
        if self.opens <= now {
            self.left = rate.share;
        }
        let taken = wanted.min(self.left);
        if taken > 0 {
            self.opens = now.saturating_add(rate.pause_ms);
            self.left -= taken;
        }
        taken
    }

    /// How many milliseconds after a moment one may go out.
    pub(crate) fn until_open(&self, now: u64) -> u64 {
        if self.left > 0 {
            0
        } else {
            self.opens.saturating_sub(now)
        }
    }
}
