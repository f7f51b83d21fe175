//! The times from which and up to which each network was recorded.
ghost use Rattle.std.specs.Prelude.{◌≡◌};
ghost use Rattle.judge.specs.Times.{no_times, span_with, times_with, recorded_for, other_span};

use afdx_frame::Net;

/// The times of a network's packets so far, in nanoseconds: the earliest one's, and the latest one's.
#[derive(Clone, Copy)]
pub(crate) struct Span {
    pub(crate) earliest: u128,
    pub(crate) latest: u128,
}

/// Returns the times of a network with one more packet.
fn span_with(at: u128, span: Option<Span>) -> Span
    ensures { result ≡ span_with at span }
{
    let Some(span) = span else {
        return Span {
            earliest: at,
            latest: at,
        };
    };
    Span {
        earliest: if at < span.earliest {
            at
        } else {
            span.earliest
        },
        latest: if span.latest < at { at } else { span.latest },
    }
}

/// The times of the packets of both networks. A network without a packet has none.
#[derive(Clone, Copy)]
pub(crate) struct Times {
    pub(crate) a: Option<Span>,
    pub(crate) b: Option<Span>,
}

impl Times {
    /// Creates the times of no packet.
    pub(crate) fn new() -> Times
        ensures { result ≡ no_times }
    {
        Times { a: None, b: None }
    }

    /// Returns the times with one more packet of a network.
    pub(crate) fn with(self, net: Net, at: u128) -> Times
        ensures { result ≡ times_with net at self }
    {
        let Times { a, b } = self;
        match net {
            Net::A => Times {
                a: Some(span_with(at, a)),
                b,
            },
            Net::B => Times {
                a,
                b: Some(span_with(at, b)),
            },
        }
    }

    /// Returns the time from the earliest packet of a network to the latest.
    pub(crate) fn recorded_for(&self, net: Net) -> Option<u128>
        ensures { result ≡ recorded_for net self.now }
    {
        let span = match net {
            Net::A => self.a,
            Net::B => self.b,
        }?;
        Some(span.latest.saturating_sub(span.earliest))
    }

    /// Returns the times of the other network than this one.
    pub(crate) fn other_than(&self, net: Net) -> Option<Span>
        ensures { result ≡ other_span net self.now }
    {
        match net {
            Net::A => self.b,
            Net::B => self.a,
        }
    }
}
