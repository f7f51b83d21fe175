//! The counts of a link's frames, and times that are added up.
ghost use Rattle.std.specs.Prelude.{◌≡◌, if◌then◌else◌};
ghost use Rattle.judge.specs.Figures.{no_figures, no_times, total_with, total_if, mean_of, least_of, greatest_of, figures_after};

/// Counts of a link's frames on a network, by the plan. A full count stays full.
#[derive(Clone, Copy, Debug, Default, PartialEq, Eq)]
pub struct Figures {
    pub frames: u64,
    /// The bytes of these frames, without their check sequences.
    pub bytes: u64,
    /// The frames that end a message.
    pub messages: u64,
    /// The least time in nanoseconds from a frame to the next one, 0 if the next one has an earlier time.
    pub least_gap: Option<u128>,
    /// The greatest such time.
    pub greatest_gap: Option<u128>,
    /// All these times.
    pub gaps: Total,
}

/// Times in nanoseconds that were added up. A full count stays full, and so does a full sum.
#[derive(Clone, Copy, Debug, Default, PartialEq, Eq)]
pub struct Total {
    pub count: u64,
    pub sum: u128,
}

impl Total {
    /// Returns the mean time in nanoseconds, rounded down; `None` of no times.
    pub fn mean(&self) -> Option<u128>
        ensures { result ≡ mean_of self.now }
    {
        if self.count == 0 {
            None
        } else {
            Some(self.sum / self.count as u128)
        }
    }

    /// Returns the times with one more.
    pub(crate) fn with(self, time: u128) -> Total
        ensures { result ≡ total_with time self }
    {
        Total {
            count: self.count.saturating_add(1),
            sum: self.sum.saturating_add(time),
        }
    }
}

impl Figures {
    /// Returns the figures with one more frame of this length, which comes a gap after the one before it, if there is
    /// one.
    pub(crate) fn with(&self, len: u64, ends_message: bool, gap: Option<u128>) -> Figures
        ensures { result ≡ figures_after len ends_message gap self.now }
    {
        let ended = if ends_message { 1 } else { 0 };
        Figures {
            frames: self.frames.saturating_add(1),
            bytes: self.bytes.saturating_add(len),
            messages: self.messages.saturating_add(ended),
            least_gap: least_of(self.least_gap, gap),
            greatest_gap: greatest_of(self.greatest_gap, gap),
            gaps: match gap {
                Some(gap) => self.gaps.with(gap),
                None => self.gaps,
            },
        }
    }
}

/// Returns the lesser of two times. Either may be missing.
fn least_of(a: Option<u128>, b: Option<u128>) -> Option<u128>
    ensures { result ≡ least_of a b }
{
    match (a, b) {
        (None, b) => b,
        (Some(a), None) => Some(a),
        (Some(a), Some(b)) => Some(if b < a { b } else { a }),
    }
}

/// Returns the greater of two times. Either may be missing.
pub(crate) fn greatest_of(a: Option<u128>, b: Option<u128>) -> Option<u128>
    ensures { result ≡ greatest_of a b }
{
    match (a, b) {
        (None, b) => b,
        (Some(a), None) => Some(a),
        (Some(a), Some(b)) => Some(if a < b { b } else { a }),
    }
}
