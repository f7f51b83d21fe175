//! The interface of a network.
ghost use Rattle.std.specs.Prelude.{◌≡◌, ℕ, ◌+◌, ◌^◌, ◌<◌, ◌≤◌, Bool, true, false, List, [], ◌∷◌, ◌++◌, length, OnOk, OnErr, IsErr};
ghost use Rattle.redundant_mux.specs.Lines.{Entry, entry, IsAnswer};

use afdx_frame::{FrameBuffer, GREATEST_FRAME};
use thiserror::Error;

/// The network did not accept a frame.
#[derive(Clone, Copy, Debug, PartialEq, Eq, Error)]
#[error("the network did not accept the frame")]
pub struct HandFault;

/// A network. Contracts see the frames that it accepted, with their times in microseconds, its number of failures,
/// and whether it was made to fail.
pub trait Network {
    ghost handed: { Self → List Entry };

    ghost failures: { Self → ℕ };

    ghost failing: { Self → Bool } = { λ _. false };

    /// Sends the network a frame, from destination MAC address to sequence number, at `at` in
    /// microseconds. After an error the network has the same frames and one failure more.
    fn hand(&mut self, at: u64, frame: &[u8]) -> Result<(), HandFault>
        requires short { length frame.now ≤ GREATEST_FRAME }
        requires few { failures self.old + 1 < 2 ^ 64 }
        ensures answer { IsAnswer result (entry at frame.now)
            (handed self.old) (handed self.new) (failures self.old) (failures self.new) }
        ensures failing { failing self.new ≡ failing self.old }
        ensures fails { failing self.old ≡ true → IsErr result };

    /// Accepts a frame as `hand` does, from a buffer, which the network may keep if it leaves another there. The
    /// contents of the buffer afterwards are unspecified.
    fn hand_with(&mut self, at: u64, frame: &mut Box<FrameBuffer>) -> Result<(), HandFault>
        requires few { failures self.old + 1 < 2 ^ 64 }
        ensures answer { IsAnswer result (entry at frame.old.value.items)
            (handed self.old) (handed self.new) (failures self.old) (failures self.new) }
        ensures failing { failing self.new ≡ failing self.old }
        ensures fails { failing self.old ≡ true → IsErr result }
    {
        self.hand(at, frame.as_slice())
    }
}

/// A network that can be made to fail, for tests of a failure.
pub trait Failable: Network {
    /// Makes each later call of `hand` and `hand_with` fail.
    fn fail(&mut self)
        ensures handed { Self.handed self.new ≡ Self.handed self.old }
        ensures failures { Self.failures self.new ≡ Self.failures self.old }
        ensures failing { Self.failing self.new ≡ true };
}
