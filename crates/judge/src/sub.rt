//! The state of a sub-VL of a link on a network.
ghost use Rattle.std.specs.Prelude.{◌≡◌, if◌then◌else◌, slice_set};
ghost use Rattle.judge.specs.Lines.{new_sub, unsettled_sub, excused_sub, due_before, unknown_place, going_on, sub_in};

use crate::fields::Fields;
use crate::joining::Joining;

/// The state of a sub-VL on a network.
#[derive(Clone, Copy)]
pub(crate) struct Sub {
    pub(crate) joining: Joining,
    /// The number of the link's frames up to the sub-VL's last one, 0 if it has none.
    pub(crate) came: u64,
    /// The next piece of its message is due before a second frame of another sub-VL.
    pub(crate) due: bool,
}

/// Returns the sub-VL that a frame's identification gives.
pub(crate) fn sub_in(fields: &Fields) -> u8
    ensures { result ≡ sub_in fields.now }
{
    (fields.piece.ident % 4) as u8
}

/// Returns the first sub-VL with a piece due whose last frame came before frame `came` of the line.
pub(crate) fn passed_by(subs: &[Sub], came: u64) -> Option<usize>
    ensures { result ≡ due_before came subs.now }
{
    subs.iter().position(|s| s.due && s.came < came)
}

/// Returns the first one of a link's `count` sub-VLs without knowledge of its message.
pub(crate) fn unknown_place(count: u8, subs: &[Sub]) -> Option<usize>
    ensures { result ≡ unknown_place count subs.now }
{
    subs.iter()
        .take(count as usize)
        .position(|s| matches!(s.joining, Joining::Any))
}

/// Returns the first sub-VL with a message that a piece continues.
pub(crate) fn going_on(fields: &Fields, subs: &[Sub]) -> Option<usize>
    ensures { result ≡ going_on fields.now subs.now }
{
    subs.iter().position(|s| s.joining.goes_on(fields))
}

/// Returns the four sub-VLs with `after` in the place of `sub`, if that is below 4.
pub(crate) fn with_sub(subs: [Sub; 4], sub: u8, after: Sub) -> [Sub; 4]
    ensures { result ≡ slice_set subs sub after }
{
    let mut subs = subs;
    if sub < 4 {
        subs[sub as usize] = after;
    }
    subs
}

impl Sub {
    /// Creates a sub-VL without frames.
    pub(crate) fn new(late: bool, arinc: bool, sub: u16) -> Sub
        ensures { result ≡ new_sub late arinc sub }
    {
        let joining = if late {
            Joining::Any
        } else if arinc {
            Joining::After(None)
        } else {
            Joining::Between(sub)
        };
        Sub {
            joining,
            came: 0,
            due: false,
        }
    }

    /// Returns the sub-VL, with no piece due. After a loss nothing is known of its message.
    pub(crate) fn undue(&self, lost: bool) -> Sub
        ensures { result ≡ (if lost then unsettled_sub self.now else excused_sub self.now) }
    {
        Sub {
            joining: if lost { Joining::Any } else { self.joining },
            due: false,
            ..*self
        }
    }
}
