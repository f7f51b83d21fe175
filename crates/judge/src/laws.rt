//! Laws of the definitions, of the judges of several end systems, and of a maker's addressing. Their functions are
//! empty: the contract is the law.
ghost use Rattle.judge.specs.Addresses.{InterfaceTold, OneToOne, OwnAsProfile};
ghost use Rattle.judge.specs.Apart.{JudgedApart, Needed, Worked};
ghost use Rattle.judge.specs.CheckSequence.{ChecksDigits};

/// The check sequence of the digits 1 to 9, which tables of such codes list.
#[tactic(auto, unfolding(crate::specs::CheckSequence::check_sequence, crate::specs::CheckSequence::with_byte))]
pub fn checks_digits()
    ensures worked { ChecksDigits }
{}

/// On a tap that several end systems send on, what is found at the packets of each, and by its judge at the end, is
/// what its judge alone finds in its own packets, in their order: no other frame on the tap adds a finding or hides
/// one.
#[tactic(auto, using(crate::proofs::Apart::judged_apart))]
pub fn judged_apart()
    ensures apart { JudgedApart }
    ensures worked { Worked }
    ensures needed { Needed }
{}

/// If its interface bytes are different, an addressing rewrites a frame to one with the profile's constant field, or a
/// network's interface byte, exactly if the frame had its own there; other bytes stay.
pub fn own_as_profile()
    ensures kept { OwnAsProfile }
{}

/// No two frames become one, so no wrong frame becomes a right one; and each interface byte can be told as it was.
#[tactic(auto, using(crate::proofs::Exchange::one_to_one, crate::proofs::Exchange::interface_told))]
pub fn one_to_one()
    ensures apart { OneToOne }
    ensures told { InterfaceTold }
{}
