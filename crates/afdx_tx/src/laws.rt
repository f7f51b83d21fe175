//! Laws of the definitions. These functions do nothing: the contract is the law.
ghost use Rattle.afdx_tx.specs.DrainEnds.{DrainEnds, DrainsOne, NeedsItsPolls};

/// A drain ends. Polls that are apart by the greatest gap of the plan, the first of them that long
/// after each release, transmit all that is left, if they are more than the frames that each link
/// owes. `Draining::is_done` is then true.
///
/// A premise: a network that carries each link is up afterwards. `Draining::poll` reports which
/// are.
pub fn drain_ends()
    ensures ends { DrainEnds }

    // one message, which the first of two polls transmits
    ensures worked { DrainsOne }

    // no poll although a frame is owed; polls too soon; a gap under the link's; a release after the start; networks
    // that failed
    ensures needed { NeedsItsPolls }
{}
