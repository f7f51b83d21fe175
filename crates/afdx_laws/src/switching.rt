//! Laws of a switch that polices links. The functions are empty: each contract is a law, with worked cases.
//!
//! Each law assumes that the switch works as specs/ defines it, and that frames are delayed by at most the stated
//! jitter. No law covers the queues of the switch.
ghost use Rattle.afdx_laws.specs.Plans.{LegalPasses};
ghost use Rattle.afdx_laws.specs.Policer.{EarlyDropped, NoMorePasses, NoneDropped, StreamPasses, PolicesThree, SpendsAll, NeedsRisingMoments, DropsTheEarly, PassesTwo, NeedsTheGap, NeedsTheGreatest, NeedsTheJitter};
ghost use Rattle.afdx_laws.specs.WorkedPlan.{PassesAGapApart};

/// A switch that polices a link by its gap, its greatest frame and a jitter, by bytes or by frames, drops no frame of a
/// link that keeps its gap, if each frame is delayed by at most the jitter.
#[tactic(auto, using(crate::proofs::Credit::none_dropped_holds))]
pub fn none_dropped()
    ensures passed { NoneDropped }
    ensures worked { PolicesThree }
{}

/// Whatever arrives, no more passes than the rule allows: the frames that pass between two times cost at most Lmax
/// bytes for each gap between them, and Lmax (1 + jitter / gap) more.
///
/// Premise: times don't go back. The initial credit is arbitrary.
#[tactic(auto, using(crate::proofs::Credit::no_more_passes_holds))]
pub fn no_more_passes()
    ensures paid { NoMorePasses }
    ensures worked { SpendsAll }
    ensures needed { NeedsRisingMoments }
{}

/// Of two greatest frames less than a gap apart a switch that allows no jitter drops the second.
///
/// The law does not cover smaller frames: charged by their bytes, two of them may pass at once.
pub fn early_dropped()
    ensures dropped { EarlyDropped }
    ensures worked { DropsTheEarly }
{}

/// A switch drops no frame of a spaced stream, if no frame is greater than Lmax or delayed by more than the jitter that
/// the switch allows.
pub fn stream_passes()
    ensures passes { StreamPasses }
    ensures worked { PassesTwo }
    ensures gap { NeedsTheGap }
    ensures greatest { NeedsTheGreatest }
    ensures jitter { NeedsTheJitter }
{}

/// For each link of a valid plan: a switch that polices the link by its gap and its greatest frame drops no frame that
/// was sent legally to its network, if they arrive in the order in which they were sent, each delayed by at most the
/// jitter that the switch allows. The law does not cover a jitter over the BAG that exchanges two frames of a link.
pub fn legal_passes()
    ensures passes { LegalPasses }
    ensures worked { PassesAGapApart }
{}
