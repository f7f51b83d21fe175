//! The law of the wait by traffic. The function is empty: its contract is the law.
ghost use Rattle.plan_analysis.specs.KeptPeriods.{MeetsByTraffic, MeetsInGroup, MeetsWithJitter, NeedsPeriods, WaitsInGroup};

/// If each port of a group of sub-VLs keeps its period with its jitter, and the group releases a fragment each round
/// while it has something, a message of one of them is wholly released within the wait by traffic of its acceptance.
#[tactic(auto, using(crate::proofs::WaitRows::meets_by_traffic, crate::proofs::WaitRows::meets_with_jitter, crate::proofs::WaitRows::meets_in_group, crate::proofs::WaitRows::needs_periods))]
pub fn wait_by_traffic()
    ensures wait { WaitsInGroup }

    // a message that takes exactly its wait
    ensures worked { MeetsByTraffic }

    // two messages as near as the jitter allows
    ensures near { MeetsWithJitter }

    // a message that takes exactly its wait in a group of two sub-VLs
    ensures in_group { MeetsInGroup }

    // a message that takes longer, since the other sub-VL doesn't keep its period
    ensures needed { NeedsPeriods }
{}
