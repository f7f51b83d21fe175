//! Laws of the definitions. These functions do nothing: the contract is the law.
ghost use Rattle.vl_shaper.specs.Pace.{OneEach};
ghost use Rattle.vl_shaper.specs.Latency.{BoundIsMet, QueuedMessage};
ghost use Rattle.vl_shaper.specs.Polls.{PolledInTime};
ghost use Rattle.vl_shaper.specs.WorkedChoices.{ChoosesOneEach, LeavesOneBehind, WaitsBehindOne, WaitsForUsers};
ghost use Rattle.vl_shaper.specs.WorkedPolls.{PolledTooLate, ReleasesAtOnce, ServesInTime, ServesUsersInTime};

/// Between two neighbouring choices of a sub-VL that had something at each choice between them,
/// each other sub-VL is chosen at most once.
pub fn one_each()
    ensures each { OneEach }

    // two choices while a sub-VL is passed over, and four while it has nothing
    ensures worked { ChoosesOneEach }
{}

/// A message of f fragments, after q fragments of its own sub-VL, on a link that s sub-VLs use, is wholly
/// released after s (q + f) choices of the link, whatever the other sub-VLs send. A sub-VL uses the link
/// if it may be chosen: one that has no port never is.
///
/// A choice is a poll at which the link was due and some sub-VL had something. Two premises: the
/// message's own sub-VL had something until then, and such polls happen.
#[tactic(auto, using(crate::proofs::Waits::queued_message_holds, crate::proofs::WorkedTurns::waits_behind_one, crate::proofs::WorkedTurns::waits_for_users))]
pub fn queued_message()
    ensures released { QueuedMessage }

    // two fragments and two sub-VLs: four choices are enough, three are too few
    ensures worked { WaitsBehindOne }

    // a link of three sub-VLs, two of them in use
    ensures users { WaitsForUsers }
{}

/// One choice fewer is not enough, on any link and for any number of fragments, if all sub-VLs have
/// something throughout.
pub fn bound_is_met()
    ensures met { BoundIsMet }

    // three choices for two fragments and two sub-VLs
    ensures worked { LeavesOneBehind }
{}

/// By the polls of the link: if each poll follows the previous one, or the acceptance of the
/// message, within the lateness, the message is wholly released by s (q + f) (gap + late) after its
/// acceptance.
///
/// At acceptance the link may be due or not, and may have released a frame before or not. Two
/// premises: polls come until then, and the message's sub-VL has something at each of them until
/// the message is wholly released. The law doesn't cover the time that the networks take.
#[tactic(auto, using(crate::proofs::Polled::polled_in_time_holds, crate::proofs::WorkedTurns::serves_in_time, crate::proofs::WorkedTurns::serves_users_in_time, crate::proofs::WorkedTurns::releases_at_once, crate::proofs::WorkedTurns::polled_too_late))]
pub fn polled_in_time()
    ensures bound { PolledInTime }

    // six polls; three find the link due
    ensures worked { ServesInTime }

    // six polls of a link of three sub-VLs, two of them in use
    ensures users { ServesUsersInTime }

    // a message accepted on an idle link is released at the next poll
    ensures idle { ReleasesAtOnce }

    // one poll is too late, and so is the message
    ensures late { PolledTooLate }
{}
