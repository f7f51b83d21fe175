//! Laws over runs of polls. The functions are empty: each contract is a law.
ghost use Rattle.afdx_laws.specs.MessageInRun.{MessageInRun, ApartAreTimely};
ghost use Rattle.afdx_laws.specs.HeardInRun.{ReleasesHeard, HeardIsFound};
ghost use Rattle.afdx_laws.specs.HeardRow.{ReleasesTold, NeedsToBeTold};
ghost use Rattle.afdx_laws.specs.GroupInRun.{GroupInRun};
ghost use Rattle.afdx_laws.specs.GroupRow.{NeedsItsMates, TakesItsGroupWait};
ghost use Rattle.afdx_laws.specs.NeverFull.{NeverFull, NeverFullInGroup};
ghost use Rattle.afdx_laws.specs.FullRow.{FillsItsQueue, NeedsPlaces};
ghost use Rattle.afdx_laws.specs.Runs.{NextInRun, KeptReady};
ghost use Rattle.afdx_laws.specs.TrafficInRun.{TrafficInRun};
ghost use Rattle.afdx_laws.specs.TrafficRow.{MeetsWithJitter, NeedsTraffic, TakesItsWait};
ghost use Rattle.afdx_laws.specs.WorkedRun.{ComesInRun, NeedsARun, MeetsTheWait, NeedsItsPremises, ComesInTurn, WaitsItsTurn};

/// An emitter, or its drain, releases the next fragment of a message within the bound of its link: one BAG and one
/// lateness per sub-VL of the link that has a port, counted from the fragment before it, which belongs to such a
/// sub-VL.
///
/// A run (`AreRuns`) follows from the contracts of `Emitter::poll` (`run`, `plan`, `allowed`), for a ready emitter
/// (`IsReady`), and of `Draining::poll` (`run`, `plan`, `allowed`, `accepted`). `open_tx` makes a ready emitter, and
/// polls, `close` and `publish` keep it ready (`ready`). Two premises: polls come at most the lateness apart until the
/// bound, and a network that carries the link is up afterwards.
pub fn next_in_run()
    ensures next { NextInRun }
    ensures ready { KeptReady }

    // two polls of a drain; the first releases the second fragment
    ensures worked { ComesInRun }

    // polls of an emitter with three sub-VLs
    ensures in_turn { ComesInTurn }

    // no poll; no run; a late poll; networks that fail with the fragment; a last fragment; an entry that isn't in the
    // stream; a sub-VL without a port
    ensures needed { NeedsARun }
{}

/// A message that was sent is found by the poll that comes to it.
///
/// `Emitter::hear` tells the emitter of the messages that a port has sent. If the next message of a sub-VL is among
/// them (`IsNextIn`), and the sub-VL has begun none, a poll at its turn releases the first fragment (`released`): the
/// link is due, and the sub-VL is the first that is asked (`IsItsTurn`). Any other poll that comes to the sub-VL finds
/// the message too (`found`), which is the premise `FindsIt` of the waits. If a queue has one port, its next message is
/// the one after those that were taken.
///
/// `polling::finds_sent` is such a send, with such a poll. Without `hear`, the contracts of two ends on two threads
/// can't say which of them came first.
pub fn heard_in_run()
    ensures released { ReleasesHeard }
    ensures found { HeardIsFound }

    // a message of one byte, released by the first poll
    ensures worked { ReleasesTold }

    // an emitter that was told of nothing
    ensures needed { NeedsToBeTold }
{}

/// An accepted message is wholly released within the longest wait of its port, whatever the other ports and the other
/// sub-VLs send. `plan_analysis` computes that wait from the plan and the lateness of polls (`worst_wait`).
///
/// The wait starts at any time not before the last release, for example at the last poll before the message was
/// accepted. The message is one of the accepted list of its sub-VL (`IsAccepted`), which `gather` ties to the ports'
/// own lists (`gathered`, `allowed`). Premises:
///
/// - After the start and after each poll, a poll comes between one BAG and one BAG and the lateness later, until the
///   wait is over (`AreTimely`). Polls at most the lateness and a microsecond apart meet this (`apart`). So do polls at
///   every multiple of a millisecond, with a lateness of 0.
/// - A poll of the emitter that polls the queue of the sub-VL finds a message there until this one is wholly released
///   (`FindsIt`): no sender stops between accepting a message and queueing it. A drain needs no such premise, and an
///   emitter that was told of the messages meets it (`heard_in_run`).
/// - Each message accepted before this one by at least the queue's capacity had its first fragment released
///   (`HasPlace`): the queue never exceeds its capacity.
/// - The fragments sent so far begin the fragments of the accepted list (`legal` of the calls), and a network that
///   carries the link is up after the polls.
pub fn message_in_run()
    ensures wait { MessageInRun }

    // polls at most the lateness and a microsecond apart
    ensures apart { ApartAreTimely }

    // a message that takes exactly its wait
    ensures worked { MeetsTheWait }

    // a message that takes its wait, with an emitter of three sub-VLs that all send
    ensures in_turn { WaitsItsTurn }

    // a message that isn't accepted; a start before the last release; a queue that exceeds its capacity; a poll that
    // doesn't find the message; an emitter that sent another; networks that are down; a late poll
    ensures needed { NeedsItsPremises }
{}

/// An accepted message is wholly released within its wait by traffic in a group of sub-VLs of its link, if each port of
/// the group keeps a period with its jitter, whatever the other sub-VLs send. `plan_analysis::traffic_bounds` computes
/// the least of these waits, over all groups that contain the sub-VL of the message (`IsSubWait`).
///
/// The run starts at a time at which each sub-VL of the group has sent all that it accepted, for example when the end
/// system opens. The wait starts when the message is accepted, at any time of the run. Premises (`IsGroupRun`):
///
/// - The messages of each sub-VL of the group are accepted in this order, none before the start. Each one is accepted
///   at most the jitter of its port after its planned time, and the planned times of a port are at least its period
///   apart (`KeepPeriods`).
/// - A poll of the emitter that polls the queue of a sub-VL of the group finds a message there while one that was
///   accepted before the time of the poll isn't wholly released (`FindsGroup`). A drain needs no such premise.
/// - A poll sends no message of another sub-VL of the group that is accepted after the time of the poll (`sooner`).
/// - Polls are timely from the start until the wait is over (`AreTimely`), the start isn't before the last release, the
///   fragments sent so far begin the fragments of the accepted list, and a network that carries the link is up after
///   the polls, as for `message_in_run`.
///
/// In the group of its sub-VL alone (`wait`) only the ports of that sub-VL keep periods.
pub fn traffic_in_run()
    ensures group { GroupInRun }
    ensures wait { TrafficInRun }

    // a message of an emitter with three sub-VLs that takes exactly its wait
    ensures in_turn { TakesItsWait }

    // the second of two messages as near as the jitter allows, which takes exactly its wait
    ensures near { MeetsWithJitter }

    // the second of two messages beside one of another sub-VL, which takes exactly its wait in the group of both
    ensures shared { TakesItsGroupWait }

    // a message that takes longer, since a port of the other sub-VL doesn't keep its period, or since a message of that
    // sub-VL is sent before its acceptance
    ensures mates { NeedsItsMates }

    // senders that aren't the plan's; a shorter wait; a message that isn't accepted; a start before the last release; a
    // sub-VL that owes a fragment at the start; a period that isn't kept; a jitter that isn't; a message before the
    // start; a poll that doesn't find the message; an emitter that sends another; networks that are down; a late poll
    ensures needed { NeedsTraffic }
{}

/// A port isn't refused as full if the queue of its sub-VL has the places that the traffic needs, whatever sub-VLs
/// outside its group send. `plan_analysis::traffic_bounds` computes that need, by the least wait of a group.
///
/// That is, what `Full` says in the contract of `TxPort::send_slice` (`refused`, `Refuses`: the request found at least
/// as many messages held and requests under way as the capacity) can't hold of a request that finds no more than there
/// are: the accepted messages without a released fragment, and the requests of other ports that are under way.
/// Premises, beside the premises of `traffic_in_run`, of the same run:
///
/// - Each request that is under way counts as a message of its port at that time (`KeepPeriods`). If its port has no
///   jitter, it has one at most, and none sooner than its period after its last message.
/// - Polls are timely until the microsecond before: one that is due at the time of the request may come after it.
///
/// In the group of its sub-VL alone (`never`) only the ports of that sub-VL keep periods.
pub fn never_full()
    ensures group { NeverFullInGroup }
    ensures never { NeverFull }

    // a request that takes the last place
    ensures worked { FillsItsQueue }

    // senders that aren't the plan's; a need that is one too small; a queue that is; a message that isn't accepted; a
    // start before the last release; a sub-VL that owes a fragment at the start; a period that isn't kept; a jitter
    // that isn't; two threads; a poll that doesn't find the message; networks that are down; no poll
    ensures needed { NeedsPlaces }
{}
