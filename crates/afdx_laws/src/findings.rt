//! Laws of a judge, for an integrator. The functions are empty: each contract is a law.
ghost use Rattle.afdx_laws.specs.NoFalseAlarm.{NoFalseAlarm, NoneByBeginning};
ghost use Rattle.afdx_laws.specs.NothingFound.{NothingFound};
ghost use Rattle.afdx_laws.specs.NothingMissed.{NothingMissed};
ghost use Rattle.afdx_laws.specs.Releases.{EarlyExactly};
ghost use Rattle.afdx_laws.specs.TwinsWanted.{TwinsWanted};
ghost use Rattle.afdx_laws.specs.WorkedFindings.{FindsNothing, NeedsItsPremises, FindsNoneOfAll, FindsTwins, MissesNothing, NeedsTheTime};

/// A judge raises no false alarm: in a recording of legal transmission for a valid plan, each finding is a frame
/// without a twin, however the packets of the two networks interleave. The other network has a packet more than the
/// skew before it: no finding comes from a recorder that began later.
///
/// Premises:
///
/// - An emitter's guarantees for the lists of its two networks (`IsSent`): they are legal and the sub-VLs take turns
///   (`lawful` of its polls), and no message is longer than its port may send (`allowed` of `gather` and of the drain).
/// - The recording has consecutive frames of each network, each whole and delayed by at most the jitter that the judge
///   allows (`IsRecording`), from the first one on, or from any one if the judge knows that the recording began late.
///   The recording may end at any frame, its clock may start at any time, and each network may lag by its own time.
/// - Jitter, skew and the lag of one network behind the other are together less than 255 BAGs for each link on both
///   networks (`AreFit`): a sequence number comes again after 255 frames, and another frame of that number is no twin.
pub fn no_false_alarm()
    ensures found { NoFalseAlarm }
    ensures begun { NoneByBeginning }
    ensures worked { FindsNothing }
    ensures needed { NeedsItsPremises }
{}

/// In a whole recording of what was sent legally, in the order of time, a judge finds nothing at all, if over the links
/// on both networks as many frames were sent to the one as to the other.
///
/// Premises: the premises of `no_false_alarm`, with every frame recorded; the times of the recording's packets don't go
/// back (`IsWhole`); and the jitter that the judge allows and the lag of one network behind the other are together at
/// most the skew, so that no frame is given up before its twin comes.
pub fn nothing_found()
    ensures none { NothingFound }
    ensures worked { FindsNoneOfAll }
{}

/// A judge finds a frame early exactly if no release times explain it and the link's frames before it on that network:
/// releases are a BAG apart or more, and each frame is recorded at its release or at most the jitter later. After an
/// early frame it goes on as if that one had been released when it was recorded.
#[tactic(auto, using(crate::proofs::Releases::early_exactly_holds))]
pub fn early_exactly()
    ensures exact { EarlyExactly }
{}

/// If a judge finds nothing in a recording, there are release times, each at most the jitter before its packet's time,
/// at which the recorded frames of each network were sent legally, for some accepted messages that their ports may
/// send, and the sub-VLs take turns.
///
/// So it misses no frame that is malformed, of no link, on a wrong network, too long or wrongly numbered, no releases
/// that have to be less than a BAG apart, no message that is cut wrongly, has a wrong UDP length or checksum or
/// belongs to no port, and no turn.
/// Premises (`IsStrict`):
///
/// - The judge expects what this project sends (not `--profile arinc`), and no frame has its check sequence.
/// - The recording begins with the first frame (no `--late`) and has fewer than 2^64 - 1 packets.
/// - On each network the last message of each sub-VL is whole: nothing is known yet of one that has begun.
/// - Packets are bytes, and no header checksum is 65,535, which receivers take for 0, and which no sender computes.
///
/// The law speaks of each network alone, and `twins_wanted` of both.
#[tactic(auto, using(crate::proofs::SentTo::nothing_missed_holds, crate::proofs::WorkedFindings::worked))]
pub fn nothing_missed()
    ensures sent { NothingMissed }
    ensures worked { MissesNothing }
{}

/// If a judge finds nothing in a recording, no twin is lacking and none differs: each frame of a link on both networks
/// has a twin within the skew, if the other network was recorded when the twin could come. Its packets then begin more
/// than the skew before the frame, and end more than the skew after it.
///
/// Premises: the plan is valid; the judge expects what this project sends (not `--profile arinc`), and no frame has its
/// check sequence; and the times of the recording's packets don't go back.
#[tactic(auto, using(crate::proofs::Following::twins_wanted_holds, crate::proofs::WorkedTwins::finds_twins, crate::proofs::WorkedTwins::needs_the_time))]
pub fn twins_wanted()
    ensures wanted { TwinsWanted }
    ensures worked { FindsTwins }
    ensures needed { NeedsTheTime }
{}
