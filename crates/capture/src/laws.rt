//! Laws of the definitions. Their functions do nothing: the contract is the law.
ghost use Rattle.capture.specs.Order.{IsInTime};
ghost use Rattle.capture.specs.ReadBack.{ReadsBack, ReadsTwoFrames, RiseInTwoFrames};
ghost use Rattle.capture.specs.Streaming.{StepsAlike, StepsOn, StopsThere, IsRoomEnough};

/// A reader accepts a capture that is written, and gets from each interface the frames of its network, in their order,
/// with their times: for all frames of at most 1,514 bytes, sent at any times of 64 bits.
pub fn reads_back()
    ensures back { ReadsBack }

    // a frame of 5 bytes on network A, and an earlier one of 4 bytes on B
    ensures worked { ReadsTwoFrames }
{}

/// If the times of each network's frames rise, or stay, so do the capture's.
#[tactic(auto, using(crate::proofs::Orders::in_time), unfolding(crate::specs::Order::in_order))]
pub fn in_time()
    ensures time { IsInTime }

    // a frame at 3 microseconds on network B before one at 4,294,967,298 on A, which was sent first
    ensures worked { RiseInTwoFrames }
{}

/// A capture that is read in windows is read as a whole: the packets of the steps are the recording's, in their order,
/// wherever the windows end.
#[tactic(auto, using(crate::proofs::Prefixes::steps_alike, crate::proofs::Steps::steps_on, crate::proofs::Steps::stops_there, crate::proofs::Room::room_enough))]
pub fn streams()
    ensures alike { StepsAlike }
    ensures on { StepsOn }
    ensures stop { StopsThere }
    ensures room { IsRoomEnough }
{}
