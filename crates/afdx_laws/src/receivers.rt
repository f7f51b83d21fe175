//! Laws of a receiver, for an integrator. The functions are empty: each contract is a law. `switching` has the laws of
//! a switch.
//!
//! Each law assumes that the receiver works as specs/ defines it, and that the networks deliver what the law states. No
//! law covers frames that no network of their link delivers, a transmitter that restarts with number 0, a receiver that
//! starts later than the stream, or its timer for late frames (SkewMax). A law bounds the time of a message only if it
//! names a time.
//!
//! Each law comes with worked cases. `worked` computes one case. `needed`, or the name of a premise, shows that the
//! premises hold there, and gives cases in which one of them fails, and the conclusion with it.
ghost use Rattle.afdx_legal.specs.Worked.{TurnsAreTold};
ghost use Rattle.afdx_laws.specs.Buffers.{OneBuffer, HandedNeedOne, LegalNeedOne, LegalNeedOneDespite, HoldsTheSecond, NeedsInTurn, HoldsAFrame, FirstIsGiven, NeedsOrder};
ghost use Rattle.afdx_laws.specs.Counted.{CountsRise, CountsTwo};
ghost use Rattle.afdx_laws.specs.Delivery.{InOrder, DespiteLoss, MessagesArrive, HandedArrive, HandedDespiteLoss};
ghost use Rattle.afdx_laws.specs.Loss.{FirstComes, LossMasked, LossNotMasked, MaskedFromFirst, NumbersClash};
ghost use Rattle.afdx_laws.specs.Receiver.{ExactlyOnce};
ghost use Rattle.afdx_laws.specs.NextFragment.{NextInARound, NextInPlan, NextInTime, LieTwoGapsApart};
ghost use Rattle.afdx_laws.specs.Plans.{OneNetworkArrives, LegalArrive, LegalDespiteLoss, OwnListsArrive, AllOnBoth};
ghost use Rattle.afdx_laws.specs.Skew.{SkewIsFit, SkewIsNear, BearsUnder254, ComesInTime};
ghost use Rattle.afdx_laws.specs.WorkedDelivery.{OneMessageArrives, NeedsHanding, AcceptsEachOnce, NeedsNumbers, NeedsBeginnings, NeedsALag, NeedsAStream, ClashesPast254, MasksOneLoss, NeedsTheFirst, BeginsOnBoth, ComesDespiteLoss, NeedsAWholeNetwork, HandedDespiteOneLoss, NeedsOneWhole};
ghost use Rattle.afdx_laws.specs.WorkedPlan.{AreTwinsOfOne, ComesFromOne, OneIsLegal, NeedsLegal, LegalDespiteOneLoss, NeedsClose, OneIsWhole, NeedsAll};

/// A receiver accepts each frame of a link exactly once and in order, as far as one of the networks carried them, from
/// any interleaving of the two networks, as long as neither lags the other by more than 255 - window frames.
///
/// Each network may stop for ever at any point. For a network that loses a frame and goes on see `loss_masked`.
pub fn exactly_once()
    ensures once { ExactlyOnce }
    ensures worked { AcceptsEachOnce }
    ensures numbers { NeedsNumbers }
    ensures beginnings { NeedsBeginnings }
    ensures lag { NeedsALag }
{}

/// A receiver for which only the next number is new accepts each frame once and in order even if one network loses,
/// repeats and reorders frames, as long as the other carries them all.
///
/// The two are less than 255 frames apart, and the first frame to arrive from either is the stream's first (`first` in
/// `AreClose`): see `both_begin`. Otherwise a receiver accepts a later frame first, and drops those before it as old
/// copies. The law does not cover the time after the whole network stopped: then a frame that the other one loses stops
/// the receiver until the numbers wrap around.
#[tactic(auto, using(crate::proofs::Losing::loss_masked_holds, crate::proofs::WorkedMessage::masks_one_loss, crate::proofs::WorkedMessage::needs_the_first))]
pub fn loss_masked()
    ensures masked { LossMasked }
    ensures worked { MasksOneLoss }
    ensures needed { NeedsTheFirst }
{}

/// If both networks begin with a stream's first frame, it arrives before all others, as `loss_masked` and the laws
/// above it require: a receiver that starts with the stream masks what one network loses later.
///
/// The network that carries every frame begins with the first; that the other does is the premise. So the transmitter's
/// user sends nothing before the receivers run and both networks carry frames, and neither network may lose a link's
/// first frame and then lead.
#[tactic(auto, using(crate::proofs::Losing::first_comes_holds, crate::proofs::Losing::masked_from_first_holds, crate::proofs::WorkedMessage::begins_on_both))]
pub fn both_begin()
    ensures close { FirstComes }
    ensures masked { MaskedFromFirst }
    ensures worked { BeginsOnBoth }
{}

/// A receiver for which the next two numbers are new drops the only copy of a frame that the leading network lost; one
/// for which only the next is new accepts it.
///
/// This is one run of five arrivals. It need not happen if neither network leads.
pub fn loss_not_masked()
    ensures { LossNotMasked }
{}

/// The bound on the lag is exact, for each window: with a lag of one frame more, the receiver accepts an old frame as
/// new.
///
/// The law starts from a state of the receiver: network A carried `lag` frames more than B, and B's next one arrives.
/// That a run ends in this state is not proved.
#[tactic(auto, using(crate::proofs::Losing::numbers_clash_holds))]
pub fn numbers_clash()
    ensures clash { NumbersClash }
    ensures worked { ClashesPast254 }
{}

/// Networks that deliver each frame within a delay of its release are never more than 1 + delay / gap frames apart, so
/// a receiver's bound on the lag is a bound on the delay.
///
/// A receiver tolerates exactly the delays under 255 - window gaps: under 254 gaps if only the next number is new,
/// under 253 if the next two are. Premises: each network delivers all frames in order, and none before its release.
pub fn skew_is_near()
    ensures near { SkewIsNear }
    ensures fit { SkewIsFit }
    ensures worked { ComesInTime }
    ensures longest { BearsUnder254 }
{}

/// From the fragments of several sub-VLs, each sub-VL's own in order, a receiver reassembles the first datagrams of
/// each, in order and each once, and all whose fragments came.
///
/// It keeps a buffer for each identification, as many as it needs, and never discards one. The law does not cover
/// fragments of one sub-VL that arrive out of order.
#[tactic(auto, using(crate::proofs::InOrder::in_order_holds, crate::proofs::WorkedPieces::first_is_given, crate::proofs::WorkedPieces::needs_order))]
pub fn in_order()
    ensures ordered { InOrder }
    ensures worked { FirstIsGiven }
    ensures needed { NeedsOrder }
{}

/// A receiver's messages of a sub-VL are the first accepted ones, each once and in order, and all whose fragments one
/// of the networks carried.
///
/// Premises: the premises of `exactly_once`, and the link's frames of this sub-VL are the first fragments of its
/// accepted messages.
pub fn messages_arrive()
    ensures arrive { MessagesArrive }
    ensures worked { OneMessageArrives }
    ensures needed { NeedsAStream }
{}

/// A receiver's messages of a sub-VL are the first accepted ones even if one network loses, repeats and reorders
/// frames, if the other carries them all and only the next number is new to the receiver.
///
/// The stream's first frame arrives before all others (`first` in `AreClose`, see `both_begin`). The limits of
/// `loss_masked` apply.
pub fn despite_loss()
    ensures arrive { DespiteLoss }
    ensures worked { ComesDespiteLoss }
    ensures needed { NeedsAWholeNetwork }
{}

/// States `messages_arrive` by the frames sent to the two networks over a link: two numbered lists, twins as far as
/// both go, which contain the first fragments of the accepted messages of the sub-VL. For a link on one network the
/// other list is empty.
///
/// The law reads identification, offset, flags, total length and number of each frame. For its addresses, its ports and
/// its checksum see `afdx_frame::laws::each_frame_says`.
pub fn handed_arrive()
    ensures arrive { HandedArrive }
    ensures worked { OneMessageArrives }
    ensures needed { NeedsHanding }
{}

/// States `despite_loss` by the frames sent to the two networks over a link on both networks.
#[tactic(auto, using(crate::proofs::HandedOver::handed_despite_loss_holds, crate::proofs::WorkedMessage::comes_despite_loss, crate::proofs::WorkedMessage::needs_one_whole))]
pub fn handed_despite_loss()
    ensures arrive { HandedDespiteLoss }
    ensures worked { HandedDespiteOneLoss }
    ensures needed { NeedsOneWhole }
{}

/// For each link and sub-VL of a valid plan: from what was transmitted legally, the receiver's messages are the first
/// accepted ones, each once and in order, and among them all whose fragments one network carried.
///
/// What the emitter transmits is legal (`afdx_legal`, `IsLegal`), so this law states what the calls of the emitter mean
/// at the receiving end. Premises: each network carries a beginning of a link's frames, the two are near, and accepted
/// messages are such as a port accepts (`TxPort::send` of afdx_tx). For a link on one network see also
/// `one_network_arrives`, which does not need the two to be near.
pub fn legal_arrive()
    ensures arrive { LegalArrive }
    ensures worked { OneIsLegal }
    ensures needed { NeedsLegal }
{}

/// For each link and sub-VL of a valid plan, the first accepted messages arrive even if one network loses, repeats and
/// reorders frames, if the other carries all frames of the link and only the next number is new to the receiver.
///
/// For a link on one network, that network carries all, and the law adds nothing to `one_network_arrives`: no other
/// network replaces what it loses. The stream's first frame arrives before all others (`first` in `AreClose`, see
/// `both_begin`). The limits of `loss_masked` apply.
#[tactic(auto, using(crate::proofs::LegalLinks::legal_despite_loss_holds, crate::proofs::WorkedDemo::legal_despite_one_loss, crate::proofs::WorkedDemo::needs_close))]
pub fn legal_despite_loss()
    ensures arrive { LegalDespiteLoss }
    ensures worked { LegalDespiteOneLoss }
    ensures needed { NeedsClose }
{}

/// For each link and sub-VL of a valid plan: if all that was accepted was transmitted legally, and one network carried
/// all of the link, the receiver's messages are the ports' own lists, each message once and in order.
///
/// The premise on the transmitter (`afdx_legal`, `IsHandedWhole`) follows from the contracts of `afdx_tx`:
/// `Emitter::gather` (`gathered`: what was accepted of each port is its own list), `Draining::poll` (`accepted`: it
/// stays so), `Draining::is_done`, and `Draining::into_networks` (`legal`, `allowed`). `storm::storm` combines them in
/// its contract. At the other end, `legal_arrive` has the same premises. For a link on one network, that network
/// carried all.
pub fn own_lists_arrive()
    ensures arrive { OwnListsArrive }
    ensures worked { OneIsWhole }
    ensures needed { NeedsAll }
{}

/// For each link of a valid plan that is on one network, and each of its sub-VLs: from what was transmitted legally,
/// the receiver's messages are the first accepted ones, each once and in order, and among them all whose fragments
/// came.
///
/// Premise: the network carries a beginning of the link's frames, in order. The other network may lag or lead: it
/// carries no frame of the link. The law does not cover a network that loses a frame and goes on, as no other replaces
/// the frame.
#[tactic(auto, using(crate::proofs::OneNetwork::one_network_arrives_holds, crate::proofs::WorkedDemo::comes_from_one))]
pub fn one_network_arrives()
    ensures arrive { OneNetworkArrives }
    ensures worked { ComesFromOne }
{}

/// In a plan whose links are all on both networks, all that was sent legally to the one network is twins of all that
/// was sent to the other, and each link's own stream is its stream in the longer list.
///
/// So there the statements of `afdx_legal` on each link (`twins` in `IsLegal`, `own_stream`) hold of the two lists as
/// they are. With a link on one network, the longer list may have fewer frames of a link.
pub fn all_on_both()
    ensures twins { AllOnBoth }
    ensures worked { AreTwinsOfOne }
{}

/// The counts of a link's stream (frames, bytes, whole messages, the time of the last frame) don't fall as the stream
/// grows.
///
/// Premise: the stream is spaced, as legal transmission is. Each count saturates at 2^64 - 1.
pub fn counts_rise()
    ensures rise { CountsRise }
    ensures worked { CountsTwo }
{}

/// If the sub-VLs of a link take turns, the next fragment of a message is one of the link's next frames, at most one
/// per sub-VL, however long the messages of the others are.
///
/// The sub-VLs of the emitter take turns (`turns` of both polls, of `gather` and of both `into_networks`). The fragment
/// is released within one BAG and the lateness of a poll per sub-VL, if the link releases a frame in each such time
/// while the fragment waits (`time`). `longest_wait` is that bound for a whole plan. By polls, and for the
/// sub-VLs that have a port alone, see `next_in_run` of `runs` and `polled_in_time` of vl_shaper. The law does not
/// cover frames that no network accepted.
pub fn next_fragment()
    ensures round { NextInARound }
    ensures time { NextInTime }
    ensures plan { NextInPlan }
    ensures told { TurnsAreTold }
    ensures worked { LieTwoGapsApart }
{}

/// A receiver that reassembles the messages of a link needs one buffer of 8,200 bytes for each of its sub-VLs: it never
/// holds fragments of two datagrams of one sub-VL, nor a byte after the first 8,200 of one.
///
/// For fragments (`one`) `in_order` has the same premises, and the bound on the bytes is the bound on the datagrams.
/// For what was sent to two networks (`handed`), for each link of a valid plan (`legal`), and if one network loses
/// frames (`despite`), the laws `handed_arrive`, `legal_arrive` and `legal_despite_loss` have the same premises.
pub fn one_buffer()
    ensures one { OneBuffer }
    ensures handed { HandedNeedOne }
    ensures legal { LegalNeedOne }
    ensures despite { LegalNeedOneDespite }
    ensures worked { HoldsTheSecond }
    ensures needed { NeedsInTurn }
    ensures frame { HoldsAFrame }
{}
