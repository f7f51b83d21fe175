//! The longest busy time of a group of sub-VLs whose ports keep periods: the greatest wait in it of a message of one of
//! them, and the most messages queued.
ghost use Rattle.std.specs.Prelude.{◌≡◌, ◌⊎◌, ◌+◌, ◌*◌, ◌/◌, ◌^◌, ◌≤◌, ◌<◌, ◌++◌, ℕ, List, All, IfSome, IfNone, IsTrue, length, nat_lt, max};
ghost use Rattle.plan_analysis.specs.Traffic.{arrived as arrived_by, messages as messages_by_time, places_at as places_at_time, later_at, greatest_message as greatest_message_of, IsBusyTime, IsEnough, IsWaitAt, IsSentIn, IsWaitInGroup, IsMetBy, IsLate, IsTooLong, IsMostPlaces, IsOverloaded, link_share, whole_share, busy_limit, IsFlow, IsWithin};

/// The messages that a port hands over, each of at most this many fragments. Their planned times are at least the
/// period apart, and each message comes at most the jitter after its own, in microseconds.
#[derive(Clone, Copy, Debug, PartialEq, Eq)]
pub(crate) struct Flow {
    pub fragments: u64,
    pub period: u64,
    pub jitter: u64,
}

/// The worst of a sub-VL in the busy time of a group.
#[derive(Clone, Copy)]
pub(crate) struct Peak {
    // the longest time from the acceptance of a message to the release of its last fragment, in microseconds
    pub wait: u64,
    // the most messages queued, by the group's rounds
    pub places: u64,
}

/// The most that is handed over by a time.
#[derive(Clone, Copy)]
struct Handed {
    messages: u64,
    fragments: u64,
}

/// The most fragments of a busy time, and the most rounds of a wait, that are looked for.
const BUSY_LIMIT: u64 = 65_536;

/// The parts of a link's turns: all of them.
const WHOLE_SHARE: u128 = 18_446_744_073_709_551_616;

/// Returns whether these flows hand over more than a fragment each round, for ever. An excess of less than a part in
/// 2^56 isn't seen.
#[tactic(auto, using(crate::proofs::Overload::never_catches_up))]
pub(crate) fn is_overloaded(round: u64, flows: &[Flow]) -> bool
    requires round { round ≤ 5640000 }
    requires flows { All IsFlow flows.now }
    requires few { length flows.now ≤ 512 }
    ensures share { result ≡ nat_lt whole_share (link_share round flows.now) }
    ensures never { IsTrue result → IsOverloaded round flows.now }
{
    let mut share = 0u128;
    for flow in flows {
        share += (flow.fragments * round) as u128 * WHOLE_SHARE / flow.period as u128;
    }
    share > WHOLE_SHARE
}

/// Returns the rounds of the longest busy time, if they are within the limit: as many as fragments are handed over
/// before they have passed.
#[tactic(auto, using(crate::proofs::Busy::first_rounds, crate::proofs::Busy::next_rounds, crate::proofs::Busy::last_rounds, crate::proofs::Busy::few_arrived, crate::proofs::Busy::too_long))]
pub(crate) fn busy_rounds(round: u64, flows: &[Flow]) -> Option<u64>
    requires some { (1 ≤ round) × (1 ≤ length flows.now) }
    requires round { round ≤ 5640000 }
    requires flows { All IsFlow flows.now }
    requires few { length flows.now ≤ 512 }
    ensures most { IfSome result (λ rounds. rounds ≤ busy_limit) }
    ensures arrived { IfSome result (λ rounds. arrived_by flows.now (round * rounds) ≤ 2 * busy_limit) }
    ensures some { IfSome result (λ rounds. IsBusyTime round flows.now (round * rounds)) }
    ensures none { IfNone result ((busy : ℕ) → IsBusyTime round flows.now busy → round * busy_limit < busy) }
{
    let mut rounds = 1;
    while rounds <= BUSY_LIMIT {
        let next = handed_by(flows, round * rounds - 1).fragments;
        if next == rounds {
            return Some(rounds);
        }
        rounds = next;
    }
    None
}

/// Returns the worst of a sub-VL with the flows `own`, in the longest busy time of its group, which takes these rounds;
/// or none if a wait takes more rounds than the limit. After the start the fragments handed over change only when a
/// message comes that is on time.
pub(crate) fn worst_of(round: u64, own: &[Flow], rest: &[Flow], rounds: u64) -> Option<Peak>
    requires some { (1 ≤ round) × (1 ≤ length own.now) }
    requires round { round ≤ 5640000 }
    requires own { All IsFlow own.now }
    requires rest { All IsFlow rest.now }
    requires few { length own.now + length rest.now ≤ 512 }
    requires rounds { rounds ≤ busy_limit }
    requires arrived { arrived_by own.now (round * rounds) ≤ 2 * busy_limit }
    requires busy { IsBusyTime round (own.now ++ rest.now) (round * rounds) }
    ensures wait { IfSome result (λ peak. IsWaitInGroup round own.now rest.now peak.wait) }
    ensures places { IfSome result (λ peak. IsMostPlaces round own.now (round * rounds) peak.places) }
    ensures none { IfNone result ((wait : ℕ) → IsWaitInGroup round own.now rest.now wait → ⊥) }
{
    let busy = round * rounds;
    let most = greatest_message(own);
    let none = Peak { wait: 0, places: 0 };
    let mut peak = at_time(round, own, rest, most, 0, none)?;
    for flow in own {
        peak = worst_at(round, own, rest, most, *flow, busy, peak)?;
    }
    Some(peak)
}

/// Returns the worse of a peak and the times at which a flow hands over its later messages: the first of them a period
/// less the jitter after the start.
fn worst_at(
    round: u64,
    own: &[Flow],
    rest: &[Flow],
    most: u64,
    flow: Flow,
    busy: u64,
    peak: Peak,
) -> Option<Peak>
    requires flow { IsFlow flow }
    requires some { (1 ≤ round) × (1 ≤ most) × (1 ≤ length own.now) }
    requires round { round ≤ 5640000 }
    requires own { All IsFlow own.now }
    requires rest { All IsFlow rest.now }
    requires few { length own.now + length rest.now ≤ 512 }
    requires greatest { most ≡ greatest_message_of own.now }
    requires time { busy ≤ round * busy_limit }
    requires arrived { arrived_by own.now busy ≤ 2 * busy_limit }
    requires short { peak.wait ≤ round * busy_limit }
    requires met { IsMetBy round own.now rest.now busy peak.wait }
    requires within { IsWithin (places_at_time round own.now) busy peak.places }
    ensures short { IfSome result (λ p. p.wait ≤ round * busy_limit) }
    ensures met { IfSome result (λ p. IsMetBy round own.now rest.now busy p.wait) }
    ensures within { IfSome result (λ p. IsWithin (places_at_time round own.now) busy p.places) }
    ensures longer { IfSome result (λ p. peak.wait ≤ p.wait) }
    ensures more { IfSome result (λ p. peak.places ≤ p.places) }
    ensures waits { IfSome result (λ p. (turn : ℕ) → later_at flow turn ≤ busy
        → IsSentIn round (arrived_by own.now (later_at flow turn)) rest.now (later_at flow turn) p.wait) }
    ensures places { IfSome result (λ p. (turn : ℕ) → later_at flow turn ≤ busy
        → places_at_time round own.now (later_at flow turn) ≤ p.places) }
    ensures none { IfNone result (IsTooLong round own.now rest.now busy) }
{
    let mut worst = peak;
    for turn in 0..later_by(flow, busy) {
        let time = flow.period - flow.jitter + turn * flow.period;
        worst = at_time(round, own, rest, most, time, worst)?;
    }
    Some(worst)
}

/// Returns how many later messages a flow hands over by the end of a busy time.
#[tactic(auto, using(crate::proofs::Busy::turn_within, crate::proofs::Busy::turn_below))]
fn later_by(flow: Flow, busy: u64) -> u64
    requires flow { IsFlow flow }
    requires time { busy ≤ 369623040000 }
    ensures within { (turn : ℕ) → turn < result → later_at flow turn ≤ busy }
    ensures all { (turn : ℕ) → later_at flow turn ≤ busy → turn < result }
    ensures most { result ≤ 369623040001 }
{
    match busy.checked_sub(flow.period - flow.jitter) {
        Some(rest) => rest / flow.period + 1,
        None => 0,
    }
}

/// Returns the worse of a peak and this time of a busy time: the wait of a message that is handed over then, and the
/// number of messages then queued. The greatest message has `most` fragments.
#[tactic(auto, using(crate::proofs::Busy::some_arrived))]
fn at_time(
    round: u64,
    own: &[Flow],
    rest: &[Flow],
    most: u64,
    time: u64,
    peak: Peak,
) -> Option<Peak>
    requires some { (1 ≤ round) × (1 ≤ most) × (1 ≤ length own.now) }
    requires round { round ≤ 5640000 }
    requires own { All IsFlow own.now }
    requires rest { All IsFlow rest.now }
    requires few { length own.now + length rest.now ≤ 512 }
    requires greatest { most ≡ greatest_message_of own.now }
    requires time { time ≤ round * busy_limit }
    requires arrived { arrived_by own.now time ≤ 2 * busy_limit }
    requires short { peak.wait ≤ round * busy_limit }
    ensures short { IfSome result (λ p. p.wait ≤ round * busy_limit) }
    ensures longer { IfSome result (λ p. peak.wait ≤ p.wait) }
    ensures sent { IfSome result (λ p. IsSentIn round (arrived_by own.now time) rest.now time p.wait) }
    ensures met { IfSome result (λ p. (p.wait ≡ peak.wait)
        ⊎ IsWaitAt round (arrived_by own.now time) rest.now time p.wait) }
    ensures places { IfSome result (λ p. p.places ≡ max peak.places (places_at_time round own.now time)) }
    ensures none { IfNone result (IsLate round (arrived_by own.now time) rest.now time) }
{
    let handed = handed_by(own, time);
    let begun = (time.saturating_sub(1) / round).div_ceil(most);
    Some(Peak {
        wait: longer_wait(round, handed.fragments, rest, time, peak.wait)?,
        places: peak.places.max(handed.messages.saturating_sub(begun)),
    })
}

/// Returns the greater of a wait and that of a message that is handed over at this time as fragment `own` of its
/// sub-VL. No end is looked for if one that is enough comes within the wait.
#[tactic(auto, using(crate::proofs::Ends::part_least, crate::proofs::Ends::few_rounds, crate::proofs::Ends::rounds_most))]
fn longer_wait(round: u64, own: u64, rest: &[Flow], time: u64, wait: u64) -> Option<u64>
    requires round { (1 ≤ round) × (round ≤ 5640000) }
    requires rest { All IsFlow rest.now }
    requires few { length rest.now ≤ 512 }
    requires own { (1 ≤ own) × (own ≤ 2 * busy_limit) }
    requires time { time ≤ round * busy_limit }
    requires short { wait ≤ round * busy_limit }
    ensures short { IfSome result (λ w. w ≤ round * busy_limit) }
    ensures longer { IfSome result (λ w. wait ≤ w) }
    ensures sent { IfSome result (λ w. IsSentIn round own rest.now time w) }
    ensures met { IfSome result (λ w. (w ≡ wait) ⊎ IsWaitAt round own rest.now time w) }
    ensures none { IfNone result (IsLate round own rest.now time) }
{
    let rounds = (time + wait) / round;
    if own + handed_by(rest, round * rounds).fragments <= rounds {
        return Some(wait);
    }
    let end = end_of(round, own, rest, time)?;
    Some(wait.max(end.saturating_sub(time)))
}

/// Returns the least end that is enough for a message that is handed over at this time as fragment `own` of its
/// sub-VL, if its wait is within the limit.
#[tactic(auto, using(crate::proofs::Ends::first_end, crate::proofs::Ends::next_end, crate::proofs::Ends::last_end, crate::proofs::Ends::late_end, crate::proofs::Ends::end_most, crate::proofs::Ends::few_rounds, crate::proofs::Ends::rounds_most))]
fn end_of(round: u64, own: u64, rest: &[Flow], time: u64) -> Option<u64>
    requires round { (1 ≤ round) × (round ≤ 5640000) }
    requires rest { All IsFlow rest.now }
    requires few { length rest.now ≤ 512 }
    requires own { own ≤ 2 * busy_limit }
    requires time { time ≤ round * busy_limit }
    ensures enough { IfSome result (λ end. IsEnough round own rest.now end) }
    ensures least { IfSome result (λ end. (t : ℕ) → IsEnough round own rest.now t → end ≤ t) }
    ensures short { IfSome result (λ end. end ≤ time + round * busy_limit) }
    ensures none { IfNone result (IsLate round own rest.now time) }
{
    let most = time / round + BUSY_LIMIT;
    let mut rounds = own;
    while rounds <= most {
        let next = own + handed_by(rest, round * rounds).fragments;
        if next <= rounds {
            return Some(round * rounds);
        }
        rounds = next;
    }
    None
}

/// Returns the most that is handed over in the first `time` microseconds, both ends included.
#[tactic(auto, using(crate::proofs::Busy::term_most))]
fn handed_by(flows: &[Flow], time: u64) -> Handed
    requires flows { All IsFlow flows.now }
    requires few { length flows.now ≤ 512 }
    requires time { time ≤ 739246080000 }
    ensures fragments { result.fragments ≡ arrived_by flows.now time }
    ensures messages { result.messages ≡ messages_by_time flows.now time }
    ensures most { result.fragments ≤ 129444945592670208 }
{
    let (mut messages, mut fragments) = (0, 0);
    for flow in flows {
        let own = messages_of(flow, time);
        messages += own;
        fragments += flow.fragments * own;
    }
    Handed {
        messages,
        fragments,
    }
}

/// Returns the most messages that flows hand over in the first `time` microseconds, both ends included.
pub(crate) fn messages_by(flows: &[Flow], time: u64) -> u64
    requires flows { All IsFlow flows.now }
    requires few { length flows.now ≤ 512 }
    requires time { time ≤ 739246080000 }
    ensures { result ≡ messages_by_time flows.now time }
{
    handed_by(flows, time).messages
}

/// Returns the most messages that a flow hands over in the first `time` microseconds, both ends included. A sum that is
/// over the greatest number is less than twice the period, and so is that number.
#[tactic(auto, using(crate::proofs::Busy::saturates, crate::proofs::Busy::count_most))]
fn messages_of(flow: &Flow, time: u64) -> u64
    requires flow { IsFlow flow.now }
    requires time { time ≤ 739246080000 }
    ensures value { result ≡ 1 + (time + flow.now.jitter) / flow.now.period }
    ensures most { result ≤ 739246080002 }
{
    1 + time.saturating_add(flow.jitter) / flow.period
}

/// Returns the fragments of the greatest message.
fn greatest_message(flows: &[Flow]) -> u64
    requires { All IsFlow flows.now }
    ensures value { result ≡ greatest_message_of flows.now }
    ensures some { 1 ≤ length flows.now → 1 ≤ result }
{
    let mut most = 0;
    for flow in flows {
        most = most.max(flow.fragments);
    }
    most
}
