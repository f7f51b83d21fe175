//! A link on a network: its numbers, its gaps and its sub-VLs.
ghost use Rattle.std.specs.Prelude.{◌≡◌, if◌then◌else◌, true, false};
ghost use Rattle.std.specs.Option.{is_some};
ghost use Rattle.judge.specs.Fields.{AreSmall};
ghost use Rattle.judge.specs.Lines.{new_line, next_number, number_kind, number_deviation, gap_since, early_deviation, delay_after, unsettled, is_beside, line_counted, turn_deviation, sub_at, joining_at, sub_of, figures_with, line_joined, line_after, verdict, after_number, after_turn};

use crate::fields::Fields;
use crate::figures::Figures;
use crate::finding::{Deviation, FindingKind};
use crate::joining::{Joining, ended, port_deviation};
use crate::sub::{Sub, going_on, passed_by, sub_in, unknown_place, with_sub};
use afdx_plan::PortPlan;

/// The state of a link on a network.
#[derive(Clone, Copy)]
pub(crate) struct Line {
    pub(crate) last: Option<Last>,
    pub(crate) figures: Figures,
    /// The sub-VLs, by their indices.
    pub(crate) subs: [Sub; 4],
}

/// The sequence number, the time in nanoseconds and the delay of the last frame of a link on a network.
#[derive(Clone, Copy)]
pub(crate) struct Last {
    pub(crate) number: u8,
    pub(crate) at: u128,
    /// The longest delay in nanoseconds that the frame may have had since its release.
    pub(crate) delay: u128,
}

/// A frame that came: its time in nanoseconds, its length and its fields.
#[derive(Clone, Copy)]
pub(crate) struct Arrived {
    pub(crate) at: u128,
    pub(crate) len: u64,
    pub(crate) fields: Fields,
    /// The sub-VL, 4 if it isn't known.
    pub(crate) sub: u8,
}

/// The measure by which a line judges its frames.
#[derive(Clone, Copy)]
pub(crate) struct Measure {
    /// The most bytes of a datagram in a frame.
    pub(crate) room: u16,
    /// The number of the link's sub-VLs.
    pub(crate) sub_vls: u8,
    /// The least time in nanoseconds between the releases of two frames.
    pub(crate) gap: u64,
    /// The most by which the time from a frame's release to its recording varies, in nanoseconds.
    pub(crate) jitter: u128,
    /// The recording began after the end system.
    pub(crate) late: bool,
    /// Frames are judged by ARINC 664 Part 7 alone.
    pub(crate) arinc: bool,
}

/// The deviations of a frame on a line, in the order of the kinds.
#[derive(Clone, Copy, Default)]
pub(crate) struct Verdict {
    pub(crate) number: Option<Deviation>,
    pub(crate) early: Option<Deviation>,
    pub(crate) port: Option<Deviation>,
    pub(crate) fragment: Option<Deviation>,
    pub(crate) message: Option<Deviation>,
    pub(crate) turn: Option<Deviation>,
}

/// Returns the number of the next frame, if it is known.
fn next_number(late: bool, last: Option<Last>) -> Option<u8>
    ensures { result ≡ next_number late last }
{
    match last {
        Some(last) if last.number == 255 => Some(1),
        Some(last) => Some(last.number + 1),
        None if late => None,
        None => Some(0),
    }
}

/// Returns the kind of a number that isn't the next one.
fn number_kind(number: u8, last: Option<Last>) -> FindingKind
    ensures { result ≡ number_kind number last }
{
    match last {
        Some(last) if number == 0 && last.number != 255 => FindingKind::Restart,
        _ => FindingKind::Number,
    }
}

/// Returns the time since the last frame.
fn gap_since(at: u128, last: Option<Last>) -> Option<u128>
    ensures { result ≡ gap_since at last }
{
    Some(at.saturating_sub(last?.at))
}

/// Returns the longest delay that a frame may have had, 0 for an early one.
fn delay_after(measure: &Measure, at: u128, last: Option<Last>) -> u128
    ensures { result ≡ delay_after measure.now at last }
{
    let Some(last) = last else {
        return measure.jitter;
    };
    let (gap, since) = (measure.gap as u128, at.saturating_sub(last.at));
    let left = last.delay.saturating_sub(last.at.saturating_sub(at));
    let left = left.saturating_sub(gap.saturating_sub(since));
    left.saturating_add(since.saturating_sub(gap))
        .min(measure.jitter)
}

/// Returns true if a frame is no piece of a message: by ARINC 664 alone it may carry ICMP.
fn is_beside(measure: &Measure, fields: &Fields) -> bool
    ensures { result ≡ is_beside measure.now fields.now }
{
    measure.arinc && fields.icmp
}

impl Line {
    /// Creates a line without frames.
    pub(crate) fn new(late: bool, arinc: bool) -> Line
        ensures { result ≡ new_line late arinc }
    {
        let [a, b, c, d] = [0, 1, 2, 3].map(|sub| Sub::new(late, arinc, sub));
        Line {
            last: None,
            figures: Figures::default(),
            subs: [a, b, c, d],
        }
    }

    /// Returns a finding if a frame doesn't have the next sequence number.
    fn number_deviation(&self, late: bool, number: u8) -> Option<Deviation>
        ensures { result ≡ number_deviation late number self.now }
    {
        let wanted = next_number(late, self.last)?;
        if number == wanted {
            return None;
        }
        let kind = number_kind(number, self.last);
        Some(Deviation::new(kind, number as u64, wanted as u64))
    }

    /// Returns a finding if a frame comes before each release time that the earlier frames leave it.
    fn early_deviation(&self, gap: u64, at: u128) -> Option<Deviation>
        ensures { result ≡ early_deviation gap at self.now }
    {
        let last = self.last?;
        let (gap, since) = (gap as u128, at.saturating_sub(last.at));
        let before = last.at.saturating_sub(at);
        if before <= last.delay && gap.saturating_sub(since) <= last.delay - before {
            return None;
        }
        let wanted = gap.saturating_sub(last.delay);
        Some(Deviation::new(FindingKind::Early, since as u64, wanted as u64))
    }

    /// Returns the line after a finding on its number, if there is one. After a restart each sub-VL begins its messages
    /// anew.
    fn numbered(&self, arinc: bool, number: Option<Deviation>) -> Line
        ensures { result ≡ after_number arinc number self.now }
    {
        match number {
            Some(deviation) if matches!(deviation.kind, FindingKind::Restart) => {
                let fresh = Line::new(false, arinc);
                let subs = fresh.subs;
                Line { subs, ..*self }
            }
            _ => self.after(number, true),
        }
    }

    /// Returns the line after a finding, if there is one: no piece is due, and after a loss nothing is known of
    /// messages.
    fn after(&self, finding: Option<Deviation>, lost: bool) -> Line
        ensures lost { lost ≡ true → result ≡ (if is_some finding then unsettled self.now else self.now) }
        ensures turn { lost ≡ false → result ≡ after_turn finding self.now }
    {
        if finding.is_none() {
            return *self;
        }
        let s = &self.subs;
        let (a, b, c, d) = (
            s[0].undue(lost),
            s[1].undue(lost),
            s[2].undue(lost),
            s[3].undue(lost),
        );
        Line {
            subs: [a, b, c, d],
            ..*self
        }
    }

    /// Returns the number of the link's frames up to the last one of a sub-VL, 0 if the sub-VL isn't known.
    fn came(&self, sub: u8) -> u64
        ensures { result ≡ (sub_at self.now.subs sub).came }
    {
        match self.subs.get(sub as usize) {
            Some(s) => s.came,
            None => 0,
        }
    }

    /// Returns a finding if a frame is the second one of its sub-VL before a due piece of another sub-VL.
    fn turn_deviation(&self, sub: u8) -> Option<Deviation>
        ensures { result ≡ turn_deviation sub self.now }
    {
        let due = passed_by(&self.subs, self.came(sub))?;
        Some(Deviation::new(FindingKind::Turn, sub as u64, due as u64))
    }

    /// Returns the knowledge of the message of a frame, whose sub-VL may not be known. `count` is the number of the
    /// link's sub-VLs.
    fn joining(&self, count: u8, sub: u8) -> Joining
        ensures { result ≡ joining_at count sub self.now.subs }
    {
        match self.subs.get(sub as usize) {
            Some(s) => s.joining,
            None if unknown_place(count, &self.subs).is_some() => Joining::Any,
            None => Joining::After(None),
        }
    }

    /// Returns the sub-VL of a frame; `port` is the port of a first piece. 4 if the sub-VL isn't known.
    pub(crate) fn sub_of(&self, measure: &Measure, port: Option<PortPlan>, fields: &Fields) -> u8
        ensures { result ≡ sub_of measure.now port fields.now self.now }
    {
        if !measure.arinc {
            return sub_in(fields);
        }
        let number = self.number_deviation(measure.late, fields.number);
        let numbered = self.numbered(measure.arinc, number);
        match port {
            Some(port) => port.sub,
            None => going_on(fields, &numbered.subs).unwrap_or(4) as u8,
        }
    }

    /// Returns the figures with one more frame.
    fn figures_with(&self, arrived: &Arrived) -> Figures
        ensures { result ≡ figures_with arrived.now self.now }
    {
        let gap = gap_since(arrived.at, self.last);
        self.figures
            .with(arrived.len, arrived.fields.ends_message(), gap)
    }

    /// Returns the line with the number and the time of one more frame.
    fn counted(&self, measure: &Measure, arrived: &Arrived) -> Line
        ensures { result ≡ line_counted measure.now arrived.now self.now }
    {
        Line {
            last: Some(Last {
                number: arrived.fields.number,
                at: arrived.at,
                delay: delay_after(measure, arrived.at, self.last),
            }),
            figures: self.figures_with(arrived),
            subs: self.subs,
        }
    }

    /// Returns the line with one more frame, after which `joining` is known of its message.
    fn with(&self, measure: &Measure, arrived: &Arrived, joining: Joining) -> Line
        ensures { result ≡ line_joined measure.now arrived.now joining self.now }
    {
        let line = self.counted(measure, arrived);
        let after = Sub {
            joining,
            came: line.figures.frames,
            due: arrived.fields.piece.more,
        };
        Line {
            subs: with_sub(self.subs, arrived.sub, after),
            ..line
        }
    }

    /// Takes a frame, and returns its deviations. `port` is the port of a first piece.
    #[tactic(auto, unfolding(crate::specs::Lines::line_after, crate::specs::Lines::line_with, crate::specs::Lines::verdict))]
    pub(crate) fn take(
        &mut self,
        measure: &Measure,
        port: Option<PortPlan>,
        arrived: &Arrived,
    ) -> Verdict
        requires { AreSmall arrived.now.fields }
        ensures after { self.new ≡ line_after measure.now port arrived.now self.old }
        ensures verdict { result ≡ verdict measure.now port arrived.now self.old }
    {
        let fields = &arrived.fields;
        let number = self.number_deviation(measure.late, fields.number);
        let early = self.early_deviation(measure.gap, arrived.at);
        let numbered = self.numbered(measure.arinc, number);
        if is_beside(measure, fields) {
            *self = numbered.counted(measure, arrived);
            return Verdict {
                number,
                early,
                ..Verdict::default()
            };
        }
        let turn = numbered.turn_deviation(arrived.sub);
        let settled = numbered.after(turn, false);
        let joining = settled.joining(measure.sub_vls, arrived.sub);
        let fragment = joining.fragment_deviation(measure.arinc, measure.room, fields);
        let (after, message) = ended(measure.arinc, fragment, fields, port, &joining);
        let port = port_deviation(fields, port);
        let stray = port.or(fragment);
        let line = settled.with(measure, arrived, after);
        *self = if measure.arinc {
            line.after(stray, true)
        } else {
            line
        };
        Verdict {
            number,
            early,
            port,
            fragment,
            message,
            turn,
        }
    }
}
