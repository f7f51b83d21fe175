//! A set of judges, one for each plan.
ghost use Rattle.std.specs.Prelude.{◌≡◌, IfOk, OnOk, option_copied};
ghost use Rattle.capture.specs.Recording.{recorded};
ghost use Rattle.judge.specs.Tap.{Judges, after_heard, ended_all, found_heard, judge_at, heard_as as heard_as_of, is_foreign, no_judges, with_judge, with_judges};

use crate::finding::{Finding, FindingKind};
use crate::judge::{Judge, Options};
use crate::source::source_of;
use afdx_frame::Net;
use afdx_plan::Config;
use capture::Packet;
use std::alloc::{AllocError, Global};
use std::collections::BTreeMap;
use std::marker::Model;

/// The judges of the plans of a network. A single plan's judge hears all packets; of several judges, each hears the
/// packets of its own end system, and a packet that none hears is a finding `Source`.
#[derive(Drop)]
pub struct Tap {
    judges: BTreeMap<u16, Judge>,
    // The end systems, in the order of the plans.
    order: Vec<u16>,
}

impl Model for Tap {
    ghost Value = { Judges };

    ghost view = { λ t. record { judges = t.judges.entries; order = t.order.items } };
}

impl Tap {
    /// Creates the judges of plans, which have heard no packet. Fails only if memory runs out.
    pub fn new(alloc: Global, plans: Vec<Config>, options: Options) -> Result<Tap, AllocError>
        ensures { IfOk result (λ tap. tap ≡ with_judges plans.items options no_judges) }
    {
        let mut tap = Tap::empty(alloc);
        for plan in plans {
            tap.add(alloc, plan, options)?;
        }
        Ok(tap)
    }

    /// Creates a tap without a judge.
    pub fn empty(alloc: Global) -> Tap
        ensures { result ≡ no_judges }
    {
        Tap {
            judges: BTreeMap::new(alloc),
            order: Vec::new(alloc),
        }
    }

    /// Adds the judge of a plan. No plan before it may have the same end system, which `clashes` finds: it would take
    /// that plan's place, and its missing frames would be told twice. Fails only if memory runs out: then nothing can
    /// be said of a recording.
    pub fn add(&mut self, alloc: Global, plan: Config, options: Options) -> Result<(), AllocError>
        ensures { OnOk result (self.new ≡ with_judge plan options self.old) }
    {
        let end_system = plan.end_system();
        self.order.push(end_system)?;
        let judge = Judge::new(alloc, plan, options)?;
        self.judges.insert(end_system, judge)?;
        Ok(())
    }

    /// Returns the end systems, in the order of their plans.
    pub fn end_systems(&self) -> &[u16]
        ensures { result.now ≡ self.now.order }
    {
        self.order.as_slice()
    }

    /// Returns the judge of an end system.
    pub fn judge_of(&self, end_system: u16) -> Option<&Judge>
        ensures { option_copied result ≡ judge_at self.now.judges end_system }
    {
        self.judges.get(&end_system)
    }

    /// Returns whether the source MAC address of a packet's frame names no plan's end system. A packet that ends before
    /// the type of its frame isn't foreign.
    pub fn is_foreign(&self, packet: &Packet<'_>) -> bool
        ensures { result ≡ is_foreign packet.now.bytes.now self.now }
    {
        packet.bytes.len() >= 14
            && match source_of(packet.bytes) {
                Some(source) => self.judges.get(&source).is_none(),
                None => true,
            }
    }

    /// Returns the end system whose judge hears a frame.
    fn heard_as(&self, frame: &[u8]) -> Option<u16>
        ensures { result ≡ heard_as_of self.now.order frame.now }
    {
        match self.order.as_slice() {
            [only] => Some(*only),
            _ => source_of(frame),
        }
    }

    /// Has the judge of its source take a packet, and appends what that finds. A packet of no judge's is a finding
    /// `Source`: its end system is seen, 0 if its source MAC address is none's, and the first plan's is wanted. Fails
    /// if memory runs out: then nothing more can be said of the recording.
    pub fn take(
        &mut self,
        net: Net,
        number: u64,
        packet: &Packet<'_>,
        found: &mut Vec<Finding>,
    ) -> Result<(), AllocError>
        ensures after { OnOk result (self.new ≡ after_heard net number (recorded packet.now) self.old) }
        ensures found { OnOk result (found.new.items
            ≡ found_heard net number (recorded packet.now) self.old found.old.items) }
    {
        if let Some(source) = self.heard_as(packet.bytes) {
            if let Some(judge) = self.judges.get_mut(&source) {
                return judge.take(net, number, packet, found);
            }
        }
        let stray = Finding {
            kind: FindingKind::Source,
            packet: number,
            net,
            at: packet.at.unwrap_or(0),
            link: None,
            seen: source_of(packet.bytes).unwrap_or(0) as u64,
            wanted: self.order.first().copied().unwrap_or(0) as u64,
        };
        Ok(found.push(stray)?)
    }

    /// Appends which frames are missing at the end of the recording, plan by plan.
    pub fn end(&self, found: &mut Vec<Finding>) -> Result<(), AllocError>
        ensures { OnOk result (found.new.items ≡ ended_all self.now.judges self.now.order found.old.items) }
    {
        end_all(&self.judges, self.order.as_slice(), found)
    }
}

/// Appends which frames of some end systems are missing at the end of the recording.
fn end_all(
    judges: &BTreeMap<u16, Judge>,
    order: &[u16],
    found: &mut Vec<Finding>,
) -> Result<(), AllocError>
    ensures { OnOk result (found.new.items ≡ ended_all judges.now.entries order.now found.old.items) }
{
    let mut rest = order;
    'judges: while let [end_system, more @ ..] = rest {
        if let Some(judge) = judges.get(end_system) {
            judge.end(found)?;
        }
        rest = more;
    }
    Ok(())
}
