//! A link on both networks.
ghost use Rattle.std.specs.Prelude.{◌≡◌, ◌≤◌, length, OnOk};
ghost use Rattle.afdx_plan.specs.Plan.{is_both};
ghost use Rattle.judge.specs.Lines.{line_after, verdict};
ghost use Rattle.afdx_frame.specs.Layout.{IsReadable};
ghost use Rattle.judge.specs.Judging.{new_link, line_on, with_line, with_verdict, given_up, found_given_up, paired, found_twin, link_after, found_on_link};
ghost use Rattle.judge.specs.Fields.{fields_of, AreSmall};

use crate::fields::Fields;
use crate::finding::{Finding, Tag, add};
use crate::line::{Arrived, Line, Measure, Verdict};
use crate::rules::size_deviation;
use crate::twins::{Nearness, Twins};
use afdx_frame::Net;
use afdx_plan::{LinkPlan, PortPlan, VlId};
use std::alloc::{AllocError, Global};

/// The state of a link.
#[derive(Drop)]
pub(crate) struct Link {
    pub(crate) a: Line,
    pub(crate) b: Line,
    pub(crate) twins: Twins,
}

/// The plan of a link, and the measures by which its frames are judged.
#[derive(Clone, Copy)]
pub(crate) struct Setting {
    pub(crate) plan: LinkPlan,
    pub(crate) measure: Measure,
    pub(crate) nearness: Nearness,
}

/// Appends the findings of a line.
#[tactic(auto, unfolding(crate::specs::Judging::with_verdict))]
fn add_verdict(
    found: &mut Vec<Finding>,
    tag: &Tag,
    vl: VlId,
    verdict: &Verdict,
) -> Result<(), AllocError>
    ensures { OnOk result (found.new.items ≡ with_verdict tag.now vl verdict.now found.old.items) }
{
    let link = Some(vl);
    add(found, tag, link, verdict.number)?;
    add(found, tag, link, verdict.early)?;
    add(found, tag, link, verdict.port)?;
    add(found, tag, link, verdict.fragment)?;
    add(found, tag, link, verdict.message)?;
    add(found, tag, link, verdict.turn)?;
    Ok(())
}

/// Returns true if both networks carry a link.
fn is_both(link: &LinkPlan) -> bool
    ensures { result ≡ is_both link.now.networks }
{
    link.networks.carries_a() && link.networks.carries_b()
}

impl Link {
    /// Creates a link without frames.
    pub(crate) fn new(alloc: Global, late: bool, arinc: bool) -> Link
        ensures { result ≡ new_link late arinc }
    {
        Link {
            a: Line::new(late, arinc),
            b: Line::new(late, arinc),
            twins: Twins::new(alloc),
        }
    }

    /// Removes the waiting frames whose wait a frame ends, and appends the findings of those whose twins were wanted.
    fn give_up(
        &mut self,
        setting: &Setting,
        tag: &Tag,
        number: u8,
        found: &mut Vec<Finding>,
    ) -> Result<(), AllocError>
        ensures after { OnOk result (self.new ≡ given_up setting.now tag.now number self.old) }
        ensures found { OnOk result (found.new.items
            ≡ found_given_up setting.now tag.now number self.old found.old.items) }
    {
        if is_both(&setting.plan) {
            let (nearness, vl) = (&setting.nearness, setting.plan.id);
            self.twins.give_up(nearness, vl, tag, number, found)?;
        }
        Ok(())
    }

    /// Pairs a frame with its twin, and appends their difference.
    fn pair(
        &mut self,
        setting: &Setting,
        tag: &Tag,
        number: u8,
        frame: &[u8],
        found: &mut Vec<Finding>,
    ) -> Result<(), AllocError>
        requires { 12 ≤ length frame.now }
        ensures after { OnOk result (self.new ≡ paired setting.now tag.now number frame.now self.old) }
        ensures found { OnOk result (found.new.items
            ≡ found_twin setting.now tag.now number frame.now self.old found.old.items) }
    {
        if is_both(&setting.plan) {
            let twin = self.twins.meet(&setting.nearness, tag, number, frame)?;
            add(found, tag, Some(setting.plan.id), twin)?;
        }
        Ok(())
    }

    /// Returns the line of a network.
    pub(crate) fn line_on(&self, net: Net) -> &Line
        ensures { result.now ≡ line_on net self.now }
    {
        match net {
            Net::A => &self.a,
            Net::B => &self.b,
        }
    }

    /// Takes a frame on its line.
    fn take(
        &mut self,
        setting: &Setting,
        tag: &Tag,
        port: Option<PortPlan>,
        arrived: &Arrived,
    ) -> Verdict
        requires { AreSmall arrived.now.fields }
        ensures after { self.new ≡ with_line tag.now.net
            (line_after setting.now.measure port arrived.now (line_on tag.now.net self.old)) self.old }
        ensures verdict { result ≡ verdict setting.now.measure port arrived.now (line_on tag.now.net self.old) }
    {
        match tag.net {
            Net::A => self.a.take(&setting.measure, port, arrived),
            Net::B => self.b.take(&setting.measure, port, arrived),
        }
    }

    /// Takes a frame, and appends the missing frames that it shows and its own findings.
    #[tactic(auto, unfolding(crate::specs::Judging::link_after, crate::specs::Judging::found_on_link))]
    pub(crate) fn arrive(
        &mut self,
        setting: &Setting,
        tag: &Tag,
        port: Option<PortPlan>,
        frame: &[u8],
        fields: &Fields,
        found: &mut Vec<Finding>,
    ) -> Result<(), AllocError>
        requires fields { fields.now ≡ fields_of frame.now }
        requires small { AreSmall fields.now }
        requires readable { IsReadable frame.now }
        ensures after { OnOk result (self.new ≡ link_after setting.now tag.now port frame.now self.old) }
        ensures found { OnOk result (found.new.items
            ≡ found_on_link setting.now tag.now port frame.now self.old found.old.items) }
    {
        let vl = setting.plan.id;
        self.give_up(setting, tag, fields.number, found)?;
        let size = size_deviation(&setting.plan, frame.len() as u64);
        add(found, tag, Some(vl), size)?;
        let arrived = Arrived {
            at: tag.at,
            len: frame.len() as u64,
            fields: *fields,
            sub: self.line_on(tag.net).sub_of(&setting.measure, port, fields),
        };
        let verdict = self.take(setting, tag, port, &arrived);
        add_verdict(found, tag, vl, &verdict)?;
        self.pair(setting, tag, fields.number, frame, found)?;
        Ok(())
    }
}
