//! Comparing the frames of two networks over the links that both carry.
ghost use Rattle.std.specs.Prelude.{◌≡◌, ◌↔◌, ◌≤◌, length, map, IsTrue, All, List, take};
ghost use Rattle.afdx_frame.specs.declared.net.Net.TheVariants.{A as ForA, B as ForB};
ghost use Rattle.redundant_mux.specs.Lines.{side};
ghost use Rattle.redundant_mux.specs.Memory.{entries};
ghost use Rattle.afdx_legal.specs.Legal.{AreKnown, AreTwins, is_on_both, on_both};
ghost use Rattle.afdx_plan.specs.declared.config.TheConstants.{LINKS_LIMIT};
ghost use Rattle.afdx_plan.specs.declared.link_plan.LinkPlan.{LinkPlan};

use afdx_frame::word_at;
use afdx_plan::{LINKS_LIMIT, LinkPlan};
use redundant_mux::{Handed, MemNetwork};
use std::marker::Model;

/// A copy of a plan's links that outlives it and allocates nothing. Contracts see their list.
#[derive(Drop)]
pub struct KeptLinks {
    // The first `count` are the links.
    places: [LinkPlan; LINKS_LIMIT],
    count: usize,
}

impl Model for KeptLinks {
    ghost Value = { List LinkPlan };

    ghost view = { λ kept. take kept.count kept.places };

    ghost invariant = { λ kept. kept.count ≤ LINKS_LIMIT };
}

impl KeptLinks {
    /// Copies these links. The places after them hold the first one again.
    pub fn of(links: &[LinkPlan]) -> KeptLinks
        requires some { 1 ≤ length links.now }
        requires most { length links.now ≤ LINKS_LIMIT }
        ensures { result ≡ links.now }
    {
        let count = links.len();
        let mut places = [links[0]; LINKS_LIMIT];
        places[..count].copy_from_slice(links);
        KeptLinks { places, count }
    }

    pub fn as_slice(&self) -> &[LinkPlan]
        ensures { result.now ≡ self.now }
    {
        &self.places[..self.count]
    }
}

fn is_on_both(links: &[LinkPlan], vl: u16) -> bool
    ensures { result ≡ is_on_both links.now vl }
{
    links.iter().any(|link| link.id.0 == vl
        && link.networks.carries_a()
        && link.networks.carries_b())
}

// The index of a frame's link, at the end of the destination MAC address.
const LINK: usize = 4;

#[tactic(auto, using(crate::proofs::Whole::has_link))]
fn count_on_both(links: &[LinkPlan], handed: &[Handed]) -> usize
    requires { All (λ e. 6 ≤ length e.frame) (entries handed.now) }
    ensures { result ≡ length (on_both links.now (entries handed.now)) }
{
    let mut count = 0;
    for one in handed {
        if is_on_both(links, word_at(&one.frame, LINK)) {
            count += 1;
        }
    }
    count
}

/// Returns true if two networks have twins, entry by entry, over the links that both carry. One network has the twins
/// of a beginning of the other's, so counting them is enough.
pub(crate) fn are_equal(links: &[LinkPlan], a: &MemNetwork, b: &MemNetwork) -> bool
    requires known_a { AreKnown links.now ForA a.now.handed }
    requires known_b { AreKnown links.now ForB b.now.handed }
    requires twins { AreTwins side (on_both links.now a.now.handed) (on_both links.now b.now.handed) }
    ensures { IsTrue result ↔ (on_both links.now b.now.handed ≡ map (side ForB) (on_both links.now a.now.handed)) }
{
    count_on_both(links, a.handed()) == count_on_both(links, b.handed())
}
