//! The end systems and links that the plans of one network share, though they may not.
ghost use Rattle.std.specs.Prelude.{◌≡◌, ◌++◌, IfOk, OnOk};
ghost use Rattle.judge.specs.Network.{clashes, place_of, shared_by};

use afdx_plan::{Config, LinkPlan};
use std::alloc::{AllocError, Global};

/// An end system or a link that two plans share.
#[derive(Clone, Copy, Debug, PartialEq, Eq)]
pub enum Shared {
    /// An end system.
    EndSystem,
    /// A link, at these places of the earlier plan and of the later one.
    Link(usize, usize),
}

/// An end system or a link that a plan shares with an earlier one: its number, and the places of both plans.
#[derive(Clone, Copy, Debug, PartialEq, Eq)]
pub struct Clash {
    pub id: u16,
    pub earlier: usize,
    pub later: usize,
    pub shared: Shared,
}

/// Returns what plans of one network share, and may not: an end system is in one plan alone, and so is a link, since
/// each has an address of its own. Fails only if memory runs out.
pub fn clashes(alloc: Global, plans: &[Config]) -> Result<Vec<Clash>, AllocError>
    ensures { IfOk result (λ found. found.items ≡ clashes plans.now) }
{
    let mut found = Vec::new(alloc);
    for (later, plan) in plans.iter().enumerate() {
        for (earlier, other) in plans[..later].iter().enumerate() {
            add_shared(&mut found, earlier, other, later, plan)?;
        }
    }
    Ok(found)
}

/// Adds what two plans share.
#[tactic(auto, unfolding(crate::specs::Network::shared_by))]
fn add_shared(
    found: &mut Vec<Clash>,
    earlier: usize,
    other: &Config,
    later: usize,
    plan: &Config,
) -> Result<(), AllocError>
    ensures { OnOk result (found.new.items ≡ found.old.items ++ shared_by earlier other.now later plan.now) }
{
    let clash = |id, shared| Clash {
        id,
        earlier,
        later,
        shared,
    };
    if plan.end_system() == other.end_system() {
        found.push(clash(plan.end_system(), Shared::EndSystem))?;
    }
    for (second, link) in plan.links().iter().enumerate() {
        if let Some(first) = place_of(other.links(), link) {
            found.push(clash(link.id.0, Shared::Link(first, second)))?;
        }
    }
    Ok(())
}

/// Returns the place of the link with the same number.
fn place_of(links: &[LinkPlan], link: &LinkPlan) -> Option<usize>
    ensures { result ≡ place_of links.now link.now }
{
    links.iter().position(|it| it.id.0 == link.id.0)
}
