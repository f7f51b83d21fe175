//! Laws of plans. Each function is empty; its contract is the law.
ghost use Rattle.afdx_plan.specs.PlanFaults.{ValidPlansShowNoFault};
ghost use Rattle.afdx_plan.specs.Config.{FlowsApart};

use crate::config::Config;

/// Two messages share both addresses and the identification only if they belong to one sub-VL and their numbers there
/// differ by a multiple of 16,384.
pub fn flows_apart(config: &Config)
    ensures { FlowsApart config.now }
{
    let _ports = config.ports();
}

/// A valid plan has none of the faults of plans.
#[tactic(auto, using(crate::proofs::PlanLemmas::faultless))]
pub fn valid_plans_show_no_fault()
    ensures { ValidPlansShowNoFault }
{}
