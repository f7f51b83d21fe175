//! Laws of plans and their texts. Each function is empty; its contract is the law.
ghost use Rattle.afdx_config.specs.FindingLaws.{FaultsAreFound, FirstIsAnswered, PlacesHaveFaults, RulesAgree};
ghost use Rattle.afdx_config.specs.Values.{AddressesAreDotted};

pub use afdx_plan::laws::{flows_apart, valid_plans_show_no_fault};

/// The text of a unicast address is four decimal numbers of 0 to 255 joined by dots, without leading
/// zeros, and the first is 10.
pub fn addresses_are_dotted()
    ensures { AddressesAreDotted }
{}

/// A document has a fault exactly if some finding has it.
#[tactic(auto, using(crate::proofs::ShownLemmas::faults_are_found))]
pub fn faults_are_found()
    ensures { FaultsAreFound }
{}

/// The fault of the first finding is the one that `read_config` returns. If a TOML text has no finding,
/// `read_config` returns its plan.
pub fn first_is_answered()
    ensures { FirstIsAnswered }
{}

/// The table or value at the place of a finding has its fault.
pub fn places_have_faults()
    ensures { PlacesHaveFaults }
{}

/// If no value of a document has a fault, the document has exactly the faults of its plan.
#[tactic(auto, using(crate::proofs::RuleLemmas::rules_agree))]
pub fn rules_agree()
    ensures { RulesAgree }
{}
