//! Laws of tables. Each function is empty; its contract is the law.
ghost use Rattle.plan_table.specs.Laws.{TablesAreRead, TablesDiffer};

/// The table of a valid plan is read as that plan, if memory doesn't run out.
#[tactic(auto, using(crate::proofs::LawLemmas::tables_are_read))]
pub fn tables_are_read()
    ensures { TablesAreRead }
{}

/// Two plans have different tables.
#[tactic(auto, using(crate::proofs::LawLemmas::tables_differ))]
pub fn tables_differ()
    ensures { TablesDiffer }
{}
