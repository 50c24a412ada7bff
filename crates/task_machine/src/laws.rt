//! Laws of the machine, and a run worked out by hand.
ghost use Rattle.task_machine.specs.Laws.{ActingTaskActs, ChildComes, ChildrenComeLater, LeadsByParts, LeadsFurther, LeadsToOne, OthersStay};
ghost use Rattle.task_machine.specs.Laws.{PrefixIsLegal, StandsAtOne, StandsOrGoesOn, StepIsOne, StrandsRise, StrandsWereMade};
ghost use Rattle.task_machine.specs.Rows.{NumberRow, ReturnRow, SpawnRow};

pub fn step_is_one()
    ensures { StepIsOne }
{}

pub fn leads_to_one()
    ensures { LeadsToOne }
{}

pub fn leads_by_parts()
    ensures { LeadsByParts }
{}

pub fn leads_further()
    ensures { LeadsFurther }
{}

pub fn prefix_is_legal()
    ensures { PrefixIsLegal }
{}

pub fn strands_rise()
    ensures { StrandsRise }
{}

pub fn children_come_later()
    ensures { ChildrenComeLater }
{}

pub fn strands_were_made()
    ensures { StrandsWereMade }
{}

pub fn stands_at_one()
    ensures { StandsAtOne }
{}

pub fn stands_or_goes_on()
    ensures { StandsOrGoesOn }
{}

pub fn spawn_row()
    ensures { SpawnRow }
{}

pub fn number_row()
    ensures { NumberRow }
{}

pub fn return_row()
    ensures { ReturnRow }
{}

pub fn acting_task()
    ensures { ActingTaskActs }
{}

pub fn others_stay()
    ensures { OthersStay }
{}

pub fn child_comes()
    ensures { ChildComes }
{}
