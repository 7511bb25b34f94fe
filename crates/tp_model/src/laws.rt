//! The laws of legal histories. These functions do nothing: their contracts are the laws.

ghost use Rattle.tp_model.specs.Rows.{WorkedRows};
ghost use Rattle.tp_model.specs.Accounts.{CountsAddUp, StagesAddUp, StagesInPlace, OpenAddsUp, CountsByRows};
ghost use Rattle.tp_model.specs.Accounts.{ConsumedIsTaken, TakenIsConsumed};
ghost use Rattle.tp_model.specs.Families.{ClosedHasFamily, FamilyIsTree, NeverWorkedOn, OutputsAreOfFamily};
ghost use Rattle.tp_model.specs.Families.{SettledFamilyStays};
ghost use Rattle.tp_model.specs.Laws.{ConsumedOnce, NeverClaimedAfterKill, NeverCommittedAfterKill};
ghost use Rattle.tp_model.specs.Laws.{NeverKilledAfterKill, StatusSteps, BornStays, BornOnce, StatusByWords};
ghost use Rattle.tp_model.specs.Laws.{RoundsByWords, WordsRise, SettledStays, UnitsStay};

/// No element is consumed by two committed units.
pub fn consumed_once()
    ensures { ConsumedOnce }
{}

/// After a kill the element is claimed no more, no unit that claimed it commits, and nobody kills it again.
pub fn never_after_kill()
    ensures claim { NeverClaimedAfterKill }
    ensures commit { NeverCommittedAfterKill }
    ensures kill { NeverKilledAfterKill }
{}

/// The ways in which one event may change a status.
pub fn status_steps()
    ensures { StatusSteps }
{}

/// What was born stays born, with the same contents.
pub fn born_stays()
    ensures stays { BornStays }
    ensures once { BornOnce }
{}

/// A consumed or killed element stays so.
pub fn finished_stays()
    ensures { SettledStays }
{}

/// What a longer history keeps: who claimed a unit and how it ended, and each claim word but for later
/// attempts and rounds and a kill.
pub fn later_histories()
    ensures units { UnitsStay }
    ensures words { WordsRise }
{}

/// Once the family of a client's element is settled, it stays so and nothing is born in it. No element of it
/// is claimed any more, and no unit that claimed one commits.
pub fn settled_for_good()
    ensures never { NeverWorkedOn }
    ensures stays { SettledFamilyStays }
{}

/// A family is a tree: each element of it but the root comes from another one of it, by the unit that
/// consumed that one. Who begins at the root and goes on from each consumed element to its outputs comes to
/// the whole family, and to no other element.
pub fn family_is_tree()
    ensures tree { FamilyIsTree }
    ensures whole { ClosedHasFamily }
    ensures only { OutputsAreOfFamily }
{}

/// A status is read off two words, and how many rounds an element was given off its claim word.
pub fn status_by_words()
    ensures status { StatusByWords }
    ensures rounds { RoundsByWords }
{}

/// In all and in each stage the five counts add up to the born elements. An account has the counts of each
/// stage, and these add up to the total; what it has open is what waits or is held in the servers' stages.
pub fn counts_add_up()
    ensures kinds { CountsAddUp }
    ensures stages { StagesAddUp }
    ensures places { StagesInPlace }
    ensures open_work { OpenAddsUp }
{}

/// Who goes through the rows, one after another, counts each born element, and each once.
pub fn counts_by_rows()
    ensures { CountsByRows }
{}

/// The consumed elements are those that the passes consumed, each of them by one pass alone and once.
pub fn consumed_by_passes()
    ensures once { ConsumedIsTaken }
    ensures only { TakenIsConsumed }
{}

/// Worked histories have the statuses, ends and counts that they are said to have.
pub fn worked_rows()
    ensures { WorkedRows }
{}
