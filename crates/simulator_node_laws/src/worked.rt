//! Wrong definitions of what a node is told and tells, refuted by small runs.

ghost use Rattle.simulator_spec.specs.layout.declared.port.Port.{Port};
ghost use Rattle.simulator_node_laws.specs.Worked.{AnotherClock, KeepsWhatCame, LineNotTold, NoFrozenRows, OldContacts, TellsNobody};

/// Small runs, each with what is so, what the definitions tell of it, and what a wrong one tells: a node that lives by the
/// clock of another (*clock*), an interlocking made anew with no frozen rows (*frozen*), a contact that tells nobody (*nobody*),
/// contacts that never change (*old*), a node that keeps what came before it was made anew (*came*), and a line to the field that
/// isn't told (*line*).
pub fn wrong_lives_are_refuted()
    ensures clock { (at : Port) → AnotherClock at }
    ensures frozen { (at : Port) → NoFrozenRows at }
    ensures nobody { (at : Port) → TellsNobody at }
    ensures old { (at : Port) → OldContacts at }
    ensures came { (at : Port) → KeepsWhatCame at }
    ensures line { (at : Port) → LineNotTold at }
{}
