//! The interlocking as a node.

ghost use Rattle.ixl_state.specs.ixl_table.Table.{IsTableOf};
ghost use Rattle.std.specs.Prelude.{◌≡◌, ◌++◌, [], IfOk, OnOk};
ghost use Rattle.std.specs.Option.{option_map};
ghost use Rattle.ixl.specs.Interlocking.{meant, told as told_by};
ghost use Rattle.node_kinds.specs.Counted.{number_lines, with_links};
ghost use Rattle.ixl.specs.Interlocking.{told};
ghost use Rattle.node_kinds.specs.Interlockings.{all_known, answer_to, changes, counted_if_accepted, to_have, wanted};
ghost use Rattle.node_kinds.specs.inside.InterlockingSteps.{texts};
ghost use Rattle.node_kinds.specs.Kept.{to_keep, wanted as wanted_in};
ghost use Rattle.node_kinds.specs.MadeInterlocking.{asked_to_keep, made, seen};

use crate::asked::{add_wanted, say_answer_to};
use crate::changes::say_changes;
use crate::closings_kept::{Asked, asked_by, tell_instead, wanted};
use crate::counting::{count_answer, count_links, count_taken, say_numbers};
use crate::interlocking_steps::SteppedInterlocking;
use crate::keeping::Keeping;
use crate::knowledge::all_known;
use crate::receivers::receiver;
use crate::saying::say_answer_by_step;
use ixl::{Command, Input, Reply};
use node_drive::node_lines::{
    AuxiliaryCounts, Known, OperatorCommand, counted_after, read_command,
};
use node_drive::{Closings, LineMeaning, NodeMachine, Order, Outgoing, ToKeep};
use run_numbers::Numbers;
use simulator_spec::{Checked, NodeId};
use std::alloc::{AllocError, Global};
use std::collections::VecDeque;

/// The word by which an operator asks for the numbers.
const NUMBERS: &str = "numbers";

/// The interlocking of a station, with what its process keeps of it, what it told last of each thing, what it counted, how many
/// auxiliary commands it accepted, what its last step asks to be kept, the lines that it has to tell, and the commands of a line that
/// have to come.
pub struct InterlockingNode {
    pub(crate) stepped: SteppedInterlocking,
    pub(crate) keeping: Keeping,
    pub(crate) told: Vec<Option<Known>>,
    pub(crate) numbers: Numbers,
    pub(crate) counts: AuxiliaryCounts,
    pub(crate) asked: Option<Asked>,
    pub(crate) said: VecDeque<String>,
    pub(crate) left: VecDeque<Command>,
}

// Written by hand, so that it is proved and compiled here alone.
impl Drop for InterlockingNode {
    fn drop(self) {
        let Self {
            stepped: _,
            keeping: _,
            told: _,
            numbers: _,
            counts: _,
            asked: _,
            said: _,
            left: _,
        } = self;
    }
}

impl InterlockingNode {
    /// The interlocking of a table that was checked, at a reading of its clock. It numbers the PDUs of each link from `first` on, has
    /// this kept, and has told nothing yet.
    pub fn new(
        alloc: Global,
        checked: Checked,
        reading: u64,
        first: u32,
        keeping: Keeping,
    ) -> Result<InterlockingNode, AllocError>
        ensures site { IfOk result (λ n. (seen n).state.site ≡ checked) }
        ensures table { IfOk result (λ n. IsTableOf (seen n).state.site (seen n).state.table) }
        ensures node { IfOk result (λ n. seen n ≡ made (seen n).state.site (seen n).state.table keeping (record { clock = reading; first = first })) }
    {
        let stepped = SteppedInterlocking::new(alloc, checked, reading, first)?;
        stepped.layout();
        Ok(InterlockingNode {
            stepped,
            keeping,
            told: Vec::new(alloc),
            numbers: Numbers::none(alloc)?,
            counts: AuxiliaryCounts::none(),
            asked: None,
            said: VecDeque::new(alloc),
            left: VecDeque::new(alloc),
        })
    }

    /// How many auxiliary commands were accepted, so that a file may keep it.
    pub fn counts(&self) -> AuxiliaryCounts
        ensures { result ≡ (seen self.now).state.counts }
    {
        self.counts
    }

    /// It counts auxiliary commands on from what was counted before it was made.
    pub fn count_on(&mut self, counts: AuxiliaryCounts)
        ensures { self.new ≡ record self.old { counts = counts } }
    {
        self.counts = counts;
    }

    /// What is to be kept, before a step. What was said of an earlier one is gone.
    fn begin(&mut self) -> Closings
        ensures wanted { result ≡ wanted_in self.old.keeping self.old.stepped.sited.table self.old.stepped.ixl }
        ensures said { texts self.new.said ≡ [] }
        ensures rest { self.new ≡ record self.old { said = self.new.said } }
    {
        self.said.clear();
        wanted(self.stepped.interlocking(), self.keeping)
    }

    /// What a step asks to be kept, by its input and its answer.
    fn ask(
        &mut self,
        alloc: Global,
        input: Input<'_>,
        reply: Reply,
        before: &Closings,
    ) -> Result<(), AllocError>
        ensures asked { OnOk result (option_map asked_to_keep self.new.asked ≡ to_keep self.old.stepped.sited.site self.old.keeping (meant input.entry) (told_by reply) before.now (to_have (seen self.old).state)) }
        ensures rest { OnOk result (self.new ≡ record self.old { asked = self.new.asked }) }
    {
        let ixl = self.stepped.interlocking();
        let asked = asked_by(alloc, ixl, self.keeping, self.counts, input, reply, before)?;
        self.asked = asked;
        Ok(())
    }

    /// What changed is to be told, and the links are counted.
    fn tell(&mut self, alloc: Global, reading: u64) -> Result<(), AllocError>
        ensures stepped { self.new.stepped ≡ self.old.stepped }
        ensures keeping { self.new.keeping ≡ self.old.keeping }
        ensures asked { self.new.asked ≡ self.old.asked }
        ensures left { self.new.left ≡ self.old.left }
        ensures counts { self.new.counts ≡ self.old.counts }
        ensures told { OnOk result (self.new.told.items ≡ all_known self.old.stepped.sited.site self.old.stepped.sited.table self.old.counts reading self.old.stepped.ixl) }
        ensures said { OnOk result (texts self.new.said ≡ texts self.old.said ++ changes self.old.stepped.sited.site self.old.told.items self.new.told.items) }
        ensures numbers { OnOk result (self.new.numbers ≡ with_links self.old.told.items self.new.told.items self.old.numbers) }
    {
        let all = all_known(alloc, self.stepped.interlocking(), self.counts, reading)?;
        say_changes(
            alloc,
            self.stepped.layout(),
            &mut self.said,
            &self.told,
            &all,
        )?;
        count_links(&mut self.numbers, &self.told, &all);
        self.told = all;
        Ok(())
    }

    /// A command is counted if it is an auxiliary one, and was accepted.
    fn count_auxiliary(&mut self, command: Command, reply: Reply)
        ensures { self.new ≡ record self.old { counts = counted_if_accepted command (told reply) self.old.counts } }
    {
        if matches!(reply, Reply::Accepted) {
            self.counts = counted_after(command, self.counts);
        }
    }

    /// A line of the operator is taken: its answer is to be told, and its commands are to come.
    fn take(
        &mut self,
        alloc: Global,
        reading: u64,
        asked: OperatorCommand,
    ) -> Result<(), AllocError>
        ensures stepped { self.new.stepped ≡ self.old.stepped }
        ensures keeping { self.new.keeping ≡ self.old.keeping }
        ensures asked { self.new.asked ≡ self.old.asked }
        ensures told { self.new.told ≡ self.old.told }
        ensures numbers { self.new.numbers ≡ self.old.numbers }
        ensures counts { self.new.counts ≡ self.old.counts }
        ensures said { OnOk result (texts self.new.said ≡ answer_to self.old.stepped.sited.site self.old.stepped.sited.table reading self.old.stepped.ixl asked) }
        ensures left { OnOk result (self.new.left.items ≡ wanted self.old.stepped.ixl asked) }
    {
        self.said.clear();
        self.left.clear();
        let ixl = self.stepped.interlocking();
        say_answer_to(alloc, ixl, reading, &mut self.said, asked)?;
        add_wanted(&mut self.left, ixl, asked)
    }

    /// The numbers are to be told, and no command is to come.
    fn tell_numbers(&mut self, alloc: Global) -> Result<(), AllocError>
        ensures stepped { self.new.stepped ≡ self.old.stepped }
        ensures keeping { self.new.keeping ≡ self.old.keeping }
        ensures asked { self.new.asked ≡ self.old.asked }
        ensures told { self.new.told ≡ self.old.told }
        ensures numbers { self.new.numbers ≡ self.old.numbers }
        ensures counts { self.new.counts ≡ self.old.counts }
        ensures said { OnOk result (texts self.new.said ≡ number_lines self.old.numbers) }
        ensures left { self.new.left.items ≡ [] }
    {
        self.said.clear();
        self.left.clear();
        say_numbers(alloc, &mut self.said, &self.numbers)
    }
}

impl NodeMachine for InterlockingNode {
    ghost use Rattle.node_kinds.specs.Interlockings.{InterlockingNode as Interlocking, interlocking_kind};
    ghost use Rattle.node_kinds.specs.MadeInterlocking.{seen};
    ghost use Rattle.simulator_spec.specs.ixl_spec.Step.{Input as StepInput};

    ghost State = { Interlocking };

    ghost Input = { StepInput };

    ghost does = { interlocking_kind };

    ghost node = { seen };

    fn is_partner(&self, other: NodeId) -> bool {
        other.0 >= 1
    }

    fn hear(&mut self, alloc: Global, reading: u64, bytes: &[u8]) -> Result<(), AllocError> {
        let before = self.begin();
        let input = Input::Datagram(bytes);
        let reply = self.stepped.step(reading, input);
        count_answer(&mut self.numbers, reply);
        count_taken(&mut self.numbers, bytes, reply);
        self.ask(alloc, input, reply, &before)?;
        self.tell(alloc, reading)
    }

    fn tick(&mut self, alloc: Global, reading: u64) -> Result<(), AllocError> {
        let before = self.begin();
        let reply = self.stepped.step(reading, Input::Tick);
        count_answer(&mut self.numbers, reply);
        self.ask(alloc, Input::Tick, reply, &before)?;
        self.tell(alloc, reading)
    }

    fn take_line(
        &mut self,
        alloc: Global,
        reading: u64,
        text: &str,
    ) -> Result<LineMeaning, AllocError> {
        if text == NUMBERS {
            self.tell_numbers(alloc)?;
            return Ok(LineMeaning::Comes);
        }
        match read_command(self.stepped.layout(), text) {
            Ok(asked) => {
                self.take(alloc, reading, asked)?;
                Ok(LineMeaning::Comes)
            }
            Err(fault) => Ok(LineMeaning::Faulty(fault)),
        }
    }

    fn step_on(&mut self, alloc: Global, reading: u64) -> Result<bool, AllocError> {
        let Some(command) = self.left.pop_front() else {
            return Ok(false);
        };
        let before = self.begin();
        let input = Input::Command(command);
        let reply = self.stepped.step(reading, input);
        count_answer(&mut self.numbers, reply);
        self.count_auxiliary(command, reply);
        self.ask(alloc, input, reply, &before)?;
        say_answer_by_step(alloc, self.stepped.layout(), &mut self.said, command, reply)?;
        self.tell(alloc, reading)?;
        Ok(true)
    }

    fn order(&self) -> Option<Order> {
        None
    }

    fn is_done(&self) -> bool {
        false
    }

    fn to_keep(&self) -> Option<ToKeep> {
        let asked = self.asked.as_ref()?;
        Some(asked.all)
    }

    fn note_kept(&mut self, kept: bool) -> Result<(), AllocError> {
        let asked = self.asked.take();
        if !kept {
            tell_instead(&mut self.said, asked)?;
        }
        Ok(())
    }

    fn take_datagram(&mut self) -> Option<Outgoing> {
        let datagram = self.stepped.take_first()?;
        let to = receiver(self.stepped.layout(), datagram.as_slice());
        Some(Outgoing { to, datagram })
    }

    fn take_saying(&mut self) -> Option<String> {
        self.said.pop_front()
    }

    fn tell_all(&mut self, alloc: Global, _reading: u64) -> Result<(), AllocError> {
        self.said.clear();
        let layout = self.stepped.layout();
        say_changes(alloc, layout, &mut self.said, &[], &self.told)
    }
}
