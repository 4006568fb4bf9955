//! An operation seen through a labelling: operands and answer are carried by labels.

ghost use Rattle.std.specs.Prelude.{◌≡◌, ◌↔◌, IsTrue};
ghost use Rattle.mvl.specs.Operations.{turns as turns_by};
ghost use Rattle.operations.specs.Turning.{Alone, Labelled, Sets, seen};
ghost use Rattle.operations.specs.Turnings.{turned_closed};

use crate::operation::Operation;
use mvl::labelling::Labelling;
use mvl::refusal::Refusal;

/// `below`, with its left operand carried by label `left`, its right one by `right` and its answer by `answer`.
#[derive(Clone, Copy)]
pub struct Turned<O, L> {
    below: O,
    labelling: L,
    // Three fields, as `set` and its contract take them: a struct of three would be taken apart at once.
    // No ghost field says that they are labels: it would need what O and L mean, and the definitions of scripts name this type without that.
    // 0 where nothing is set: the rules say so, and label 0 changes nothing.
    left: u8,
    right: u8,
    answer: u8,
}

impl<O: Operation, L: Labelling> Turned<O, L> {
    /// All labels are 0: the operation below answers alone.
    pub fn new(below: O, labelling: L) -> Turned<O, L>
        ensures fields { (result.below ≡ below) × (result.labelling ≡ labelling) × (result.left ≡ 0) × (result.right ≡ 0) × (result.answer ≡ 0) }
        ensures alone { Alone (O.meaning below) (seen O.meaning L.meaning result) }
    {
        Turned {
            below,
            labelling,
            left: 0,
            right: 0,
            answer: 0,
        }
    }

    /// The operation that it stands on.
    pub fn below(&self) -> &O
        ensures { result.now ≡ self.now.below }
    {
        &self.below
    }

    /// The labelling that it stands on.
    pub fn labelling(&self) -> &L
        ensures { result.now ≡ self.now.labelling }
    {
        &self.labelling
    }

    /// Sets the three labels. Refused with 6 where one is none of the labelling's, else with 8 where the radices of the operation below
    /// and of the labelling differ.
    #[tactic(auto, using(crate::specs::Turnings::turned_carried))]
    pub fn set(&mut self, left: u8, right: u8, answer: u8) -> Result<(), Refusal>
        ensures { Sets O.meaning L.meaning left right answer self.old result self.new }
    {
        if !self.labelled(left, right, answer) {
            return Err(Refusal::NoLabel);
        }
        if self.below.radix() != self.labelling.radix() {
            return Err(Refusal::WrongRadix);
        }
        self.left = left;
        self.right = right;
        self.answer = answer;
        Ok(())
    }

    // Whether all three are labels of the labelling.
    fn labelled(&self, left: u8, right: u8, answer: u8) -> bool
        ensures { IsTrue result ↔ Labelled (L.meaning self.now.labelling) left right answer }
    {
        let labels = self.labelling.labels();
        left < labels && right < labels && answer < labels
    }

    // Whether there is something to turn, and the two go together.
    fn turns(&self) -> bool
        ensures { result ≡ turns_by (O.meaning self.now.below) (L.meaning self.now.labelling) self.now.left self.now.right self.now.answer }
    {
        let some = self.left != 0 || self.right != 0 || self.answer != 0;
        some && self.labelled(self.left, self.right, self.answer)
            && self.below.radix() == self.labelling.radix()
    }
}

impl<O: Operation, L: Labelling> Operation for Turned<O, L> {
    ghost meaning = { seen O.meaning L.meaning };

    ghost closed = { λ t. turned_closed _ _ t.left t.right t.answer (O.closed t.below) (L.lawful t.labelling) };

    fn radix(&self) -> u8 {
        self.below.radix()
    }

    fn ask(&self, left: u8, right: u8) -> Result<u8, Refusal> {
        if !self.turns() {
            return self.below.ask(left, right);
        }
        let a = self.labelling.carry(self.left, left)?;
        let b = self.labelling.carry(self.right, right)?;
        let v = self.below.ask(a, b)?;
        self.labelling.carry(self.answer, v)
    }
}
