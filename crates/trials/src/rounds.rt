//! Tables are opened with random cards and played on.

use crate::cards::Filling;
use crate::fault::Fault;
use crate::labels::Labels;
use crate::model::Model;
use crate::random::Random;
use crate::tally::Tally;
use crate::trial::Trial;
use mvl::labelling::Labelling;
use std::alloc::Global;
use tables::calls::table::Table;
use tables::parts::card::Card;

/// Tables of one labelling, and what was drawn and counted so far.
#[derive(Drop)]
pub(crate) struct Round<L> {
    pub(crate) heap: Global,
    pub(crate) labelling: L,
    pub(crate) labels: Labels,
    pub(crate) random: Random,
    pub(crate) tally: Tally,
}

impl<L: Labelling + Copy + Drop> Round<L> {
    /// At least as many calls as asked for.
    pub(crate) fn play(&mut self, calls: usize) -> Result<(), Fault> {
        // A counted loop that breaks off: it is seen to end.
        for _ in 0..calls {
            if self.tally.calls >= calls {
                break;
            }
            self.two_tables()?;
        }
        Ok(())
    }

    // A table of any capacity. Then the same calls on one whose last node is taken by some call that adds several, or lacks just one for it.
    fn two_tables(&mut self) -> Result<(), Fault> {
        let filling = Filling::random(&mut self.random);
        let before = self.random;
        let Some(mark) = self.one_table(filling)? else {
            return Ok(());
        };
        let capacity = mark.wrapping_sub(self.random.below(2));
        let after = self.random;
        self.random = before;
        self.one_table(Filling {
            shape: filling.shape,
            capacity,
        })?;
        self.random = after;
        Ok(())
    }

    // The number of nodes after some call that added several, if one did.
    fn one_table(&mut self, filling: Filling) -> Result<Option<usize>, Fault> {
        let mut card = Card::new();
        if !filling.is_new() {
            self.fill(&mut card, &filling)?;
        }
        let table = Table::open(self.heap, card, self.labelling)?;
        let model = Model::new(self.heap, filling.shape, self.labels, filling.capacity);
        let mut trial = Trial {
            heap: self.heap,
            labelling: self.labelling,
            table,
            model,
            random: &mut self.random,
            tally: &mut self.tally,
            mark: None,
        };
        trial.run()?;
        Ok(trial.mark)
    }
}
