//! A card is made and filled.

ghost use Rattle.std.specs.Prelude.{◌<◌, [], ◌∷◌};
ghost use Rattle.tables.specs.Cards.{FilledWith, FillsCard};

use crate::parts::card::Card;
use mvl::refusal::Refusal;

impl Card {
    /// One variable of size 2, and no node.
    pub fn new() -> Card
        ensures { FilledWith (2 ∷ []) 0 result }
    {
        Card {
            order: [0; 12],
            place: [0; 12],
            sizes: [2; 12],
            n: 1,
            capacity: 0,
        }
    }

    /// Variable x gets size `sizes[x]` and place x. Refused with 2, with nothing changed: other than 1 to 12 sizes, a size that is not 2 to 4,
    /// a capacity above 2,000.
    pub fn fill(&mut self, sizes: &[u8], capacity: usize) -> Result<(), Refusal>
        ensures { FillsCard self.old sizes.now capacity result self.new }
    {
        let n = sizes.len();
        if n < 1 || n > 12 || capacity > 2000 {
            return Err(Refusal::BadCard);
        }
        if !sizes.iter().all(|size| (2..=4).contains(size)) {
            return Err(Refusal::BadCard);
        }
        let mut own = [0u8; 12];
        own[..n].copy_from_slice(sizes);
        // Both rows written out, so that the check reads off that they undo one another.
        *self = Card {
            order: [0, 1, 2, 3, 4, 5, 6, 7, 8, 9, 10, 11],
            place: [0, 1, 2, 3, 4, 5, 6, 7, 8, 9, 10, 11],
            sizes: own,
            n,
            capacity,
        };
        Ok(())
    }
}
