//! Arguments of calls, mostly good ones.

use crate::function::Function;
use crate::trial::Trial;
use mvl::labelling::Labelling;
use std::array;
use tables::parts::edge::Edge;

/// An edge that is handed in, with its function; none where it is no edge of the table.
#[derive(Clone, Copy)]
pub(crate) struct Handed {
    pub(crate) edge: Edge,
    pub(crate) function: Option<Function>,
}

impl<L: Labelling + Copy> Trial<'_, L> {
    pub(crate) fn some_variable(&mut self) -> u8 {
        let n = self.model.shape.n as u8;
        if self.random.once_in(16) {
            return n.wrapping_add(self.random.byte(200));
        }
        self.random.byte(n)
    }

    /// Mostly a value of the variable.
    pub(crate) fn some_value(&mut self, x: u8) -> u8 {
        if self.random.once_in(16) {
            return self.random.byte(8);
        }
        let size = self.model.shape.size(usize::from(x));
        self.random.below(size) as u8
    }

    pub(crate) fn some_label(&mut self) -> u8 {
        self.label_or_below(255)
    }

    // Mostly a label; at times a number below `n`.
    fn label_or_below(&mut self, n: u8) -> u8 {
        if self.random.once_in(8) {
            return self.random.byte(n);
        }
        self.random.byte(self.model.labels.count())
    }

    /// Mostly an edge that was answered, or one to a node with any label; at times any number.
    pub(crate) fn some_edge(&mut self) -> Handed {
        let kept = self.some_kept();
        let nodes = self.model.nodes.len();
        let number = match self.random.below(60) {
            0 => self.wild(4),
            1 => self.wild(self.model.capacity.wrapping_add(8)),
            2 => self.wild(16384),
            3..=17 => self.wild(nodes.wrapping_add(4)),
            _ => kept,
        };
        Handed {
            edge: Edge::new(number),
            function: self.model.edge(number),
        }
    }

    // Of a few edges that were answered, the one with the longest path at some assignment; the edge 0 where there is none.
    fn some_kept(&mut self) -> u16 {
        let i = self.random.below(self.model.shape.count());
        let count = self.model.kept.len();
        let drawn: [usize; 4] = array::from_fn(|_| self.random.below(count));
        drawn
            .iter()
            .filter_map(|a| self.model.kept.get(*a))
            .max_by_key(|kept| kept.visits.at(i))
            .map_or(0, |kept| kept.number)
    }

    // Any label, and a target below `n`: a target has fourteen bits.
    fn wild(&mut self, n: usize) -> u16 {
        let target = (self.random.below(n) & 0x3fff) as u16;
        let label = self.label_or_below(4);
        u16::from(label).wrapping_mul(16384).wrapping_add(target)
    }
}
