//! What a table must have by now, told from truth tables.

use crate::fault::Fault;
use crate::function::Function;
use crate::labels::Labels;
use crate::shape::Shape;
use std::alloc::Global;
use std::collections::BTreeMap;

/// An edge that was answered, with its function and the number of nodes on the path at each assignment.
#[derive(Clone, Copy)]
pub(crate) struct Kept {
    pub(crate) number: u16,
    pub(crate) function: Function,
    pub(crate) visits: Function,
}

/// The edges that were answered, and the function of each node by the number that the table gave it.
#[derive(Drop)]
pub(crate) struct Model {
    pub(crate) shape: Shape,
    pub(crate) labels: Labels,
    pub(crate) capacity: usize,
    pub(crate) kept: Vec<Kept>,
    pub(crate) nodes: BTreeMap<usize, Function>,
}

impl Model {
    pub(crate) fn new(heap: Global, shape: Shape, labels: Labels, capacity: usize) -> Model {
        Model {
            shape,
            labels,
            capacity,
            kept: Vec::new(heap),
            nodes: BTreeMap::new(heap),
        }
    }

    pub(crate) fn has(&self, function: &Function) -> bool {
        self.nodes.values().any(|node| *node == *function)
    }

    // By hand: the model reads numbers of edges by the rules, and not by the code that it tests.
    /// The function of the edge with this number; none where it is no edge of the table.
    pub(crate) fn edge(&self, number: u16) -> Option<Function> {
        let label = (number / 16384) as u8;
        if label >= self.labels.count() {
            return None;
        }
        let below = self.target(usize::from(number % 16384))?;
        Some(below.carried(&self.shape, &self.labels, label))
    }

    // The function of a terminal or a node.
    fn target(&self, target: usize) -> Option<Function> {
        if target >= 4 {
            return self.nodes.get(&(target - 4)).copied();
        }
        let v = target as u8;
        let is_home = self.labels.home(v) == Some(v);
        is_home.then(|| Function::constant(&self.shape, v))
    }

    /// The functions of the nodes of a diagram that the table has not yet.
    pub(crate) fn missing(&self, heap: Global, f: &Function) -> Result<Vec<Function>, Fault> {
        let mut out = Vec::new(heap);
        for x in 0..self.shape.n {
            self.add_missing(&mut out, f, x)?;
        }
        Ok(out)
    }

    // Those of the nodes at place `x`, unless they are among `out` already.
    fn add_missing(&self, out: &mut Vec<Function>, f: &Function, x: usize) -> Result<(), Fault> {
        for start in (0..self.shape.count()).step_by(self.shape.width(x)) {
            if f.depends(&self.shape, x, start) {
                let node = f.node(&self.shape, &self.labels, x, start);
                if !self.has(&node) && !out.contains(&node) {
                    out.push(node)?;
                }
            }
        }
        Ok(())
    }
}
