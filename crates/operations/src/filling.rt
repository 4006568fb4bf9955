//! A table operation is made, filled and asked.

ghost use Rattle.std.specs.Prelude.{◌≡◌, ℕ, ◌<◌, length, slice_index};
ghost use Rattle.mvl.specs.Answers.{Small, MadeFor};
ghost use Rattle.operations.specs.Filling.{table_of, Blank, Fills};
ghost use Rattle.std.proofs.Common.{rules};

use crate::operand::operand;
use crate::operation::{Operation, Shortcut};
use crate::table_operation::TableOperation;
use mvl::radix::Radix;
use mvl::refusal::Refusal;

impl TableOperation {
    /// For a radix from 2 to 4; any other is refused with 1. It answers 0 for every pair.
    pub fn new(radix: u8) -> Result<TableOperation, Refusal>
        ensures made { MadeFor (λ o. o.radix.value) Small radix result }
        ensures blank { Blank result }
    {
        let radix = Radix::try_from(radix)?;
        Ok(TableOperation {
            radix,
            bytes: [0; 16],
        })
    }

    /// Byte radix × a + b becomes the answer for the pair (a, b). Refused with 7 where the length is not radix × radix, else with 5 where
    /// a byte is not below the radix.
    pub fn fill(&mut self, bytes: &[u8]) -> Result<(), Refusal>
        ensures { Fills self.old bytes.now result self.new }
    {
        let radix = self.radix.get();
        if bytes.len() != (radix * radix) as usize {
            return Err(Refusal::WrongLength);
        }
        if !bytes.iter().all(|byte| *byte < radix) {
            return Err(Refusal::NoValue);
        }
        // In a copy: the borrow check does not cover lending this field of a struct with ghost fields (tried).
        let mut filled = self.bytes;
        filled[..bytes.len()].copy_from_slice(bytes);
        self.bytes = filled;
        Ok(())
    }

    // The answers for a left operand, by the right one.
    fn row(&self, left: u8) -> &[u8]
        requires { left < self.now.radix.value }
        ensures long { length result.now ≡ self.now.radix.value }
        ensures answers { (b : ℕ) → b < self.now.radix.value → slice_index result.now b ≡ (table_of self.now).answer left b }
    {
        let radix = self.radix.get();
        let start = (radix * left) as usize;
        &self.bytes[start..start + radix as usize]
    }
}

impl Operation for TableOperation {
    ghost meaning = { table_of };

    ghost closed = { Prim.search rules };

    fn radix(&self) -> u8 {
        self.radix.get()
    }

    fn ask(&self, left: u8, right: u8) -> Result<u8, Refusal> {
        let left = operand(self.radix, left)?;
        let right = operand(self.radix, right)?;
        Ok(self.row(left)[right as usize])
    }
}

impl Shortcut for TableOperation {
    fn tell(&self, left: u8) -> Result<Option<u8>, Refusal> {
        let left = operand(self.radix, left)?;
        let row = self.row(left);
        let first = row[0];
        let same = row.iter().all(|answer| *answer == first);
        Ok(same.then_some(first))
    }
}
