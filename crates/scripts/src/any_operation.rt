//! An operation of any kind that has a shortcut.

ghost use Rattle.std.specs.Prelude.{◌≡◌};
ghost use Rattle.scripts.specs.Kinds.{MakesOperation};
ghost use Rattle.scripts.specs.Meanings.{operation_meaning};
ghost use Rattle.scripts.specs.Needed.{table_in};
ghost use Rattle.scripts.specs.Lawful.{operation_closed};

use crate::kinds::OperationKind;
use crate::reply::Missing;
use mvl::refusal::Refusal;
use operations::cyclic_sum::CyclicSum;
use operations::maximum::Maximum;
use operations::minimum::Minimum;
use operations::operation::{Operation, Shortcut};
use operations::table_operation::TableOperation;
use operations::truncated_sum::TruncatedSum;

#[derive(Clone, Copy)]
pub enum AnyOperation {
    Minimum(Minimum),
    Maximum(Maximum),
    CyclicSum(CyclicSum),
    TruncatedSum(TruncatedSum),
    Table(TableOperation),
}

impl AnyOperation {
    // An operation of a kind, for a radix from 2 to 4. A table operation answers 0 until it is filled. An arm for each kind, since a kind names a type.
    pub(crate) fn new(kind: OperationKind, radix: u8) -> Result<AnyOperation, Refusal>
        ensures { MakesOperation kind radix result }
    {
        match kind {
            OperationKind::Minimum => Ok(AnyOperation::Minimum(Minimum::new(radix)?)),
            OperationKind::Maximum => Ok(AnyOperation::Maximum(Maximum::new(radix)?)),
            OperationKind::CyclicSum => Ok(AnyOperation::CyclicSum(CyclicSum::new(radix)?)),
            OperationKind::TruncatedSum => Ok(AnyOperation::TruncatedSum(TruncatedSum::new(
                radix,
            )?)),
            OperationKind::Table => Ok(AnyOperation::Table(TableOperation::new(radix)?)),
        }
    }

    // The operation where it is a table.
    pub(crate) fn table(&self) -> Result<TableOperation, Missing>
        ensures { result ≡ table_in self.now }
    {
        match self {
            AnyOperation::Table(table) => Ok(*table),
            _ => Err(Missing::Table),
        }
    }
}

// Each method is passed on by hand: the gate refuses a function that hands out a `dyn` value.
impl Operation for AnyOperation {
    ghost meaning = { operation_meaning };

    ghost closed = { λ o. operation_closed o };

    fn radix(&self) -> u8 {
        match self {
            AnyOperation::Minimum(o) => o.radix(),
            AnyOperation::Maximum(o) => o.radix(),
            AnyOperation::CyclicSum(o) => o.radix(),
            AnyOperation::TruncatedSum(o) => o.radix(),
            AnyOperation::Table(o) => o.radix(),
        }
    }

    fn ask(&self, left: u8, right: u8) -> Result<u8, Refusal> {
        match self {
            AnyOperation::Minimum(o) => o.ask(left, right),
            AnyOperation::Maximum(o) => o.ask(left, right),
            AnyOperation::CyclicSum(o) => o.ask(left, right),
            AnyOperation::TruncatedSum(o) => o.ask(left, right),
            AnyOperation::Table(o) => o.ask(left, right),
        }
    }
}

impl Shortcut for AnyOperation {
    fn tell(&self, left: u8) -> Result<Option<u8>, Refusal> {
        match self {
            AnyOperation::Minimum(o) => o.tell(left),
            AnyOperation::Maximum(o) => o.tell(left),
            AnyOperation::CyclicSum(o) => o.tell(left),
            AnyOperation::TruncatedSum(o) => o.tell(left),
            AnyOperation::Table(o) => o.tell(left),
        }
    }
}
