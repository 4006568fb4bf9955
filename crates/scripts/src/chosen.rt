//! The operation at hand: alone, or seen through a labelling.

ghost use Rattle.std.specs.Prelude.{◌≡◌};
ghost use Rattle.scripts.specs.Meanings.{chosen_meaning};
ghost use Rattle.scripts.specs.Needed.{below_of, alone_of, table_of};
ghost use Rattle.scripts.specs.Lawful.{chosen_closed};

use crate::any_labelling::AnyLabelling;
use crate::any_operation::AnyOperation;
use crate::reply::Missing;
use mvl::labelling::Labelling;
use mvl::refusal::Refusal;
use operations::operation::Operation;
use operations::table_operation::TableOperation;
use operations::turned::Turned;

// An enum, and no Result: neither is an error.
#[derive(Clone, Copy)]
pub enum Chosen {
    Alone(AnyOperation),
    Turned(Turned<AnyOperation, AnyLabelling>),
}

impl Chosen {
    // The operation as it is without turning.
    pub(crate) fn below(&self) -> AnyOperation
        ensures { result ≡ below_of self.now }
    {
        match self {
            Chosen::Alone(o) => *o,
            Chosen::Turned(t) => *t.below(),
        }
    }

    // The operation where it is not turned.
    pub(crate) fn alone(&self) -> Result<AnyOperation, Missing>
        ensures { result ≡ alone_of self.now }
    {
        match self {
            Chosen::Alone(o) => Ok(*o),
            Chosen::Turned(_) => Err(Missing::Unturned),
        }
    }

    // The operation where it is a table that is not turned.
    pub(crate) fn table(&self) -> Result<TableOperation, Missing>
        ensures { result ≡ table_of self.now }
    {
        match self {
            Chosen::Alone(o) => o.table(),
            Chosen::Turned(_) => Err(Missing::Table),
        }
    }
}

// Passed on by hand, as by `AnyOperation`.
impl Operation for Chosen {
    ghost meaning = { chosen_meaning };

    ghost closed = { λ o. chosen_closed o };

    fn radix(&self) -> u8 {
        match self {
            Chosen::Alone(o) => o.radix(),
            Chosen::Turned(t) => t.radix(),
        }
    }

    fn ask(&self, left: u8, right: u8) -> Result<u8, Refusal> {
        match self {
            Chosen::Alone(o) => o.ask(left, right),
            Chosen::Turned(t) => t.ask(left, right),
        }
    }
}
