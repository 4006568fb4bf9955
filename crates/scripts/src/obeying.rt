//! A session obeys a command.

ghost use Rattle.std.specs.Prelude.{◌≡◌, None};
ghost use Rattle.scripts.specs.Needed.{labelling_at, operation_at, alone_at, table_at};
ghost use Rattle.scripts.specs.Obeys.{ChoosesLabelling, ChoosesOperation, FillsAt, TurnsAt, Obeys};

use crate::any_labelling::AnyLabelling;
use crate::any_operation::AnyOperation;
use crate::chosen::Chosen;
use crate::command::Command;
use crate::kinds::{LabellingKind, OperationKind};
use crate::reply::{Missing, Reply};
use crate::session::Session;
use crate::showing::{answers, carries};
use mvl::labelling::Labelling;
use mvl::refusal::Refusal;
use operations::operation::{Operation, Shortcut};
use operations::table_operation::TableOperation;
use operations::turned::Turned;

impl Session {
    fn labelling(&self) -> Result<AnyLabelling, Missing>
        ensures { result ≡ labelling_at self.now.labelling }
    {
        self.labelling.ok_or(Missing::Labelling)
    }

    fn operation(&self) -> Result<Chosen, Missing>
        ensures { result ≡ operation_at self.now.operation }
    {
        self.operation.ok_or(Missing::Operation)
    }

    // The operation at hand, where it is not turned.
    fn alone(&self) -> Result<AnyOperation, Missing>
        ensures { result ≡ alone_at self.now.operation }
    {
        self.operation()?.alone()
    }

    // The operation at hand, where it is a table operation that is not turned.
    fn table(&self) -> Result<TableOperation, Missing>
        ensures { result ≡ table_at self.now.operation }
    {
        self.operation()?.table()
    }

    // A function for each choice: one for both would have to be told what to make and where to put it.
    fn choose_labelling(&mut self, kind: LabellingKind, radix: u8) -> Result<(), Refusal>
        ensures { ChoosesLabelling self.old kind radix result self.new }
    {
        self.labelling = Some(AnyLabelling::new(kind, radix)?);
        Ok(())
    }

    fn choose_operation(&mut self, kind: OperationKind, radix: u8) -> Result<(), Refusal>
        ensures { ChoosesOperation self.old kind radix result self.new }
    {
        self.operation = Some(Chosen::Alone(AnyOperation::new(kind, radix)?));
        Ok(())
    }

    // `table` is the operation at hand.
    fn fill(&mut self, mut table: TableOperation, bytes: &[u8]) -> Result<(), Refusal>
        ensures { FillsAt self.old table bytes.now result self.new }
    {
        table.fill(bytes)?;
        self.operation = Some(Chosen::Alone(AnyOperation::Table(table)));
        Ok(())
    }

    // `below` is the operation at hand without turning.
    fn turn(
        &mut self,
        below: AnyOperation,
        labelling: AnyLabelling,
        left: u8,
        right: u8,
        answer: u8,
    ) -> Result<(), Refusal>
        ensures { TurnsAt self.old below labelling left right answer result self.new }
    {
        let mut turned = Turned::new(below, labelling);
        turned.set(left, right, answer)?;
        self.operation = Some(Chosen::Turned(turned));
        Ok(())
    }

    // What the session answers to a command, and does for it; what the command lacks where it cannot be obeyed. A refusal changes nothing.
    pub(crate) fn obey(&mut self, command: &Command) -> Result<Reply, Missing>
        ensures { Obeys self.old command.now result self.new }
    {
        match command {
            Command::ChooseLabelling(kind, radix) => Ok(Reply::Done(self.choose_labelling(
                *kind, *radix,
            ))),
            Command::ChooseOperation(kind, radix) => Ok(Reply::Done(self.choose_operation(
                *kind, *radix,
            ))),
            Command::Fill(bytes) => {
                let table = self.table()?;
                Ok(Reply::Done(self.fill(table, bytes.as_slice())))
            }
            Command::Turn(left, right, answer) => {
                let below = self.operation()?.below();
                let labelling = self.labelling()?;
                Ok(Reply::Done(self.turn(below, labelling, *left, *right, *answer)))
            }
            Command::Ask(left, right) => Ok(Reply::Answer(self.operation()?.ask(*left, *right))),
            Command::Tell(left) => Ok(Reply::Told(self.alone()?.tell(*left))),
            Command::Values => Ok(Reply::Shown(answers(&self.operation()?))),
            Command::Carry(label, value) => Ok(Reply::Answer(
                self.labelling()?.carry(*label, *value),
            )),
            Command::Product(a, b) => Ok(Reply::Answer(self.labelling()?.product(*a, *b))),
            Command::Inverse(label) => Ok(Reply::Answer(self.labelling()?.inverse(*label))),
            Command::Home(value) => Ok(Reply::Answer(self.labelling()?.home_label(*value))),
            Command::Labels => Ok(Reply::Shown(carries(&self.labelling()?))),
            Command::Say(_) => Ok(Reply::Said),
        }
    }
}
