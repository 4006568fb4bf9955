//! What a line of a script asks for.

use crate::kinds::{LabellingKind, OperationKind};

/// What a line of a script asks for, in its own numbers.
// A kind and a radix go side by side, here and in the session, as on the line: a type of the two would be taken apart at once.
#[derive(Drop)]
pub enum Command {
    /// Choose a labelling of a kind and a radix.
    ChooseLabelling(LabellingKind, u8),
    /// Choose an operation of a kind and a radix.
    ChooseOperation(OperationKind, u8),
    /// Fill the table operation at hand.
    Fill(Vec<u8>),
    /// Turn the operation at hand: the labels of the left operand, the right one and the answer.
    Turn(u8, u8, u8),
    /// The operation's answer for a left and a right operand.
    Ask(u8, u8),
    /// The value that every right operand gives with this left one.
    Tell(u8),
    /// All answers of the operation.
    Values,
    /// Where a label carries a value.
    Carry(u8, u8),
    /// The product of two labels.
    Product(u8, u8),
    /// The inverse of a label.
    Inverse(u8),
    /// The home label of a value.
    Home(u8),
    /// Where each label carries each value.
    Labels,
    /// A text to print.
    Say(String),
}
