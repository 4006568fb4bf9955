//! The text that explains the program and every line of a script.

/// What `jakuvyre --help` prints.
pub const USAGE: &str =
    "jakuvyre plays a script that asks labellings and operations of multiple-valued logic, and lists the answers.

    jakuvyre FILE      play the script in FILE
    jakuvyre           play the script on standard input
    jakuvyre --help    print this text

A radix P is 2, 3 or 4, and the values are 0 to P - 1. A labelling has labels, numbered from 0, each of which carries
every value to a value. An operation has an answer for every pair of values.

A script has one command to a line. Blank lines and lines that begin with # are passed over. Numbers are 0 to 255.

    labelling KIND P   choose a labelling of radix P:
                         plain        label 0 alone, which changes nothing
                         complement   labels 0 and 1; label 1 carries V to P - 1 - V (P is 2 or 4)
                         cyclic       labels 0 to P - 1; label K adds K, modulo P
    operation KIND P   choose an operation of radix P:
                         min, max        the smaller, the larger of the two operands
                         cyclic-sum      the sum modulo P
                         truncated-sum   the sum, or P - 1 where that is smaller
                         table           0 for every pair until it is filled
    fill B B ..        fill the table at hand, row by row: byte P * A + B is the answer for (A, B)
    turn I J K         see the operation at hand through the labelling at hand: label I carries the left operand,
                       J the right one, K the answer; an operation that is turned already is turned anew, and
                       turn 0 0 0 leaves its answers as they were before it was turned

    ask A B            the operation's answer for left operand A and right operand B
    tell A             the value that every right operand gives with left operand A, or none where they differ
                       (not for a turned operation)
    values             all answers: a row for each left operand, a column for each right one

    carry K V          the value to which label K carries V
    product A B        the label that does what label B first and label A second do
    inverse A          the label that carries back what label A carried
    home V             the home label of V: it carries the home of V to V, the least value from which some label does
    labels             where all labels carry all values: a row for each label, a column for each value

    say TEXT           print TEXT

A request that a labelling or an operation refuses is listed with the number of the refusal and its reason, changes
nothing, and the script goes on:

    1  it does not serve this radix                 6  there is no such label
    5  a value or byte is too large for its use     7  a length is wrong
                                                    8  the radices differ

A line that makes no sense, as one with an unknown word, stops the program: it names the line and what it expected
there, lists nothing, and ends with status 1.
";
