//! Reduced ordered multiple-valued decision diagrams with labelled edges: the theory.
//!
//! There is nothing to run here. Each function stands for a theorem: its contract is the statement, which `specs/Theorems.antt` has, and a
//! check asks for its proof.

#![tactic(auto)]

ghost use Rattle.diagrams.specs.Theorems.{Canonical, Least, BuildGains, GainsCount, ExchangeExists, ExchangeKeepsRules, ExchangeKeepsFunctions, ExchangeCount, ExchangeAgain, RefusalSmallest, Grants, Performs, Plays, ExchangeAgainGranted, RunsKeep, RunsGoOn, ExamplesHold};

/// In a reduced table, edges of equal functions are one edge.
pub fn canonical_stands()
    ensures { Canonical }
{}

/// No diagram of a function in the same order and with the same labels has fewer nodes than the reduced one.
pub fn least_stands()
    ensures { Least }
{}

/// Every function of the variables with values below the radix has a diagram in an extension of every reduced table.
pub fn build_gains_stands()
    ensures { BuildGains }
{}

/// However a diagram is gained, the number of nodes added is the number that the table lacked.
pub fn gains_count_stands()
    ensures { GainsCount }
{}

/// Two neighbouring variables can be exchanged.
pub fn exchange_exists_stands()
    ensures { ExchangeExists }
{}

/// An exchange keeps the rules, in the new order.
pub fn exchange_keeps_rules_stands()
    ensures { ExchangeKeepsRules }
{}

/// An exchange keeps every edge and its function.
pub fn exchange_keeps_functions_stands()
    ensures { ExchangeKeepsFunctions }
{}

/// However an exchange is done, the number of nodes added is the number that was missing.
pub fn exchange_count_stands()
    ensures { ExchangeCount }
{}

/// A second exchange of the same two variables adds no node.
pub fn exchange_again_stands()
    ensures { ExchangeAgain }
{}

/// A call is refused with the smallest among the numbers of all refusals that apply, each told by a rule of its own, and granted where none does.
pub fn refusal_smallest_stands()
    ensures { RefusalSmallest }
{}

/// A call is granted exactly where what was handed in is in range and there is room.
pub fn grants_stands()
    ensures { Grants }
{}

/// Every call has its step, the one that is computed, if the operation that it hands in answers below its radix.
pub fn performs_stands()
    ensures { Performs }
{}

/// Every list of such calls on an empty table has its run.
pub fn plays_stands()
    ensures { Plays }
{}

/// An exchange that was done is granted once more at the same place, however full the table is: it adds no node and brings every variable back to
/// its old place.
pub fn exchange_again_granted_stands()
    ensures { ExchangeAgainGranted }
{}

/// The law over runs: whatever was called on an empty table, the table keeps the rules within its capacity, and its variables their sizes.
/// Every edge answered is still one and has its function, equal functions have one edge, and no diagram of the function in the present order is smaller.
pub fn runs_keep_stands()
    ensures { RunsKeep }
{}

/// The same from any table that keeps the rules, and every edge that it had is kept with its function.
pub fn runs_go_on_stands()
    ensures { RunsGoOn }
{}

/// The worked examples hold, each by computation, and the law over runs speaks of the table that they lead to.
pub fn examples_stands()
    ensures { ExamplesHold }
{}
