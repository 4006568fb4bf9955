//! Values, and the labels that act on them: what a labelling means, the laws that it keeps, the labellings that are supplied, a chart of
//! any labelling's answers, and the refusals of all calls.
//!
//! A function `.._stands` stands for a theorem: its contract is the statement, which `specs/Theorems.antt` has, and a check asks for its proof.

#![tactic(auto)]

mod bounds;
pub mod chart;
pub mod charts;
pub mod complement;
pub mod cyclic;
pub mod labelling;
pub mod plain;
pub mod radix;
pub mod refusal;
mod rows;

ghost use Rattle.mvl.specs.Theorems.{PlainLawful, ComplementLawful, CyclicLawful, ComplementEven};

/// The plain labelling keeps the laws at every radix from 2 to 4.
pub fn plain_lawful_stands()
    ensures { PlainLawful }
{}

/// The complement labelling keeps the laws at radix 2 and at radix 4.
pub fn complement_lawful_stands()
    ensures { ComplementLawful }
{}

/// The cyclic labelling keeps the laws at every radix from 2 to 4.
pub fn cyclic_lawful_stands()
    ensures { CyclicLawful }
{}

/// The complement labelling keeps them at no odd radix: at 3 it breaks one.
pub fn complement_even_stands()
    ensures { ComplementEven }
{}
