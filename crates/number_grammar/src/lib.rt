//! The grammar of JSON numbers, [RFC 8259](https://www.rfc-editor.org/rfc/rfc8259#section-6), section 6, stated over bytes.
//!
//! `specs/Number.antt` defines which bytes are a number and what its parts are, and `specs/Cut.antt` where the parts end. The crates
//! that read numbers cite these definitions.
//!
//! [`parts_are_one`] promises that a number has only one set of parts. [`tests_are_the_grammar`] promises that the test of
//! `specs/Tests.antt` passes exactly the numbers. [`Stage`] follows a number byte by byte: [`Stage::next`] refuses a byte exactly if no
//! number continues with it.
//!
//! Tests: `text_tests/src/number_grammar_tests.rt`.
#![tactic(auto)]

mod stage;

ghost use Rattle.std.specs.Prelude.{◌≡◌, ◌↔◌, ℕ, List, IsTrue};
ghost use Rattle.number_grammar.specs.Number.{Parts, IsMadeOf, IsNumber};
ghost use Rattle.number_grammar.specs.Tests.{is_number};

pub use stage::Stage;

/// A number has only one set of parts. The call does nothing: its contract is the law.
pub fn parts_are_one()
    ensures { (bytes : List ℕ) (one other : Parts) → IsMadeOf bytes one → IsMadeOf bytes other → one ≡ other }
{}

/// The test `is_number` of `specs/Tests.antt` passes exactly the numbers. The call does nothing: its contract is the law.
pub fn tests_are_the_grammar()
    ensures { (bytes : List ℕ) → IsTrue (is_number bytes) ↔ IsNumber bytes }
{}
