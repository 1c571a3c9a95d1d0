//! The state that the pages of a store hold, for every crate that keeps or reads one. The crate is definitions and laws, and has no code.
//!
//! `specs/Stands.antt` defines which state an image holds: its journal is applied, its pages break no rule, and the place table lists the
//! places. Each word number is read through the words by number. The tables hold their entries beside pages that belong to others
//! (`TablesStand`). `TreeStands` defines what those pages hold: a well-formed tree with the rows of its words, whose entries are the
//! places, each once, with its words. An image holds at most one state.
//!
//! `specs/Updates.antt` defines what an update does to the entries of the tables. The laws prove that the state they hold
//! changes as the map of live places does, and that the pages of others stay. The tree follows in a second step: between
//! the two, the tables hold the new places and the tree those before; then both hold the new ones.
//! `specs/Ahead.antt` defines what the pages hold in the midst of a batch whose words are held ahead.
//!
//! Tests: it has no code to test; `search_tests` and `irtree_tests` test the crates that keep this state.
#![tactic(auto)]
