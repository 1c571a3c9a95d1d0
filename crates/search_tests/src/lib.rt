//! Tests of updates and searches: places put into the tables, best first, boolean, ranked and collective queries, and what the engine
//! returns and opens.
#![tactic(auto)]

#[cfg(test)]
mod best_first_tests;
#[cfg(test)]
mod boolean_queries_tests;
#[cfg(test)]
mod collective_query_tests;
#[cfg(test)]
mod irtree_engine_tests;
#[cfg(test)]
mod opened_nodes_tests;
#[cfg(test)]
mod small_tree;
#[cfg(test)]
mod table_updates_tests;
#[cfg(test)]
mod topk_query_tests;
