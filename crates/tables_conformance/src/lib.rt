//! Tests of the tables of next hops, registered routes and pending Interests, of strategies, and of
//! the content store that no scenario shows: limits, refused memory, counts of comparisons, a
//! strategy of the tests' own, and random calls.
#![tactic(auto)]

#[cfg(test)]
mod cache;
#[cfg(test)]
mod pending;
#[cfg(test)]
mod refused_memory;
#[cfg(test)]
mod registered_routes;
#[cfg(test)]
mod route_limits;
#[cfg(test)]
mod route_table;
#[cfg(test)]
mod strategy_choices;
