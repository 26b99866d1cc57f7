//! Tests over the public calls of the rules, of games, tables, their files and the checker. It holds nothing else.
#![tactic(auto)]

#[cfg(test)]
mod asserts;
#[cfg(test)]
mod check;
#[cfg(test)]
mod graph;
#[cfg(test)]
mod plain;
#[cfg(test)]
mod rules;
#[cfg(test)]
mod table;
