//! Tests over the public calls of the builder and of what it stands on: figures from outside, plain tables, runs by
//! rounds in whatever order. It holds nothing else.
#![tactic(auto)]

#[cfg(test)]
mod asserts;
#[cfg(test)]
mod sweep;
