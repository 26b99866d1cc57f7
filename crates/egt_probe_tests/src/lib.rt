//! Tests over the reports on positions: worked lines, whose reports come from the rules of play, plain tables, and
//! streams that end, fail or want memory. It holds nothing else.
#![tactic(auto)]

#[cfg(test)]
mod answers;
#[cfg(test)]
mod asserts;
#[cfg(test)]
mod devices;
#[cfg(test)]
mod plain;
#[cfg(test)]
mod positions;
