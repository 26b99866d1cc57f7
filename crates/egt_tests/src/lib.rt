//! Tests of what the program prints, over the public calls of egt_tool. It holds nothing else.
#![tactic(auto)]

#[cfg(test)]
mod asserts;
#[cfg(test)]
mod tool;
