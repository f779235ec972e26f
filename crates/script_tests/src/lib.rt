//! Tests of the program over the worked scripts and the examples: what is written of each, in pieces and over nine nodes, too.
#![tactic(auto)]

#[cfg(test)]
mod pieces;
#[cfg(test)]
mod rows;
#[cfg(test)]
mod same;
#[cfg(test)]
mod worked;
#[cfg(test)]
mod written;
