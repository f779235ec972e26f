//! Tests of the program, from outside: long scripts, clusters, arguments, exit statuses, readers and writers that fail.
#![tactic(auto)]

#[cfg(test)]
mod clusters;
#[cfg(test)]
mod ends;
#[cfg(test)]
mod places;
#[cfg(test)]
mod program;
#[cfg(test)]
mod ran;
#[cfg(test)]
mod same;
#[cfg(test)]
mod scripts;
#[cfg(test)]
mod turns;
