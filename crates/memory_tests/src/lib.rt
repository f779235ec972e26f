//! Calls that are made again if there was no memory for them. Each of these tests passes whichever one request for memory is refused in it
//! (`tools/refuse_memory.py`).
#![tactic(auto)]

#[cfg(test)]
mod nodes;
#[cfg(test)]
mod octets;
#[cfg(test)]
mod permits;
#[cfg(test)]
mod same;
#[cfg(test)]
mod stores;
#[cfg(test)]
mod worlds;
