//! A cluster whose calls are made again if there was no memory for them. Each of these tests passes whichever one request for memory is refused
//! in it (`tools/refuse_memory.py`).
#![tactic(auto)]

#[cfg(test)]
mod calls;
#[cfg(test)]
mod lives;
#[cfg(test)]
mod openings;
#[cfg(test)]
mod parts;
#[cfg(test)]
mod same;
