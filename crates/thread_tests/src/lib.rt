//! Tests of the nodes of a cluster in threads.
#![tactic(auto)]

#[cfg(test)]
mod all_slips;
#[cfg(test)]
mod carried;
#[cfg(test)]
mod closings;
#[cfg(test)]
mod clusters;
#[cfg(test)]
mod deliveries;
#[cfg(test)]
mod events;
#[cfg(test)]
mod gates;
#[cfg(test)]
mod held_delivery;
#[cfg(test)]
mod lives;
#[cfg(test)]
mod many_parts;
#[cfg(test)]
mod next_parts;
#[cfg(test)]
mod openings;
#[cfg(test)]
mod parts;
#[cfg(test)]
mod read_back;
#[cfg(test)]
mod same;
#[cfg(test)]
mod tables;
#[cfg(test)]
mod together;
