//! Tests of nodes over stores on disk whose files stop at each of their calls. The crates tested have none of their own, so that they are proved once.
#![tactic(auto)]

#[cfg(test)]
mod again;
#[cfg(test)]
mod at_once;
#[cfg(test)]
mod end;
#[cfg(test)]
mod files;
#[cfg(test)]
mod hands;
#[cfg(test)]
mod inputs;
#[cfg(test)]
mod lives;
#[cfg(test)]
mod play;
#[cfg(test)]
mod same;
#[cfg(test)]
mod scene;
#[cfg(test)]
mod stops;
#[cfg(test)]
mod sweep;
#[cfg(test)]
mod swept;
