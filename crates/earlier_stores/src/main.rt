//! Opens stores that an earlier program wrote, goes on with them, and tells what came of their messages.
#![tactic(auto)]

mod cluster;
mod inputs;
mod lives;
mod play;
mod telling;

use lives::LIVES;
use play::live;

fn main(rt: HostRuntime) {
    for life in LIVES.split("\n\n") {
        live(&rt, life);
    }
}
