//! Worked scripts over three nodes, as lines of what comes to a node and what it tells.

/// Between empty lines each is one of the worked scripts, and begins with its name and the nodes; then comes what a line of the script does at a node, without
/// sessions: the word of an input, its node and the rest, or `settle`, or `restart` and the node. Behind an arrow stand a node and what it answers. Without one
/// nothing is told, whatever packets are sent.
pub const OF_THREE_NODES: &str = "\
delivered_and_queried_elsewhere
nodes 3
tick 1 1706659200
tick 2 1706659200
tick 3 1706659200
submit_with_receipt 1 => 1 Waits 1
settle => 1 Accepted 1 1000100001
tick 1 1706659200 sme1 => 1 Started 1000100001 1 262161
settle
grant 1 => 1 Granted 1 1
delivered 1
settle => 1 Reported 1000100001 2 1706659200
query 3 => 3 Waits 1
settle => 3 Shown 1 2 1706659200

cancel_of_a_taken_message
nodes 3
tick 1 1706659200
tick 2 1706659200
tick 3 1706659200
submit 1 => 1 Waits 1
settle => 1 Accepted 1 1000100001
cancel 1 => 1 Waits 2
settle => 1 Removed 2
cancel 1 => 1 Waits 3
settle => 1 Removed 3

cancel_of_a_delivered_message
nodes 3
tick 1 1706659200
tick 2 1706659200
tick 3 1706659200
submit 1 => 1 Waits 1
settle => 1 Accepted 1 1000100001
tick 1 1706659200 sme1 => 1 Started 1000100001 1 262161
settle
grant 1 => 1 Granted 1 1
delivered 1
settle
cancel 1 => 1 Waits 2
settle => 1 Kept 2

restart_with_an_open_attempt
nodes 3
tick 1 1706659200
tick 2 1706659200
tick 3 1706659200
submit 1 => 1 Waits 1
settle => 1 Accepted 1 1000100001
tick 1 1706659200 sme1 => 1 Started 1000100001 1 262161
settle
restart 1
tick 1 1706659200
settle
grant 1 => 1 Unprepared 2 3
tick 1 1706659200
settle
tick 1 1706659259 sme1
tick 1 1706659260 sme1
settle
grant 1 => 1 Granted 3 2";
