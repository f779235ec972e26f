//! Worked rows over nodes with stores on disk, in the form of those over three nodes (`lines_of_tests`), with `deliver`, `replay` and `crash` besides, as in a
//! script. Some are stories of their own.

// Of a node alone.
pub const OF_ONE_NODE: &str = "\
submit_and_query
nodes 1
submit_with_receipt 1 => 1 Waits 1
settle => 1 Accepted 1 1000100001
query 1 => 1 Waits 2
settle => 1 Shown 2 1

queries_and_cancels_that_do_not_match
nodes 1
submit_with_receipt 1 => 1 Waits 1
settle => 1 Accepted 1 1000100001
query_from_another 1 => 1 Waits 2
settle => 1 NotOwner 2
query_of_another 1 => 1 Waits 3
settle => 1 Unknown 3
cancel_of_no_id 1 => 1 Turned 17

registered_delivery_of_3
nodes 1
tick 1 1706659200
submit_with_receipt_of_no_kind 1 => 1 Turned 7

final_date_of_a_deleted
nodes 1
submit 1 => 1 Waits 1
settle => 1 Accepted 1 1000100001
cancel 1 => 1 Waits 2
settle => 1 Removed 2
cancel 1 => 1 Waits 3
settle => 1 Removed 3
query 1 => 1 Waits 4
settle => 1 Shown 4 4 946684800

final_date_of_an_expired
nodes 1
submit 1 => 1 Waits 1
settle => 1 Accepted 1 1000100001
tick 1 946944000 sme1
settle
query 1 => 1 Waits 2
settle => 1 Shown 2 3 946944000

valid_for_no_time
nodes 1
tick 1 1706659200
submit_for_no_time 1 => 1 Turned 98

valid_for_one_minute
nodes 1
tick 1 1706659200
submit_for_a_minute 1 => 1 Waits 1
settle => 1 Accepted 1 1000100001
tick 1 1706659260 sme1
settle
query 1 => 1 Waits 2
settle => 1 Shown 2 3 1706659260

last_serial_and_restart
nodes 1 99999
submit 1 => 1 Waits 1
settle => 1 Accepted 1 1000199999
submit 1 => 1 Turned 20
restart 1
submit 1 => 1 Waits 1
settle => 1 Accepted 1 1000299999

granted_before_the_attempt
nodes 1
tick 1 1706659200
submit_with_receipt 1 => 1 Waits 1
settle => 1 Accepted 1 1000100001
grant 1 => 1 Unprepared 2 1

granted_twice
nodes 1
tick 1 1706659200
submit_with_receipt 1 => 1 Waits 1
settle => 1 Accepted 1 1000100001
tick 1 1706659200 sme1
settle
grant 1 => 1 Granted 1 1
grant 1 => 1 Unprepared 2 4

delivered_with_a_receipt
nodes 1
tick 1 1706659200
submit_with_receipt 1 => 1 Waits 1
settle => 1 Accepted 1 1000100001
tick 1 1706659200 sme1
settle
grant 1 => 1 Granted 1 1
delivered 1
settle => 1 Reported 1000100001 2 1706659200

receipt_on_failure_only_delivered
nodes 1
tick 1 1706659200
submit_with_receipt_of_failure 1 => 1 Waits 1
settle => 1 Accepted 1 1000100001
tick 1 1706659200 sme1
settle
grant 1 => 1 Granted 1 1
delivered 1
settle

receipt_on_failure_only_expired
nodes 1
tick 1 1706659200
submit_with_receipt_of_failure 1 => 1 Waits 1
settle => 1 Accepted 1 1000100001
tick 1 1706918400 sme1
settle => 1 Reported 1000100001 3 1706918400

rejected_by_the_esme
nodes 1
tick 1 1706659200
submit_with_receipt 1 => 1 Waits 1
settle => 1 Accepted 1 1000100001
tick 1 1706659200 sme1
settle
grant 1 => 1 Granted 1 1
rejected 1
settle => 1 Reported 1000100001 8 1706659200 102

eight_failed_attempts
nodes 1
tick 1 1706659200
submit_with_receipt 1 => 1 Waits 1
settle => 1 Accepted 1 1000100001
tick 1 1706659200 sme1
settle
grant 1 => 1 Granted 1 1
failed 1 1
settle
tick 1 1706659259 sme1
settle
grant 1 => 1 Unprepared 2 1
tick 1 1706659260 sme1
settle
grant 1 => 1 Granted 3 2
failed 1 2
settle
tick 1 1706659379 sme1
settle
grant 1 => 1 Unprepared 2 1
tick 1 1706659380 sme1
settle
grant 1 => 1 Granted 5 3
failed 1 3
settle
tick 1 1706659559 sme1
settle
grant 1 => 1 Unprepared 2 1
tick 1 1706659560 sme1
settle
grant 1 => 1 Granted 7 4
failed 1 4
settle
tick 1 1706659799 sme1
settle
grant 1 => 1 Unprepared 2 1
tick 1 1706659800 sme1
settle
grant 1 => 1 Granted 9 5
failed 1 5
settle
tick 1 1706660099 sme1
settle
grant 1 => 1 Unprepared 2 1
tick 1 1706660100 sme1
settle
grant 1 => 1 Granted 11 6
failed 1 6
settle
tick 1 1706660459 sme1
settle
grant 1 => 1 Unprepared 2 1
tick 1 1706660460 sme1
settle
grant 1 => 1 Granted 13 7
failed 1 7
settle
tick 1 1706660879 sme1
settle
grant 1 => 1 Unprepared 2 1
tick 1 1706660880 sme1
settle
grant 1 => 1 Granted 15 8
failed 1 8
settle
tick 1 1706660880 sme1
settle => 1 Reported 1000100001 5 1706660880 100";

// Of several nodes. The last two are no worked scripts.
pub const OF_A_CLUSTER: &str = "\
cancel_after_grant_on_another_node
nodes 3
tick 1 1706659200
tick 2 1706659200
tick 3 1706659200
submit 1 => 1 Waits 1
settle => 1 Accepted 1 1000100001
tick 1 1706659200 sme1 => 1 Started 1000100001 1 262161
settle
grant 1 => 1 Granted 1 1
cancel 2 => 2 Waits 1
settle => 2 Kept 1
failed 1
settle
cancel 2 => 2 Waits 2
settle => 2 Removed 2
grant 1 => 1 Unprepared 2 1
grant 2 => 2 Unprepared 2 1

replayed_packets
nodes 3
tick 1 1706659200
tick 2 1706659200
tick 3 1706659200
submit_with_receipt 1 => 1 Waits 1
settle => 1 Accepted 1 1000100001
tick 1 1706659200 sme1 => 1 Started 1000100001 1 262161
settle
grant 1 => 1 Granted 1 1
delivered 1
settle => 1 Reported 1000100001 2 1706659200
query 3 => 3 Waits 1
settle => 3 Shown 1 2 1706659200
replay 3
query 3 => 3 Waits 2
settle => 3 Shown 2 2 1706659200

deleted_passes_an_attempt
nodes 3
tick 1 1706659200
tick 2 1706659200
tick 3 1706659200
submit 1 => 1 Waits 1
settle => 1 Accepted 1 1000100001
tick 1 1706659200 sme1 => 1 Started 1000100001 1 262161
cancel 2 => 2 Waits 1
deliver 10 2
deliver 10 3
deliver 11 2
deliver 12 2
deliver 9 1
deliver 9 3
deliver 13 2
deliver 13 3
settle => 2 Removed 1
grant 1 => 1 Unprepared 2 1

query_waits_29_seconds
nodes 3
tick 1 1706659200
tick 2 1706659200
tick 3 1706659200
submit 1 => 1 Waits 1
settle 1 2 => 1 Accepted 1 1000100001
tick 1 1706659200 sme1 => 1 Started 1000100001 1 262161
settle 1 2
grant 1 => 1 Granted 1 1
delivered 1
settle 1 2
query 3 => 3 Waits 1
settle 3
tick 3 1706659229 sme1

query_waits_for_a_majority
nodes 3
tick 1 1706659200
tick 2 1706659200
tick 3 1706659200
submit 1 => 1 Waits 1
settle 1 2 => 1 Accepted 1 1000100001
tick 1 1706659200 sme1 => 1 Started 1000100001 1 262161
settle 1 2
grant 1 => 1 Granted 1 1
delivered 1
settle 1 2
query 3 => 3 Waits 1
settle 3
tick 3 1706659229 sme1
tick 3 1706659230 sme1 => 3 TooLate 1
query 3 => 3 Waits 2
settle => 3 Shown 2 2 1706659200

crash_before_the_save
nodes 3
submit 1 => 1 Waits 1
deliver 1 1
deliver 1 2
deliver 2 1
deliver 3 1
crash 2 4 before
deliver 4 2 => 2 Down
restart 2
settle 1 3 => 1 Accepted 1 1000100001
query 2 => 2 Waits 1
settle => 2 Shown 1 1

crash_after_the_save
nodes 3
submit 1 => 1 Waits 1
deliver 1 1
deliver 1 2
deliver 2 1
deliver 3 1
crash 2 4 after
deliver 4 2 => 2 Down
restart 2
settle 1 3 => 1 Accepted 1 1000100001
query 2 => 2 Waits 1
settle => 2 Shown 1 1

two_of_four_are_no_majority
nodes 4
submit 1 => 1 Waits 1
deliver 1 1
deliver 1 2
deliver 1 3
deliver 2 1
deliver 3 1
deliver 4 1
deliver 5 1
deliver 5 2
deliver 6 1
deliver 7 1

three_of_four_are_a_majority
nodes 4
submit 1 => 1 Waits 1
deliver 1 1
deliver 1 2
deliver 1 3
deliver 2 1
deliver 3 1
deliver 4 1
deliver 5 1
deliver 5 2
deliver 6 1
deliver 7 1
deliver 5 3
deliver 8 1 => 1 Accepted 1 1000100001

kept_at_a_cancel_elsewhere
nodes 3
submit_with_receipt 1 => 1 Waits 1
settle => 1 Accepted 1 1000100001
tick 1 946684800 sme1 => 1 Started 1000100001 1 262161
settle
grant 1 => 1 Granted 1 1
delivered 1 => 1 Started 1000100001 2 262161
settle => 1 Reported 1000100001 2 946684800
query 3 => 3 Waits 1
settle => 3 Shown 1 2 946684800
cancel 2 => 2 Waits 1
settle => 2 Kept 1

cancelled_elsewhere
nodes 3
submit 1 => 1 Waits 1
settle => 1 Accepted 1 1000100001
cancel 2 => 2 Waits 1
settle => 2 Removed 1
tick 1 946684800 sme1 => 1 Nothing
grant 1 => 1 Unprepared 2 1
query 3 => 3 Waits 1
settle => 3 Shown 1 4 946684800";
