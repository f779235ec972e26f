//! What comes to a node, a line each, and what it answers (`walks.rt`). Between empty lines each part is of another node, and its first
//! line says what it shows. `back` stands for all packets that the node gave out, if they come back to it: the last thing that it tells is its
//! answer. A message that is taken at the beginning of 2000, at 946684800, expires at 946944000.

/// Of a node alone.
pub const ALONE: &str = "\
a submit is taken
submit_with_receipt => Waits 1
back => Accepted 1 1000100001

a query is shown what is known
query => Waits 1
back => Unknown 1
submit_with_receipt => Waits 2
back => Accepted 2 1000100001
query => Waits 3
back => Shown 3 1

a cancel deletes its message
submit_with_receipt => Waits 1
back => Accepted 1 1000100001
cancel => Waits 2
back => Reported 1000100001 4 946684800
cancel => Waits 3
back => Removed 3

a message of which no attempt may begin is deleted
submit_with_receipt => Waits 1
back => Accepted 1 1000100001
tick 946684860 sme1 only => Nothing
cancel => Waits 2
back => Reported 1000100001 4 946684860

a submit without a route is refused
submit_nowhere => Turned 11
back => Nothing
submit_with_receipt => Waits 1
back => Accepted 1 1000100001

a request is asked of again and answered after 30 seconds
query => Waits 1
tick 946684829 => Asked
tick 946684830 => TooLate 1";

/// Of the second node of three.
pub const PACKETS: &str = "\
a node promises, votes and tells
ask 3 => ToldNothing
prepare 1 262162 => Promised
prepare 3 262161 => Refused 262162
propose 1 262161 => Refused 262162
propose 1 262162 => Voted 262162
ask 3 => Told 262162

a stranger is not heard
prepare 4 262161 => Nothing
ask 4 => Nothing

nobody waits for promises, refusals and tells
promise 1 262162 => Nothing
refused 1 262162 524305 => Nothing
tell 1 => Nothing

votes are heard and end nothing
voted 1 => Nothing
voted 2 => Nothing
voted 3 => Nothing";

/// Of the second node of three.
pub const ATTEMPTS: &str = "\
an attempt is granted once and concluded once
attempted 1 2 1 => Nothing
attempted 3 2 1 => Nothing
grant => Granted 1 1
grant => Unprepared 2 4
delivered => Started 1000100001 2 262162
delivered => Unprepared 3

an attempt that is not chosen is refused
grant => Unprepared 2 1

an attempt of another node is refused
attempted 1 1 1 => Nothing
attempted 3 1 1 => Nothing
grant => Unprepared 2 2

an attempt of another incarnation is refused
attempted 1 2 2 => Nothing
attempted 3 2 2 => Nothing
grant => Unprepared 2 3

what came of no attempt is refused
attempted 1 2 1 => Nothing
attempted 3 2 1 => Nothing
delivered => Unprepared 3";

/// Of the second node of three.
pub const TICKS: &str = "\
a message expires at its expiry
voted 1 => Nothing
voted 3 => Nothing
tick 946943999 => Nothing
tick 946944000 => Started 1000100001 1 262162

an attempt is due while its account is up
voted 1 => Nothing
voted 3 => Nothing
tick 946943999 sme2 => Nothing
tick 946943999 sme2 sme1 => Started 1000100001 1 262162

the clock never falls and each tick starts anew
voted 1 => Nothing
voted 3 => Nothing
tick 946944000 => Started 1000100001 1 262162
tick 946943999 => Started 1000100001 1 524306

its own vote is followed
propose 1 262161 => Voted 262161
tick 946943999 => Started 1000100001 0 524306

a node that heard of nothing starts nothing
tick 946944000 sme1 => Nothing

no attempt begins of a message that is not named
voted 1 => Nothing
voted 3 => Nothing
tick 946943997 sme1 only => Nothing
tick 946943997 sme1 only 1000100002 => Nothing
tick 946943998 sme1 only 1000100002 1000100001 => Started 1000100001 1 262162

a message that was held back begins once all may
voted 1 => Nothing
voted 3 => Nothing
tick 946943997 sme1 only => Nothing
tick 946943998 sme1 only => Nothing
tick 946943998 sme1 => Started 1000100001 1 262162

a message that is held back expires
voted 1 => Nothing
voted 3 => Nothing
tick 946943999 sme1 only 1000100002 => Nothing
tick 946944000 sme1 only => Started 1000100001 1 262162

a tick at the same moment looks at other accounts
voted 1 => Nothing
voted 3 => Nothing
tick 946943999 => Nothing
tick 946943999 => Nothing
tick 946943998 => Nothing
tick 946943999 sme1 => Started 1000100001 1 262162

a message that comes behind a tick is not forgotten
tick 946944000 => Nothing
voted 1 => Nothing
voted 3 => Nothing
tick 946944000 => Started 1000100001 1 262162

a message that was decided is heard again
deleted 1 0 => Nothing
deleted 3 0 => Nothing
tick 946943999 => Nothing
voted 1 => Nothing
voted 3 => Nothing
tick 946944000 sme1 => Nothing

a message that slept wakes at its expiry
voted 1 => Nothing
voted 3 => Nothing
tick 946943997 => Nothing
tick 946943998 => Nothing
tick 946943999 => Nothing
tick 946944000 => Started 1000100001 1 262162

a message that slept wakes as its account comes up
voted 1 => Nothing
voted 3 => Nothing
tick 946943997 => Nothing
tick 946943998 sme2 => Nothing
tick 946943998 sme2 => Nothing
tick 946943999 sme2 sme1 => Started 1000100001 1 262162";

/// The last lines of a live message that is found among many that are decided.
pub const LIVE: &str = "\
voted 1 => Nothing
voted 3 => Nothing
tick 946943998 => Nothing
tick 946943999 => Nothing
tick 946944000 => Started 1000100001 1 262162";
