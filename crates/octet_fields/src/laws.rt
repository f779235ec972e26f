//! Laws of fields, each the contract of a function that does nothing. `E` is a format's own word for what may be wrong.

ghost use Rattle.octet_fields.specs.Laws.{ReadIsSpelled, SpelledIsRead, WholeIsRead, FirstFaultIsTold};

/// What is read is spelled so, each octet of it, and within its limits.
pub fn read_is_spelled<E>()
    ensures { ReadIsSpelled E }
{}

/// What is within its limits and spelled so is read, whatever stands after it.
pub fn spelled_is_read<E>()
    ensures { SpelledIsRead E }
{}

/// What is within its limits and spelled so is read to the last octet, also if the last field goes on to the end.
pub fn whole_is_read<E>()
    ensures { WholeIsRead E }
{}

/// The fault that is told is the first: in front of it stand the fields before, and no content of its field.
pub fn first_fault_is_told<E>()
    ensures { FirstFaultIsTold E }
{}
