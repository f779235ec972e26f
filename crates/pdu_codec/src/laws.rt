//! The laws of the format: nothing to call, but to cite.

ghost use Rattle.pdu_codec.specs.Laws.{FirstFaultIsTold, NoneWantMemory, ReadIsWritten, WrittenIsRead};

/// What is read is spelled so, each octet of it, and its fields are within their limits.
pub fn read_is_written()
    ensures { ReadIsWritten }
{}

/// What is spelled so, by fields within their limits, is read.
pub fn written_is_read()
    ensures { WrittenIsRead }
{}

/// The fault of a body is its first: the fields before it stand in front of it, and no content of its field does.
pub fn first_fault_is_told()
    ensures { FirstFaultIsTold }
{}

/// No octets are read as want of memory: that fault is told only by a program that had none.
pub fn no_octets_want_memory()
    ensures { NoneWantMemory }
{}
