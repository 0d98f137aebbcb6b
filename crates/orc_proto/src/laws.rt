//! What holds of the definitions that the contracts name. Each law is a call that does nothing.

ghost use Rattle.orc_proto.specs.OneVarint.{IsOneVarint};
ghost use Rattle.orc_proto.specs.Laws.{MessagesAreRead, ReadIsMessage, EachMessageEndsOrBreaks, PackedAreRead, ReadIsPacked, EachPackedEndsOrBreaks, VarintsAreRead, OpenBytesAreTruncated, TenOpenBytesAreLong, ShortestSpells, ShortestIsShortest};

/// A message is read as exactly its fields; what is read without a fault is a message with these fields;
/// and bytes that are no message give the fields in front of the first fault, and then that fault with the
/// offset at which they end.
pub fn messages_are_read()
    ensures read { MessagesAreRead }
    ensures only { ReadIsMessage }
    ensures first_fault { EachMessageEndsOrBreaks }
{}

/// The same of the numbers of a packed field.
pub fn packed_numbers_are_read()
    ensures read { PackedAreRead }
    ensures only { ReadIsPacked }
    ensures first_fault { EachPackedEndsOrBreaks }
{}

/// A varint is read as its number, whatever follows it. Bytes whose top bits are all set are a varint that
/// is cut, or a long one once there are ten, also where the bytes end there. The shortest varint of a number
/// is one, and none has fewer bytes.
pub fn varints_are_read()
    ensures read { VarintsAreRead }
    ensures truncated { OpenBytesAreTruncated }
    ensures long { TenOpenBytesAreLong }
    ensures spelled { ShortestSpells }
    ensures least { ShortestIsShortest }
{}

/// A varint of a message and one of a stream of runs are the same spelling: both readers give the same number
/// and the same rest, or the same fault.
pub fn varints_are_one()
    ensures { IsOneVarint }
{}
