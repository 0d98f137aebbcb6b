//! What holds of the messages of tails and stripe footers, in the words of the wire format. Each law is a call that
//! does nothing.
ghost use Rattle.orc_tail.specs.Laws.{PostScriptsAreRead, TypesAreRead, StripesAreRead, StreamsAreRead, EncodingsAreRead};
ghost use Rattle.orc_tail.specs.Laws.{AreMessages, TypesAreMessages};
ghost use Rattle.orc_tail.specs.Messages.{postscript_of, stripe_of, stream_of, encoding_of};
ghost use Rattle.orc_tail.specs.Laws.{FootersAreRead, StripeFootersAreRead, TypesBreakFirst, FootersBreakFirst, StripeFootersBreakFirst};

use orc_proto::laws::{messages_are_read, packed_numbers_are_read};

/// In a message a number that isn't repeated is the last varint of its field, or 0 where there is none. A PostScript's
/// magic is the last bytes of its field, or none. Other bytes than a message are read as none of them.
pub fn the_last_number_counts()
    ensures postscripts { PostScriptsAreRead }
    ensures stripes { StripesAreRead }
    ensures streams { StreamsAreRead }
    ensures encodings { EncodingsAreRead }
    ensures only_postscripts { AreMessages postscript_of }
    ensures only_stripes { AreMessages stripe_of }
    ensures only_streams { AreMessages stream_of }
    ensures only_encodings { AreMessages encoding_of }
{
    messages_are_read();
}

/// Of a type's message the kind is the last varint of its field, or 0; the subtypes are the numbers of their fields,
/// packed or not, joined in order; and the names are the bytes of theirs, in order. Other bytes are read as no type.
pub fn types_are_read()
    ensures read { TypesAreRead }
    ensures only { TypesAreMessages }
{
    messages_are_read();
    packed_numbers_are_read();
}

/// Bytes are read as a footer exactly where they are a message whose field 3 holds its stripes, each read on its own, in order, and
/// whose field 4 holds its types. So is a stripe's footer, by field 1 for its streams and field 2 for its encodings.
pub fn footers_are_read()
    ensures footers { FootersAreRead }
    ensures stripe_footers { StripeFootersAreRead }
{
    messages_are_read();
}

/// A message that is refused has whole fields in front, and then the first of what breaks it by its offset: a field
/// that is no field, or one whose own bytes are refused, by that fault.
pub fn the_first_fault_counts()
    ensures types { TypesBreakFirst }
    ensures footers { FootersBreakFirst }
    ensures stripe_footers { StripeFootersBreakFirst }
{}
