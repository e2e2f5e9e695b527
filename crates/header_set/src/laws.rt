//! What holds of the numbering: each function does nothing, and its contract is the law.

ghost use Rattle.header_set.specs.Laws.{FieldsAreBelowSizes, FieldsDeterminePacket, FieldsAreFree, ReplacedIsUnique};
ghost use Rattle.header_set.specs.Laws.{SmallFields, SmallMatch};

/// Each field of a packet is below the size of the field.
pub fn fields_are_below_sizes()
    ensures { FieldsAreBelowSizes }
{}

/// Packets that have equal fields are equal.
pub fn fields_determine_packet()
    ensures { FieldsDeterminePacket }
{}

/// Each choice of field values below the sizes is the fields of some packet.
pub fn fields_are_free()
    ensures { FieldsAreFree }
{}

/// No two packets are one packet with a field replaced by a value.
pub fn replaced_is_unique()
    ensures { ReplacedIsUnique }
{}

/// With two fields of two values, packet 1 has the fields 0 and 1, and of the four packets it alone
/// matches the pattern of these two values.
pub fn small_example()
    ensures fields { SmallFields }
    ensures pattern { SmallMatch }
{}
