//! Laws of packets. Each is the contract of a function, so that the check keeps it and a proof above may cite it.

ghost use Rattle.mirror_packets.specs.Laws.{PacketsReadBack, ReadingIsSpelled, PlacesAreFirst};

/// The spelling of good packets is read back as them.
pub fn packets_read_back()
    ensures { PacketsReadBack }
{}

/// Bytes that are read are the spelling of what was read, which is good.
pub fn reading_is_spelled()
    ensures { ReadingIsSpelled }
{}

/// A bad place is where the first packet begins that is not good.
pub fn places_are_first()
    ensures { PlacesAreFirst }
{}
