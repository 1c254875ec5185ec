//! Laws of a sender. Each is the contract of a function, so that the check keeps it and a proof above may cite it.

ghost use Rattle.mirror_sender.specs.Laws.{SentPacketsAreGood};

/// The packets of a legal history are good, so that they are read back.
pub fn sent_packets_are_good()
    ensures { SentPacketsAreGood }
{}
