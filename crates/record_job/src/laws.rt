//! Laws of streamed recordings. They are the contract of a function, so that the check keeps them and a proof above may cite them.

ghost use Rattle.record_job.specs.Laws.{AddLaws};

/// Whatever inputs a recording gets one after another, the blocks that it gives out and the rest are these inputs, and with the last block filled up they are whole blocks.
pub fn add_laws()
    ensures { AddLaws }
{}
