//! Laws of calls, states, images and changes. Each is the contract of a function, so that the check keeps it and a proof above may cite it.

ghost use Rattle.voice_model.specs.Laws.{StepsAreDetermined, StatesStayValid, PiecesOfEdits, EditsTakeNoBlock, ImagesReadInOneWay, ReplayGivesValidStates, ChangesAreSpelledOnce, ChangesAreLegalAgain, BaseReadsBack, ReplayKeepsPlaces, BaseHasItsSize};

/// A call and its outcome have one reply, and an entry leaves one state.
pub fn steps_are_determined()
    ensures { StepsAreDetermined }
{}

/// Legal entries keep what every state keeps, and a formatted disk has it.
pub fn states_stay_valid()
    ensures { StatesStayValid }
{}

/// The pieces of joined ropes, of a slice and of a replacement are what the pieces of their parts give.
pub fn pieces_of_edits()
    ensures { PiecesOfEdits }
{}

/// Concatenate, Substring and Replace leave the number of used blocks.
pub fn edits_take_no_block()
    ensures { EditsTakeNoBlock }
{}

/// An image opens to one state, or has its damage at one place.
pub fn images_read_in_one_way()
    ensures { ImagesReadInOneWay }
{}

/// What is rebuilt from an image is a valid state.
pub fn replay_gives_valid_states()
    ensures { ReplayGivesValidStates }
{}

/// A spelling determines its change, and reading undoes spelling.
pub fn changes_are_spelled_once()
    ensures { ChangesAreSpelledOnce }
{}

/// The change of a call is legal where the journal is read again, and does there what it did.
pub fn changes_are_legal_again()
    ensures { ChangesAreLegalAgain }
{}

/// The base of what is rebuilt reads back as it.
pub fn base_reads_back()
    ensures { BaseReadsBack }
{}

/// Replay keeps a place for each used block, and no block and no address twice.
pub fn replay_keeps_places()
    ensures { ReplayKeepsPlaces }
{}

/// The base of what is rebuilt is as long as its size says.
pub fn base_has_its_size()
    ensures { BaseHasItsSize }
{}
