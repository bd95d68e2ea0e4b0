//! Laws of what waits and what is released, over lists of turns.

ghost use Rattle.sr_hold.specs.Cases.{FalseModelsAreRefused, WorkedListsAreTold};
ghost use Rattle.sr_hold.specs.Laws.{HoldsInOneOrder, MarkNeverGoesBack};

/// Of every list of calls: what was released and what waits of a recorder is what came, in its order, each once; moments never go back;
/// and nothing waits once both recorders have ended and nothing is to be released. Where nothing came behind the mark, each moment is that
/// of its own capture, and what was released is the beginning of the merge of both captures by moment, A first at equal ones.
pub fn what_is_held_is_released<T>()
    ensures { HoldsInOneOrder T }
{}

/// No call puts the mark back.
pub fn the_mark_never_goes_back<T>()
    ensures { MarkNeverGoesBack T }
{}

/// Lists of calls worked out: one that meets the premise of the law, one with an arrival behind the mark, and one of which both recorders
/// end.
pub fn worked_lists_are_told()
    ensures { WorkedListsAreTold }
{}

/// The law excludes an arrival lost, B released before A at equal moments, an arrival released after a later one, and one handed out as that
/// of the other recorder.
pub fn false_models_are_refused()
    ensures { FalseModelsAreRefused }
{}
