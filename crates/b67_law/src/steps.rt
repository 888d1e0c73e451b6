//! Every step of the machine's model keeps its state in order.

ghost use Rattle.b67_law.specs.Laws.{RowsKeepOrderButPlaces, RowsKeepOrder, StepsKeepOrderButPlaces, StepsKeepOrder, PlacesHaveOperators};

/// Over any code words each operator and each intrinsic keeps all items of the order but those on
/// places and on counts.
pub fn rows_keep_order_but_places()
    ensures { RowsKeepOrderButPlaces }
{}

/// Over an admitted codefile each operator and each intrinsic keeps all items of the order but
/// those on counts.
pub fn rows_keep_order()
    ensures { RowsKeepOrder }
{}

/// Over any code words a whole step, with its endings and counts, keeps a job in order but for the
/// items on places.
pub fn steps_keep_order_but_places()
    ensures { StepsKeepOrderButPlaces }
{}

/// Over an admitted codefile a whole step, with its endings and counts, keeps a job in order.
pub fn steps_keep_order()
    ensures { StepsKeepOrder }
{}

/// Over an admitted codefile an operator stands at the place of every live task.
pub fn places_have_operators()
    ensures { PlacesHaveOperators }
{}
