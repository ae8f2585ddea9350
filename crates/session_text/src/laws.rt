//! The laws of session texts, each as the contract of a function that does nothing.

ghost use Rattle.session_text.specs.Growing.{PlacesFound};
ghost use Rattle.session_text.specs.Requests.{RequestsReadBack};
ghost use Rattle.session_text.specs.Laws.{FirstFaultsTold, TextsReadBack};

/// Bytes are read as sessions exactly where they spell them.
pub fn texts_read_back()
    ensures { TextsReadBack }
{}

/// Where a text is refused, the lines before the one that is told are a text, and that line may not
/// stand behind them.
pub fn first_faults_told()
    ensures { FirstFaultsTold }
{}

/// A label without a place is a new one, and at its place stands a session with this label.
pub fn places_found()
    ensures { PlacesFound }
{}

/// Bytes are read as a request exactly where they spell it.
pub fn requests_read_back()
    ensures { RequestsReadBack }
{}
