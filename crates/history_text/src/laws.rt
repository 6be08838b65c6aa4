//! Laws of the definitions of a line. Each is the contract of a function that does nothing.
ghost use Rattle.history_text.specs.HistoryReading.{LinesHaveOneReading, RequestsAreReadBack, AnswersAreReadBack};

/// A line says one thing at most, whatever is open: so it is read as a request or an answer just where its words are those, and has a
/// fault just where the definition says this one.
pub fn lines_have_one_reading()
    ensures { LinesHaveOneReading }
{}

/// What is written of a request, behind `>` and its ID, is read as that request, where the ID is free.
pub fn requests_are_read_back()
    ensures { RequestsAreReadBack }
{}

/// What is written of an answer, behind `<` and its ID, is read as that answer, where the open request of the ID may have it.
pub fn answers_are_read_back()
    ensures { AnswersAreReadBack }
{}
