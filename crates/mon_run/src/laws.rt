// What the status of a run says to whoever started it.
ghost use Rattle.mon_run.specs.Laws.{EndsAreReached, WordsAreNone};

/// Where words run a script and the status is 0 or 7, the script came to its end: each of its lines came to something, and
/// the text is that of its lines.
pub fn ends_are_reached()
    ensures ends { EndsAreReached }
{}

/// Where the status is 1, the words are no command, nothing was read, and the text is the usage.
pub fn words_are_none()
    ensures none { WordsAreNone }
{}
