//! What the answers are worth.
ghost use Rattle.command_answers.specs.Laws.{IsAPage, SayApart};

/// That of `status` is the plain status page of the state without its last line, that of the letters.
pub fn status_answers_are_pages()
    ensures { IsAPage }
{}

/// The answers to a restart say whether it was made, and those to other lines never say that a restart was refused.
pub fn refusals_are_told_apart()
    ensures { SayApart }
{}
