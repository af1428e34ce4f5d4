// What holds of all sessions.
ghost use Rattle.session_machine.specs.Laws.{SessionsCompose, SessionsStayEnded, SessionsGrow, PricesAdd, SessionsTakeFewSteps};
ghost use Rattle.session_machine.specs.Laws.{InsideSteps, WordsRunAsSources};

use forth_program::{prices_add, worlds_grow};

/// A session of a + b steps is one of a steps and then b more, and once it has ended it stays so.
pub fn sessions_compose()
    ensures composed { SessionsCompose }
    ensures ended { SessionsStayEnded }
{}

/// Along a session prints and definitions are only added at the end, and lines are only taken from the front.
pub fn sessions_grow()
    ensures { SessionsGrow }
{
    worlds_grow();
}

/// What was spent before a session adds to what its word steps spend.
pub fn session_prices_add()
    ensures { PricesAdd }
{}

/// Until a session ends its steps are word steps and, for each line taken, at most two more than the line has bytes.
pub fn sessions_take_few_steps()
    ensures { SessionsTakeFewSteps }
{}

/// Inside a word a session makes the word steps of a source: the word runs as its item does in the program of the definitions, for the same
/// price.
pub fn words_run_as_sources()
    ensures steps { InsideSteps }
    ensures words { WordsRunAsSources }
{
    prices_add();
}
