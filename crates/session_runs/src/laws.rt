// Runs that answer sessions.
ghost use Rattle.session_runs.specs.Laws.{FollowersAnswerForward, FollowersAnswerBackward, TextsAnswerForward, TextsAnswerBackward};
ghost use Rattle.session_runs.specs.Laws.{KernelsAnswerSessions, FewStepsAreEnough};
ghost use Rattle.session_runs.specs.Splicing.{ChipRunsAreSpliced, OpenRunsAreSpliced};
ghost use Rattle.session_runs.specs.Parts.{QuietPartsGoFirst, ReturnsGoOn, TextsOnlyPrintMore, TextsStayEnded, OneMoreComesBack};
ghost use Rattle.session_runs.specs.Parts.{LedOutToOnePlace};
ghost use Rattle.session_runs.specs.Along.{TextsBegin, QuietStepsGoAlong, CallsGoAlong, LastCallsFollow, InputEndsFollow};
ghost use Rattle.session_runs.specs.WayOut.{TextsAreLedOut};

use forth_program::{prices_add, worlds_grow};
use j1_simulator::runs_only_grow;
use session_machine::{sessions_compose, sessions_grow, sessions_take_few_steps};

/// An image whose run on the chip follows a session, step by step and within the stated costs, answers it: what the session prints the
/// chip prints, and the other way round, both within the stated bounds, and both end alike.
pub fn followers_answer()
    ensures forward { FollowersAnswerForward }
    ensures backward { FollowersAnswerBackward }
{
    runs_only_grow();
    sessions_compose();
}

/// The run of an image is its run that goes on behind each `GO`, with the instructions of the called code put in at each `GO`, as long as
/// that code comes back as the run that goes on says: on the chip, and on the open machine.
pub fn runs_are_spliced()
    ensures round { ChipRunsAreSpliced }
    ensures open { OpenRunsAreSpliced }
{}

/// An image of a text with `GO` answers a session on the chip, within the stated bounds, where the word steps of the text follow the
/// session up to each `GO` and behind those that come back, and the code that it calls follows the words of the session.
pub fn texts_answer()
    ensures forward { TextsAnswerForward }
    ensures backward { TextsAnswerBackward }
    ensures sessions { KernelsAnswerSessions }
{
    runs_only_grow();
}

/// A run of a text that goes on behind `GO` is made of its parts: word steps that lead nowhere out, and each return with what follows it,
/// at the same price. It only prints more, and stays where it has ended or where nothing comes back.
pub fn texts_go_on_in_parts()
    ensures quiet { QuietPartsGoFirst }
    ensures returned { ReturnsGoOn }
    ensures prints { TextsOnlyPrintMore }
    ensures ended { TextsStayEnded }
{
    worlds_grow();
}

/// On the chip calls come back one by one: where those so far do, and the code to which `GO` leads out behind them does, there is one call
/// more. They lead out to one place.
pub fn calls_come_back_in_turn()
    ensures more { OneMoreComesBack }
    ensures place { LedOutToOnePlace }
{}

/// A text comes to follow a session step by step. It goes along from the session's start, by word steps that lead nowhere out, and by calls
/// that come back; and then it follows the session in words where a call never comes back, and where the input ends.
pub fn texts_go_along()
    ensures begins { TextsBegin }
    ensures quiet { QuietStepsGoAlong }
    ensures calls { CallsGoAlong }
    ensures last { LastCallsFollow }
    ensures input { InputEndsFollow }
{
    prices_add();
    worlds_grow();
    runs_only_grow();
    sessions_compose();
    sessions_grow();
}

/// As many steps as a session makes with at most n word steps are fewer than are enough for n instructions.
pub fn few_steps_are_enough()
    ensures { FewStepsAreEnough }
{
    sessions_take_few_steps();
}

/// Where the text comes to `GO` behind all calls, `GO` leads the chip out within the price, if the image agrees with the text also with one
/// return more, which prints a byte.
pub fn texts_are_led_out()
    ensures { TextsAreLedOut }
{
    prices_add();
    worlds_grow();
}
