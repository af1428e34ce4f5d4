// What is read of a text is what it is.
ghost use Rattle.net_file.specs.Laws.{TellsNet, RefusesFirstBadLine};

/// A text is the file of the net that is read, and of no other.
pub fn tells_net()
    ensures { TellsNet }
{}

/// Every other text is refused at its first bad line, and at no other.
pub fn refuses_first_bad_line()
    ensures { RefusesFirstBadLine }
{}
