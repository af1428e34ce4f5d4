// What holds of all host words.
ghost use Rattle.host_state.specs.Kept.{HostWordsKeep, ImagesFit, SpacesBegin};

/// From a state with HERE in data space on, host words leave such a state: the stack holds cells, data space stays where it begins and within
/// its end, and no token is added; a created address is at most 16384, and a text ends there. The
/// image of such a state is bytes, and fits data space; data space at first is such a state.
pub fn host_words_keep()
    ensures words { HostWordsKeep }
    ensures images { ImagesFit }
    ensures first { SpacesBegin }
{}
