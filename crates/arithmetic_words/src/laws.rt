// What the text says.
ghost use Rattle.std.specs.Prelude.{◌≡◌};
ghost use Rattle.control_flow.specs.ParseResult.{Fine};
ghost use Rattle.control_flow.specs.SourceText.{program_of_text};
ghost use Rattle.arithmetic_words.specs.Program.{arithmetic_library};

use crate::text::ARITHMETIC_TEXT;

/// By the grammar of sources the text has a definition for each word, in order, and an empty MAIN.
pub fn arithmetic_text_is_read()
    ensures { program_of_text ARITHMETIC_TEXT.now ≡ Fine arithmetic_library }
{}
