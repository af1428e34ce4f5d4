// What the text says.
ghost use Rattle.std.specs.Prelude.{◌≡◌};
ghost use Rattle.control_flow.specs.ParseResult.{Fine};
ghost use Rattle.control_flow.specs.SourceText.{program_of_text};
ghost use Rattle.pictured_output.specs.Program.{pictured_library};

use crate::text::PICTURED_TEXT;

/// By the grammar of sources the text has a definition for each word, in order, and an empty MAIN.
pub fn pictured_text_is_read()
    ensures { program_of_text PICTURED_TEXT.now ≡ Fine pictured_library }
{}
