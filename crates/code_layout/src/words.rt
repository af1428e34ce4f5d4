// Cells of words, one behind the other.
ghost use Rattle.std.specs.Prelude.{◌≡◌, ◌++◌, OnOk};
ghost use Rattle.code_layout.specs.Layout.{phrase};

use std::alloc::AllocError;
use word_table::{Word, plain_cells};

/// Adds the cells of words.
pub(crate) fn add_phrase(code: &mut Vec<u16>, words: &[Word]) -> Result<(), AllocError>
    ensures { OnOk result (code.new.items ≡ code.old.items ++ phrase words.now) }
{
    for word in words {
        code.extend_from_slice(plain_cells(*word))?;
    }
    Ok(())
}
