// A law of the definitions.
ghost use Rattle.memory_text.specs.Laws.{EachTellsItsMemory};

/// Line i of the text of an image is cell i of the memory that the image begins with, which has the image's code and data bytes at their
/// places; and no other memory has that text.
pub fn memory_texts_tell()
    ensures { EachTellsItsMemory }
{}
