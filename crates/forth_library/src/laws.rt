// What the whole library is to the images with it.
ghost use Rattle.std.specs.Prelude.{◌≡◌, true};
ghost use Rattle.std.specs.List.{list_all};
ghost use Rattle.forth_program.specs.Form.{everywhere};
ghost use Rattle.library_laws.specs.Bodies.{whole_library};
ghost use Rattle.code_layout.specs.Layout.{bodies_size};
ghost use Rattle.code_layout.specs.LastCalls.{begins_well};
ghost use Rattle.code_layout.specs.Library.{IsLibrary, LibraryMeans};
ghost use Rattle.control_flow.specs.ParseResult.{Fine};
ghost use Rattle.control_flow.specs.SourceText.{program_of_text};
ghost use Rattle.forth_library.specs.Certified.{LibraryIsCertified};
ghost use Rattle.forth_library.specs.Definitions.{library_definitions, library_text};
ghost use Rattle.forth_library.specs.Linked.{LinkedImagesAgree, SourcesAreBuilt};

use code_layout::{
    chips_agree, code_is_light, images_agree, items_are_light, last_calls_are_jumps,
};
use control_flow::tests_widen;
use depth_certifier::rounds_judge;
use library_laws::definitions_do_their_meaning;

/// Each body of the library does what its word means, at no more than the price of its routine, and uses library words only if their
/// bodies stand before its own. The code of all is 814 cells.
pub fn library_means()
    ensures form { IsLibrary whole_library }
    ensures means { LibraryMeans whole_library }
    ensures begins_well { list_all (everywhere begins_well) whole_library ≡ true }
    ensures size { bodies_size whole_library ≡ 814 }
{
    definitions_do_their_meaning();
}

/// By the grammar of sources the definitions of both texts, read as one text, are the bodies of the whole library.
pub fn library_text_is_read()
    ensures { program_of_text library_text ≡ Fine library_definitions }
{}

/// The library has a certificate: by the least one each definition, with its call, takes no more data and return cells than the table
/// gives its word, and changes their number as its word.
pub fn library_is_certified()
    ensures { LibraryIsCertified }
{
    rounds_judge();
}

/// Each program of a text, a source or a kernel, can be laid out with the whole library.
pub fn sources_are_built()
    ensures { SourcesAreBuilt }
{
    tests_widen();
    code_is_light();
    items_are_light();
    library_means();
}

/// With the whole library the images of programs do what the programs mean, on the open machine and on the chip, and their last calls
/// are jumps: for library words too, and wherever data space begins.
pub fn linked_images_agree()
    ensures { LinkedImagesAgree }
{
    library_means();
    images_agree();
    chips_agree();
    last_calls_are_jumps();
}
