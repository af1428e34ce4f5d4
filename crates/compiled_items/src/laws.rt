// The cells that the kernel lays.
ghost use Rattle.compiled_items.specs.Agreement.{CellsAgree, DefinitionsStand};

/// The cells that the kernel lays for typed items are those whose meaning the laws of `typed_items` tell, and a definition whose cells it
/// has laid stands in memory as these laws ask for it.
pub fn compiled_cells_are_typed_cells()
    ensures cells { CellsAgree }
    ensures stand { DefinitionsStand }
{}
