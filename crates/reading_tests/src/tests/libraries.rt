// The texts of the library, with the names of the definitions that they give: `~` and the word's.
use arithmetic_words::arithmetic_program;
use forth_program::{DefId, Program};
use pictured_output::pictured_program;
use std::alloc::{AllocError, Global};
use std::test::Fail;

const ARITHMETIC: &str =
    " ~?DUP ~2SWAP ~2OVER ~ABS ~MAX ~MIN ~2/ ~C@ ~C! ~+! ~2@ ~2! ~COUNT ~, ~C, ~ALLOT ~ALIGN ~UM* ~M* ~* ~UM/MOD ~SM/REM \
    ~FM/MOD ~/MOD ~/ ~MOD ~*/MOD ~*/ MAIN";

const PICTURED: &str =
    " ~<# ~HOLD ~SIGN ~# ~#S ~#> ~TYPE ~. ~U. ~SPACES ~FILL ~MOVE ~ACCEPT ~>NUMBER MAIN";

// The names of the definitions, each behind a blank.
fn names_told(alloc: Global, program: &Program) -> Result<String, AllocError> {
    let mut told = String::new(alloc);
    for id in 0..program.def_count() {
        told.push(' ')?;
        told.push_str(program.name(DefId(id)))?;
    }
    Ok(told)
}

#[test]
fn gives_the_arithmetic_words(rt: HostRuntime) -> Result<(), Fail> {
    let alloc = rt.alloc();
    let program = arithmetic_program(alloc)?;
    let told = names_told(alloc, &program)?;
    assert_eq!(rt; told.as_str(), ARITHMETIC);
    Ok(())
}

#[test]
fn gives_the_pictured_words(rt: HostRuntime) -> Result<(), Fail> {
    let alloc = rt.alloc();
    let program = pictured_program(alloc)?;
    let told = names_told(alloc, &program)?;
    assert_eq!(rt; told.as_str(), PICTURED);
    Ok(())
}
