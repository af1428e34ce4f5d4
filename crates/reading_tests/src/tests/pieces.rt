// Sources that come in pieces, with answers from the rules of the language, by hand.
use control_flow::{Reading, SourceError};
use forth_program::Program;
use std::alloc::{AllocError, Global};
use std::test::Fail;
use test_notation::{bytes_in, field};

// Pieces in their order, each with `kept` or the refused token and its cause; and of the program at the end the number of definitions, of
// source tokens and of execution tokens, the data start, and the number of bytes of the first data space, or why there is none.
const PIECES: &str = r#"
| 1 NoMain
: A ; = kept | 4 NoMain
: A 65 EMIT ; = kept & : B A NOPE ; = 9 UnknownWord & : MAIN A ; = kept | 2 9 0 8192 128
: A [ HERE 7 , ] LITERAL ; = kept & : B ['] A DROP [ 8 , HEX ] ; : C NOPE = 23 UnknownWord & : MAIN B ; = 12 UnknownWord & : MAIN 10 A ; = kept | 2 14 0 8192 130
: MAIN 65 EMIT ; \ greets = kept & ( more ) \ = kept | 1 8 0 8192 128
: MAIN ; = kept & ( abc = 4 OpenComment & \ abc = kept | 1 4 0 8192 128
: MAIN 1 = 4 OpenDefinition & ; = 1 OnlyInDefinition & : MAIN ; = kept | 1 3 0 8192 128
: MAIN ." a = 3 OpenString & : MAIN ." a" ; = kept | 1 4 0 8192 129
5 CONSTANT X = kept & 7 CONSTANT X : Y CREATE , DOES> @ ; 9 Y Z NOPE = 17 UnknownWord & : MAIN Z ; = 6 UnknownWord & : MAIN X ; = kept | 1 7 0 8192 128
' DUP CONSTANT D = kept & ' SWAP NOPE = 7 UnknownWord & : MAIN D EXECUTE ; = kept | 1 9 1 8192 128
3000 = kept & 1 NOPE = 3 UnknownWord & CODE-CELLS = kept & : MAIN ; = kept | 1 5 0 6000 128
1 2 = kept & DROP DROP DROP = 5 HostUnderflow & + CONSTANT THREE = kept & : MAIN THREE ; = kept | 1 9 0 8192 128
"#;

fn error_told(alloc: Global, error: SourceError) -> Result<String, AllocError> {
    match error {
        SourceError::Refused(refusal) => {
            format!(in alloc; "{} {:?}", refusal.token, refusal.cause)
        }
        _ => format!(in alloc; "no memory"),
    }
}

fn program_told(alloc: Global, answer: Result<Program, SourceError>) -> Result<String, AllocError> {
    match answer {
        Ok(program) => format!(in alloc;
            "{} {} {} {} {}",
            program.def_count(),
            program.source_tokens(),
            program.tokens().len(),
            program.data_start(),
            program.space().len()
        ),
        Err(error) => error_told(alloc, error),
    }
}

// Whether a piece has the answer that is wanted.
fn adds(alloc: Global, reading: &mut Reading, call: &str) -> Result<bool, Fail> {
    let (piece, wanted) = call.split_once('=').ok_or("no piece")?;
    let piece = bytes_in(alloc, piece.trim_ascii())?;
    if piece.len() > 1000 || reading.length() > 60_000 {
        return Ok(false);
    }
    let told = match reading.add(piece.as_slice()) {
        Ok(()) => format!(in alloc; "kept")?,
        Err(error) => error_told(alloc, error)?,
    };
    Ok(*told.as_bytes() == *wanted.trim_ascii().as_bytes())
}

// Whether the pieces and their program have the answers that are wanted.
fn reads(alloc: Global, pieces: &str, wanted: &str) -> Result<bool, Fail> {
    let mut reading = Reading::new(alloc)?;
    if !pieces.is_empty() {
        for call in pieces.split('&') {
            if !adds(alloc, &mut reading, call)? {
                return Ok(false);
            }
        }
    }
    let told = program_told(alloc, reading.finish())?;
    Ok(*told.as_bytes() == *wanted.as_bytes())
}

#[test]
fn reads_pieces(rt: HostRuntime) -> Result<(), Fail> {
    for line in PIECES.trim_matches('\n').lines() {
        let mut rest = line;
        let pieces = field(&mut rest);
        if !reads(rt.alloc(), pieces, rest.trim_ascii())? {
            return Ok(Err(line)?);
        }
    }
    Ok(())
}
