// Buckets of names.
ghost use Rattle.std.specs.Prelude.{◌≡◌, ◌<◌, ◌+◌, ◌%◌};
ghost use Rattle.forth_reader.specs.Number.{raised_letter};
ghost use Rattle.dictionary_core.specs.Buckets.{bucket};

// A letter in upper case.
fn raised(byte: u8) -> u8
    ensures { result ≡ raised_letter byte }
{
    if byte >= b'a' && byte <= b'z' {
        byte - 32
    } else {
        byte
    }
}

/// The bucket of a name: the sum of its bytes with letters raised, modulo 64.
pub fn bucket_of(name: &str) -> u8
    ensures value { result ≡ bucket name.now }
    ensures small { result < 64 }
{
    let mut sum: u8 = 0;
    let mut rest = name.as_bytes();
    while let Some((byte, tail)) = rest.split_first() {
        sum = ((u32::from(sum) + u32::from(raised(*byte))) % 64) as u8;
        rest = tail;
    }
    sum
}
