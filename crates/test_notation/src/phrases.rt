// Phrases of numbers and words, with answers from the standard.
use crate::notation::field;

/// Phrases of numbers and words: the cells that they leave, the top last, what they print, their input, and their answer. A loop keeps on
/// the return stack its limit and, above it, index less limit.
pub const PHRASES: &str = r#"
1 2 DUP                                 | 1 2 2
65535 DUP                               | 65535 65535
0 65535 DROP                            | 0
32768 32767 SWAP                        | 32767 32768
65535 0 OVER                            | 65535 0 65535
0 32767 65535 ROT                       | 32767 65535 0
32768 65535 2DUP                        | 32768 65535 32768 65535
7 32768 65535 2DROP                     | 7
0 S>D 1 S>D 32767 S>D                   | 0 0 1 0 32767 0
32768 S>D 65535 S>D                     | 32768 65535 65535 65535
0 8320 ! 8320 @ 1 8320 ! 8320 @         | 0 1
32767 8320 ! 8320 @ 32768 8320 ! 8321 @ | 32767 32768
65535 16383 ! 16382 @ 8192 @            | 65535 10
0 EMIT 1 EMIT 32767 EMIT                |                         | ^00^01^FF
32768 EMIT 65535 EMIT                   |                         | ^00^FF
0 @                                     |                         |           |    | 8 outside 0
1 @                                     |                         |           |    | 8 outside 0
32767 @                                 |                         |           |    | 8 outside 32766
32768 @                                 |                         |           |    | 8 outside 32768
65535 @                                 |                         |           |    | 8 outside 65534
7 65535 !                               |                         |           |    | 8 outside 65534
1 2 DROP                                | 1
1 2 SWAP                                | 2 1
1 2 OVER                                | 1 2 1
1 2 3 ROT                               | 2 3 1
1 2 2DUP                                | 1 2 1 2
1 2 3 2DROP                             | 1
65535 2 +                               | 1
2 3 -                                   | -1
32768 NEGATE                            | 32768
0 NEGATE                                | 0
5 NEGATE                                | -5
65535 1+                                | 0
0 1-                                    | 65535
32769 2*                                | 2
4080 15420 AND                          | 3120
4080 15420 OR                           | 16380
4080 15420 XOR                          | 13260
255 INVERT                              | 65280
3 15 LSHIFT                             | 32768
3 17 LSHIFT                             | 6
32768 15 RSHIFT                         | 1
32768 65535 RSHIFT                      | 1
7 7 =                                   | -1
7 8 =                                   | 0
-1 0 <                                  | -1
32767 -32768 <                          | 0
-1 0 >                                  | 0
0 -1 >                                  | -1
65535 0 U<                              | 0
0 65535 U<                              | -1
0 0=                                    | -1
5 0=                                    | 0
-32768 0<                               | -1
32767 0<                                | 0
-1 S>D                                  | -1 -1
5 S>D                                   | 5 0
5 CELLS                                 | 10
65534 CELL+                             | 0
9 CHARS                                 | 9
8321 CHAR+                              | 8322
65535 CHAR+                             | 0
65535 ALIGNED                           | 0
8320 ALIGNED                            | 8320
8192 @                                  | 10
1234 8322 ! 8320 @ 8322 @ 8324 @        | 0 1234 0
65 16384 !                              |                         | A
16386 @                                 | 120                     |           | x
263 16388 !                             |                         |           |    | 9 halted 7
16384 @                                 |                         |           |    | 8 outside 16384
5 8191 !                                |                         |           |    | 8 outside 8190
65 EMIT 322 EMIT                        |                         | AB
KEY KEY                                 | 120 121                 |           | xy
KEY KEY                                 |                         |           | x  | 7 input ended
BL                                      | 32
1 CR 2                                  | 1 2                     | ~
1 SPACE 2                               | 1 2                     | _
BASE                                    | 8192
16 BASE ! BASE @ DECIMAL BASE @         | 16 10
HERE                                    | 8320
DEPTH                                   | 0
7 7 7 DEPTH                             | 7 7 7 3
65 EMIT ABORT 66 EMIT                   |                         | A         |    | 9 halted 1
65 EMIT QUIT 66 EMIT                    |                         | A         |    | 9 halted 3
5 6 >R 7 R>                             | 5 7 6
5 >R R@ R>                              | 5 5
10 >R -7 >R I R> R>                     | 3 -7 10
20 >R -5 >R 10 >R -7 >R J R> R> R> R>   | 15 -7 10 -5 20
9 >R 10 >R -7 >R UNLOOP R>              | 9
"#;

/// What a line says of a phrase.
#[derive(Clone, Copy)]
pub struct Phrase<'a> {
    pub text: &'a str,
    pub left: &'a str,
    pub printed: &'a str,
    pub input: &'a str,
    pub answer: &'a str,
}

/// The phrase of a line.
pub fn phrase_in(line: &str) -> Phrase<'_> {
    let mut rest = line;
    Phrase {
        text: field(&mut rest),
        left: field(&mut rest),
        printed: field(&mut rest),
        input: field(&mut rest),
        answer: field(&mut rest),
    }
}
