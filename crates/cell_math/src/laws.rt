// What quotients and remainders are.
ghost use Rattle.cell_math.specs.Exactness.{EachIsFloored, EachIsSymmetric};

/// A number is the quotient times the divisor and the remainder, which is nearer to 0 than the divisor: rounded down it has the
/// divisor's sign, and rounded toward zero the number's.
pub fn quotients_are_exact()
    ensures floored { EachIsFloored }
    ensures symmetric { EachIsSymmetric }
{}
