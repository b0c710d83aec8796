// What sums say of numbers.
ghost use Rattle.f8_words.specs.SumLaw.{SumLaw};

/// What sums say of numbers: a comparison tells which byte is the greater one and whether they are equal, overflow tells that the sum of signed
/// numbers has no byte, and the decimal sum adds decimals of two digits (Fairchild F8 User's Guide). This call does nothing; its contract is
/// the law.
pub fn sum_law()
    ensures { SumLaw }
{}
