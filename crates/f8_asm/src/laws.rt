// Laws over the definitions.
ghost use Rattle.f8_asm.specs.ExpressionForms.{ExpressionLaw, LongestExpressionLaw};

/// Expressions are those of the grammar, whatever their parts stand for: what is read of tokens is the expression that they
/// begin with, up to where no operator stands, and that is the longest one. This call does nothing; its contract is the law.
pub fn expression_law<A>()
    ensures reads { ExpressionLaw A }
    ensures longest { LongestExpressionLaw A }
{}
