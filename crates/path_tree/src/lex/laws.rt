//! Laws of tokens, over the definitions alone.

ghost use Rattle.path_tree.specs.TokenLaws.{OneTokenList, OneFirstFault, FaultOrTokens};

/// A source has at most one list of tokens.
pub fn one_token_list()
    ensures { OneTokenList }
{}

/// A source has at most one first fault.
pub fn one_first_fault()
    ensures { OneFirstFault }
{}

/// A source with a fault has no tokens.
pub fn fault_or_tokens()
    ensures { FaultOrTokens }
{}
