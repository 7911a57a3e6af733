// A list longer than the panel has cells holds a repeat or a cell off the panel: a theorem, without code.

#![tactic(auto)]
