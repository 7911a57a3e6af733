// Which cells a track leaves uncovered: a theorem, without code.

#![tactic(auto)]
