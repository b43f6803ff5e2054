// What a well-formed engine is known to have: definitions and laws stand in specs/.
#![tactic(auto)]
