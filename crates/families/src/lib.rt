// The two families of codes: an accepted code of Hsiao's as a code with all rows in the set. Laws alone, no functions.
#![tactic(auto)]
