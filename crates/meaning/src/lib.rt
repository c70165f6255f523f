// No code: what a reply of the program means for the text that it was given, as theorems about the definitions.
#![tactic(auto)]
