// No code: the promises of document 01 as theorems about its definitions.
#![tactic(auto)]
