// No code: two answers that one contract allows are equal, for every public function.
#![tactic(auto)]
