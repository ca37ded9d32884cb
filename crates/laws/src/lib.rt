// No code: the crate holds laws on numbers and lists that belong to no layer, for every crate above to cite.
#![tactic(auto)]
