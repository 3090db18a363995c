// What the tariff committee may rely on, over the calls of the other crates: no code.
#![tactic(auto)]
