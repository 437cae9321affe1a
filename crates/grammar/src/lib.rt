// What is read: the operator grammar of B3 and the reading rules, as definitions and theorems; see specs/.

#![tactic(auto)]
