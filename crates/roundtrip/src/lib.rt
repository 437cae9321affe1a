// That prints are read back; see specs/.

#![tactic(auto)]
