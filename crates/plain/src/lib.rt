// The plain machine and the calls, as definitions in specs/. There is no code here.
#![tactic(auto)]
