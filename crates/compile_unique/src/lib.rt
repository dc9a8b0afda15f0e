// One text reads in one way, so compile and select have one outcome for each input. This crate has no code: see specs/.

#![tactic(auto)]
