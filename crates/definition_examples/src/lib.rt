// The definition held against answers that are written down elsewhere: document 01's rows, refusals, tables and outcomes, computed. This crate has no code: see specs/.

#![tactic(auto)]
