// What compiles keeps to the plan: it is a query form, and its plan and pool are within their limits. This crate has no code: see specs/.

#![tactic(auto)]
