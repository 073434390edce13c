// Definitions and laws that every layer shares. No code.
#![tactic(auto)]
